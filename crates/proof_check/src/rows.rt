//! Pair duals as lines list them.

ghost use Rattle.std.specs.Prelude.{◌≡◌, ◌^◌, ◌<◌, ◌≤◌, ◌++◌, ◌∷◌, [], ℕ, ℤ, List, drop, pos, codes, Some, IfErr, IfOk, MatchOption, MatchResult, OnErr, OnOk};
ghost use Rattle.qap_lines.specs.LineText.{numbers_text};
ghost use Rattle.qap_lines.specs.Number.{IsNamed};
ghost use Rattle.proof_check.specs.Acceptance.{IsInterruption};
ghost use Rattle.proof_check.specs.Completeness.{BeginsWithRows};
ghost use Rattle.proof_check.specs.Fault.{IsReadFault};
ghost use Rattle.proof_check.specs.Rows.{ReadsRows, lists_of};
ghost use Rattle.proof_tree.specs.Shape.{AreLimited};

use crate::cursor::{Cursor, advance};
use crate::numbers::limited_numbers;
use crate::tee::Tee;
use pair_duals::MAX_SCALE;
use qap_lines::one_number;
use qap_proof::ProofError;
use std::alloc::{AllocError, Global};
use std::io::{BufRead, Write};

/// The scale that a line states, from 1 to 2^20.
pub(crate) fn scale_of(line: &[u8]) -> Option<u32>
    ensures { MatchOption result
        ((s : ℕ) → 0 < s → s ≤ 2 ^ 20 → IsNamed (codes "p") line.now (pos s ∷ []) → ⊥)
        (λ s. (0 < s) × (s ≤ 2 ^ 20) × IsNamed (codes "p") line.now (pos s ∷ [])) }
{
    match one_number(b"p", line) {
        Some(scale) if scale > 0 && scale <= MAX_SCALE as i128 => Some(scale as u32),
        _ => None,
    }
}

/// Reads the rows of pair duals where `m` facilities are free: a line for each free facility at each free location.
pub(crate) fn read_rows<R: BufRead, W: Write>(
    alloc: Global,
    reader: &mut Tee<R, W>,
    cursor: &mut Cursor,
    m: usize,
) -> Result<Vec<Vec<i128>>, ProofError>
    requires { m ≤ 256 }
    ensures read { IfOk result (λ rows. ReadsRows m (lists_of rows.items) reader.old reader.new) }
    ensures passed { MatchResult result
        (λ rows. (wanted : List (List ℤ)) (rest : List ℕ) → BeginsWithRows m wanted reader.old.left rest → (lists_of rows.items ≡ wanted) × (reader.new.left ≡ Some rest))
        (λ e. (wanted : List (List ℤ)) (rest : List ℕ) → BeginsWithRows m wanted reader.old.left rest → IsInterruption e) }
    ensures class { IfErr result IsReadFault }
{
    let width = 2 * m.saturating_sub(1);
    let mut rows = Vec::new(alloc);
    for _ in 0..m * m {
        advance(reader, cursor)?;
        let row = read_row(alloc, &cursor.line, cursor.number, width)?;
        push_row(&mut rows, row)?;
    }
    Ok(rows)
}

/// The numbers of a line, which must be this many, each from -10^24 to 10^24.
fn read_row(alloc: Global, line: &[u8], number: u64, width: usize) -> Result<Vec<i128>, ProofError>
    requires { width ≤ 512 }
    ensures found { IfOk result (λ row. AreLimited width row.items × (line.now ≡ drop 1 (numbers_text row.items))) }
    ensures refused { IfErr result (λ e. (row : List ℤ) → AreLimited width row → line.now ≡ drop 1 (numbers_text row) → e ≡ ProofError.OutOfMemory) }
    ensures class { IfErr result IsReadFault }
{
    if width == 0 {
        return no_row(alloc, line, number);
    }
    let spaced = behind_blank(alloc, line)?;
    let row = limited_numbers(alloc, b"", &spaced, width, number)?;
    Ok(row)
}

/// A blank and a line.
fn behind_blank(alloc: Global, line: &[u8]) -> Result<Vec<u8>, AllocError>
    ensures { IfOk result (λ bytes. bytes.items ≡ 32 ∷ line.now) }
{
    let mut bytes = Vec::from_slice(alloc, b" ")?;
    bytes.extend_from_slice(line)?;
    Ok(bytes)
}

/// Adds a row.
fn push_row(rows: &mut Vec<Vec<i128>>, row: Vec<i128>) -> Result<(), AllocError>
    ensures { OnOk result (lists_of rows.new.items ≡ lists_of rows.old.items ++ row.items ∷ []) }
{
    rows.push(row)?;
    Ok(())
}

/// The numbers of an empty line.
fn no_row(alloc: Global, line: &[u8], number: u64) -> Result<Vec<i128>, ProofError>
    ensures found { IfOk result (λ row. AreLimited 0 row.items × (line.now ≡ drop 1 (numbers_text row.items))) }
    ensures refused { OnErr result ((row : List ℤ) → AreLimited 0 row → line.now ≡ drop 1 (numbers_text row) → ⊥) }
    ensures class { IfErr result IsReadFault }
{
    if line.is_empty() {
        Ok(Vec::new(alloc))
    } else {
        Err(ProofError::BadLine(number))
    }
}
