//! The lines before the tree.

ghost use Rattle.std.specs.Prelude.{◌≡◌, ◌≢◌, ◌++◌, ◌∷◌, [], ◌<◌, ◌≤◌, ℕ, ℤ, List, length, pos, codes, IfErr, IfOk, IfSome, MatchOption, MatchResult, OnOk, slice_index, ⊤};
ghost use Rattle.qap_cost.specs.Bijection.{IsPerm};
ghost use Rattle.qap_cost.specs.Placement.{Placement};
ghost use Rattle.qap_cost.specs.Range.{IsLimited};
ghost use Rattle.qap_io.specs.Number.{from_one as counted_from_one};
ghost use Rattle.qap_lines.specs.Bound.{IsBoundFor};
ghost use Rattle.qap_lines.specs.LineText.{line_text};
ghost use Rattle.qap_lines.specs.Number.{IsNamed};
ghost use Rattle.qap_proof.specs.Claim.{IsRoot};
ghost use Rattle.qap_proof.specs.Text.{bound_text, root_text};
ghost use Rattle.qap_proof.specs.TextFault.{HasRootLine, IsBelow};
ghost use Rattle.proof_tree.specs.Text.{tree_text};
ghost use Rattle.proof_tree.specs.Tree.{Tree};
ghost use Rattle.proof_check.specs.Acceptance.{IsInterruption, ReadsHead};
ghost use Rattle.proof_check.specs.Completeness.{HasBound, HasHead, HasRoot, IsCurrent, IsHeadOf, RefusesNamed};
ghost use Rattle.proof_check.specs.Fault.{IsReadFault};
ghost use Rattle.proof_check.specs.Flow.{Passes};
ghost use Rattle.proof_check.specs.Walk.{ReadsBehind};

use crate::cursor::{Cursor, advance};
use crate::tee::Tee;
use qap_cost::{MAX_SIZE, MAX_VALUE, Partial, Perm};
use qap_lines::{one_number, permutation_from_one, read_numbers};
use qap_proof::{ProofError, read_node_text};
use std::alloc::Global;
use std::io::{BufRead, Write};

/// What the lines before the tree state.
#[derive(Drop)]
pub(crate) struct Head {
    pub(crate) cost: i128,
    pub(crate) bound: i128,
    pub(crate) perm: Perm,
    pub(crate) root: Partial,
}

/// Reads them, and the line after them.
pub(crate) fn read_head<R: BufRead, W: Write>(
    alloc: Global,
    reader: &mut Tee<R, W>,
    cursor: &mut Cursor,
) -> Result<Head, ProofError>
    ensures read { IfOk result (λ h. ReadsHead h.root h.cost h.bound h.perm cursor.new.line.items reader.old reader.new) }
    ensures passed { MatchResult result
        (λ h. (x : Placement) (c g : ℤ) (p : List ℕ) (t : Tree) (rest : List ℕ) → HasHead x c g p t reader.old.left rest
        → IsHeadOf x c g p h.root h.cost h.bound h.perm × IsCurrent cursor.new.line.items reader.new.left (tree_text t ++ rest))
        (λ e. (x : Placement) (c g : ℤ) (p : List ℕ) (t : Tree) (rest : List ℕ) → HasHead x c g p t reader.old.left rest → IsInterruption e) }
    ensures class { IfErr result IsReadFault }
{
    read_header(reader, cursor)?;
    let n = read_size(reader, cursor)?;
    let cost = read_cost(reader, cursor)?;
    let perm = read_permutation(alloc, reader, cursor, n)?;
    advance(reader, cursor)?;
    let root = read_root(alloc, reader, cursor, n)?;
    let bound = read_bound(reader, cursor, cost)?;
    Ok(Head {
        cost,
        bound,
        perm,
        root,
    })
}

/// The first line, which states the version.
fn read_header<R: BufRead, W: Write>(
    reader: &mut Tee<R, W>,
    cursor: &mut Cursor,
) -> Result<(), ProofError>
    ensures refused { IfErr result (RefusesNamed (codes "qapproof") (pos 2 ∷ []) reader.old.left) }
    ensures read { OnOk result (Passes reader.old reader.new (line_text (codes "qapproof") (pos 2 ∷ []))) }
    ensures class { IfErr result IsReadFault }
{
    advance(reader, cursor)?;
    judge_header(&cursor.line)?;
    Ok(())
}

fn judge_header(line: &[u8]) -> Result<(), ProofError>
    ensures judged { MatchResult result (λ _. IsNamed (codes "qapproof") line.now (pos 2 ∷ [])) (λ _. IsNamed (codes "qapproof") line.now (pos 2 ∷ []) → ⊥) }
    ensures class { IfErr result IsReadFault }
{
    match one_number(b"qapproof", line) {
        Some(2) => Ok(()),
        Some(version) if version > 0 => Err(ProofError::BadVersion),
        _ => Err(ProofError::BadHeader),
    }
}

/// The size, which the second line states.
fn read_size<R: BufRead, W: Write>(
    reader: &mut Tee<R, W>,
    cursor: &mut Cursor,
) -> Result<usize, ProofError>
    ensures refused { IfErr result (λ e. (n : ℕ) → 0 < n → n ≤ 256 → RefusesNamed (codes "n") (pos n ∷ []) reader.old.left e) }
    ensures read { IfOk result (λ n. (0 < n) × (n ≤ 256) × Passes reader.old reader.new (line_text (codes "n") (pos n ∷ []))) }
    ensures class { IfErr result IsReadFault }
{
    advance(reader, cursor)?;
    let size = judge_size(&cursor.line, cursor.number)?;
    Ok(size)
}

fn judge_size(line: &[u8], number: u64) -> Result<usize, ProofError>
    ensures judged { MatchResult result
        (λ n. (0 < n) × (n ≤ 256) × IsNamed (codes "n") line.now (pos n ∷ []))
        (λ _. (n : ℕ) → 0 < n → n ≤ 256 → IsNamed (codes "n") line.now (pos n ∷ []) → ⊥) }
    ensures class { IfErr result IsReadFault }
{
    match one_number(b"n", line) {
        Some(size) if size > 0 && size <= MAX_SIZE as i128 => Ok(size as usize),
        _ => Err(ProofError::BadLine(number)),
    }
}

/// The cost, which the third line states.
fn read_cost<R: BufRead, W: Write>(
    reader: &mut Tee<R, W>,
    cursor: &mut Cursor,
) -> Result<i128, ProofError>
    ensures refused { IfErr result (λ e. (c : ℤ) → IsLimited c → RefusesNamed (codes "cost") (c ∷ []) reader.old.left e) }
    ensures read { IfOk result (λ c. IsLimited c × Passes reader.old reader.new (line_text (codes "cost") (c ∷ []))) }
    ensures class { IfErr result IsReadFault }
{
    advance(reader, cursor)?;
    let cost = judge_cost(&cursor.line, cursor.number)?;
    Ok(cost)
}

fn judge_cost(line: &[u8], number: u64) -> Result<i128, ProofError>
    ensures judged { MatchResult result
        (λ c. IsLimited c × IsNamed (codes "cost") line.now (c ∷ []))
        (λ _. (c : ℤ) → IsLimited c → IsNamed (codes "cost") line.now (c ∷ []) → ⊥) }
    ensures class { IfErr result IsReadFault }
{
    match one_number(b"cost", line) {
        Some(cost) if cost.unsigned_abs() <= MAX_VALUE => Ok(cost),
        _ => Err(ProofError::BadLine(number)),
    }
}

/// The permutation of `n` locations, which the fourth line states.
fn read_permutation<R: BufRead, W: Write>(
    alloc: Global,
    reader: &mut Tee<R, W>,
    cursor: &mut Cursor,
    n: usize,
) -> Result<Perm, ProofError>
    requires small { n ≤ 256 }
    ensures refused { IfErr result (λ e. (p : List ℕ) → IsPerm p → length p ≡ n → RefusesNamed (codes "perm") (counted_from_one p) reader.old.left e) }
    ensures read { IfOk result (λ p. IsPerm p × (length p ≡ n) × Passes reader.old reader.new (line_text (codes "perm") (counted_from_one p))) }
    ensures class { IfErr result IsReadFault }
{
    advance(reader, cursor)?;
    let perm = judge_permutation(alloc, &cursor.line, n, cursor.number)?;
    Ok(perm)
}

fn judge_permutation(alloc: Global, line: &[u8], n: usize, number: u64) -> Result<Perm, ProofError>
    requires small { n ≤ 256 }
    ensures found { IfOk result (λ p. IsPerm p × (length p ≡ n) × IsNamed (codes "perm") line.now (counted_from_one p)) }
    ensures refused { IfErr result (λ e. (p : List ℕ) → IsPerm p → length p ≡ n → IsNamed (codes "perm") line.now (counted_from_one p) → IsInterruption e) }
    ensures class { IfErr result IsReadFault }
{
    let mut locations = Vec::new(alloc);
    let Some(numbers) = read_numbers(b"perm", line, n, &mut locations)? else {
        return Err(ProofError::BadLine(number));
    };
    if numbers.count != n {
        return Err(ProofError::BadLine(number));
    }
    match permutation_from_one(alloc, &locations)? {
        Some(permutation) => Ok(permutation),
        None => Err(ProofError::PermBad(number)),
    }
}

/// The root, which the current line states, or which is empty; then the current line is the one after it.
fn read_root<R: BufRead, W: Write>(
    alloc: Global,
    reader: &mut Tee<R, W>,
    cursor: &mut Cursor,
    n: usize,
) -> Result<Partial, ProofError>
    requires positive { 0 < n }
    requires small { n ≤ 256 }
    ensures passed { MatchResult result
        (λ x. (y : Placement) (text : List ℕ) → HasRoot n y cursor.old.line.items reader.old.left text → (x ≡ y) × IsCurrent cursor.new.line.items reader.new.left text)
        (λ e. (y : Placement) (text : List ℕ) → HasRoot n y cursor.old.line.items reader.old.left text → IsInterruption e) }
    ensures read { IfOk result (λ x. IsRoot n x × ReadsBehind cursor.old.line.items (root_text x.facilities x.places) cursor.new.line.items reader.old reader.new) }
    ensures class { IfErr result IsReadFault }
{
    match judge_root(alloc, &cursor.line, n, cursor.number)? {
        None => Ok(Partial::root(alloc, n)?),
        Some(root) => {
            advance(reader, cursor)?;
            Ok(root)
        }
    }
}

/// The root that a line states, if it begins as one of a root.
fn judge_root(
    alloc: Global,
    line: &[u8],
    n: usize,
    number: u64,
) -> Result<Option<Partial>, ProofError>
    requires positive { 0 < n }
    requires small { n ≤ 256 }
    ensures found { IfOk result (λ o. IfSome o (λ x. IsRoot n x × (line.now ++ 10 ∷ [] ≡ root_text x.facilities x.places))) }
    ensures none { IfOk result (λ o. MatchOption o ((text : List ℕ) → line.now ≢ codes "node " ++ text) (λ _. ⊤)) }
    ensures other { IfErr result (λ e. slice_index line.now 0 ≢ 110 → IsInterruption e) }
    ensures refused { IfErr result (λ e. (x : Placement) → HasRootLine n x → line.now ++ 10 ∷ [] ≡ root_text x.facilities x.places → IsInterruption e) }
    ensures class { IfErr result IsReadFault }
{
    let Some(text) = line.strip_prefix(b"node ") else {
        return Ok(None);
    };
    if text.is_empty() {
        return Err(ProofError::RootBad(number));
    }
    match read_node_text(alloc, text, n)? {
        Some(root) => Ok(Some(root)),
        None => Err(ProofError::RootBad(number)),
    }
}

/// The bound, which the current line states, or which is the cost; then the current line is the one after it.
fn read_bound<R: BufRead, W: Write>(
    reader: &mut Tee<R, W>,
    cursor: &mut Cursor,
    cost: i128,
) -> Result<i128, ProofError>
    requires cost { IsLimited cost }
    ensures passed { MatchResult result
        (λ g. (h : ℤ) (text : List ℕ) → HasBound cost h cursor.old.line.items reader.old.left text → (g ≡ h) × IsCurrent cursor.new.line.items reader.new.left text)
        (λ e. (h : ℤ) (text : List ℕ) → HasBound cost h cursor.old.line.items reader.old.left text → IsInterruption e) }
    ensures read { IfOk result (λ g. IsBoundFor cost g × ReadsBehind cursor.old.line.items (bound_text cost g) cursor.new.line.items reader.old reader.new) }
    ensures class { IfErr result IsReadFault }
{
    match judge_bound(&cursor.line, cost, cursor.number)? {
        None => Ok(cost),
        Some(bound) => {
            advance(reader, cursor)?;
            Ok(bound)
        }
    }
}

/// The bound that a line states, if it is one of a bound.
fn judge_bound(line: &[u8], cost: i128, number: u64) -> Result<Option<i128>, ProofError>
    ensures judged { MatchResult result
        (λ o. MatchOption o ((g : ℤ) → IsNamed (codes "bound") line.now (g ∷ []) → ⊥) (λ g. IsBelow cost g × IsNamed (codes "bound") line.now (g ∷ [])))
        (λ _. ((g : ℤ) → IsBelow cost g → IsNamed (codes "bound") line.now (g ∷ []) → ⊥) × ((zs : List ℤ) × IsNamed (codes "bound") line.now zs)) }
    ensures class { IfErr result IsReadFault }
{
    match one_number(b"bound", line) {
        None => Ok(None),
        Some(bound) if bound.unsigned_abs() <= MAX_VALUE && bound < cost => Ok(Some(bound)),
        Some(_) => Err(ProofError::BadLine(number)),
    }
}
