//! The line of a leaf or a split.

ghost use Rattle.std.specs.Prelude.{◌≡◌, ◌+◌, ◌<◌, ◌≤◌, ◌++◌, ◌∷◌, ◌↔◌, [], IsTrue, ℕ, length, pos, codes, IfErr, IfOk, IfSome, MatchOption};
ghost use Rattle.qap_lines.specs.LineText.{numbers_text};
ghost use Rattle.qap_proof.specs.Text.{letter};
ghost use Rattle.proof_check.specs.Completeness.{HasNoBlank, RefusesNode, RefusesSplit};
ghost use Rattle.proof_check.specs.Fault.{IsReadFault};
ghost use Rattle.proof_check.specs.Lines.{AreMarks, IsNodeLine, IsSplitLine};

use crate::numbers::limited_numbers;
use qap_io::from_one;
use qap_lines::one_number;
use qap_proof::{ProofError, Side};
use std::alloc::Global;

/// A split on a facility or a location, which is counted from 0: a mark for each child, and a number for each free facility.
#[derive(Drop)]
pub(crate) struct SplitLine {
    pub(crate) side: Side,
    pub(crate) number: u16,
    pub(crate) marks: Vec<u8>,
    pub(crate) u: Vec<i128>,
}

/// The content of a node's line.
#[derive(Drop)]
pub(crate) enum NodeLine {
    /// It reaches the bound by these numbers, one for each free facility.
    Leaf(Vec<i128>),
    Split(SplitLine),
}

/// The content of the line of a node of an instance of this size, with `m` facilities free.
pub(crate) fn read_node_line(
    alloc: Global,
    line: &[u8],
    number: u64,
    m: usize,
    size: usize,
) -> Result<NodeLine, ProofError>
    requires small { m ≤ 256 }
    requires size { size ≤ 256 }
    ensures found { IfOk result (IsNodeLine m line.now) }
    ensures refused { IfErr result (RefusesNode m size line.now) }
    ensures class { IfErr result IsReadFault }
{
    match line.first() {
        Some(b'x') => Ok(NodeLine::Leaf(limited_numbers(alloc, b"x", line, m, number)?)),
        Some(b's') => Ok(NodeLine::Split(read_split(
            alloc,
            line,
            number,
            m,
            size,
            Side::Facility,
        )?)),
        Some(b't') => Ok(NodeLine::Split(read_split(
            alloc,
            line,
            number,
            m,
            size,
            Side::Location,
        )?)),
        _ => Err(ProofError::BadLine(number)),
    }
}

/// The letter that the line of a split on this side begins with.
fn letter_of(side: Side) -> &'static [u8]
    ensures { result.now ≡ letter side }
{
    match side {
        Side::Facility => b"s",
        Side::Location => b"t",
    }
}

/// A split on this side.
fn read_split(
    alloc: Global,
    line: &[u8],
    number: u64,
    m: usize,
    size: usize,
    side: Side,
) -> Result<SplitLine, ProofError>
    requires small { m ≤ 256 }
    requires size { size ≤ 256 }
    ensures found { IfOk result (λ s. IsSplitLine m line.now s × (s.side ≡ side)) }
    ensures refused { IfErr result (RefusesSplit m size side line.now) }
    ensures class { IfErr result IsReadFault }
{
    let Some(heading) = heading_of(line) else {
        return Err(ProofError::BadLine(number));
    };
    let Some(split) = number_of(letter_of(side), heading.front, size) else {
        return Err(ProofError::BadLine(number));
    };
    if heading.behind.len() < m {
        return Err(ProofError::BadLine(number));
    }
    if !are_marks(&heading.behind[..m]) {
        return Err(ProofError::BadLine(number));
    }
    let marks = Vec::from_slice(alloc, &heading.behind[..m])?;
    let u = limited_numbers(alloc, b"", &heading.behind[m..], m, number)?;
    Ok(SplitLine {
        side,
        number: split,
        marks,
        u,
    })
}

/// Whether each of these characters marks a child without a text, or one with a text.
fn are_marks(marks: &[u8]) -> bool
    ensures { IsTrue result ↔ AreMarks marks.now }
{
    for at in 0..marks.len() {
        if marks[at] != b'.' && marks[at] != b'+' {
            return false;
        }
    }
    true
}

/// What is before and after the second blank of a line.
#[derive(Clone, Copy)]
struct Heading<'a> {
    front: &'a [u8],
    behind: &'a [u8],
}

fn heading_of(line: &[u8]) -> Option<Heading<'_>>
    ensures found { IfSome result (λ h. line.now ≡ h.front.now ++ 32 ∷ h.behind.now) }
    ensures first { MatchOption result (HasNoBlank line.now) (λ h. (2 ≤ length h.front.now) × HasNoBlank h.front.now) }
{
    for at in 2..line.len() {
        if line[at] == b' ' {
            return Some(Heading {
                front: &line[..at],
                behind: &line[at + 1..],
            });
        }
    }
    None
}

/// The facility or location that a name and a number state, counted from 0.
fn number_of(name: &[u8], text: &[u8], size: usize) -> Option<u16>
    requires { size ≤ 256 }
    ensures { MatchOption result
        ((i : ℕ) → i < size → text.now ≡ name.now ++ numbers_text (pos (i + 1) ∷ []) → ⊥)
        (λ i. (i < size) × (text.now ≡ name.now ++ numbers_text (pos (i + 1) ∷ []))) }
{
    let stated = one_number(name, text)?;
    from_one(stated, size)
}
