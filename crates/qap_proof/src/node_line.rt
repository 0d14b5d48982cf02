//! The line of a tree's node.

ghost use Rattle.std.specs.Prelude.{◌≡◌, ◌≢◌, ◌⊎◌, ◌+◌, ◌-◌, ◌*◌, ◌<◌, ◌≤◌, ◌++◌, ◌∷◌, [], codes, drop, length, pos, slice_index_or, ℕ, ℤ, List, true, MatchOption, MatchResult};
ghost use Rattle.qap_io.specs.Number.{from_one as counted_from_one};
ghost use Rattle.qap_lines.specs.LineText.{numbers_text};
ghost use Rattle.qap_lines.specs.Number.{IsNamed};
ghost use Rattle.qap_proof.specs.Fault.{IsNumberFault};
ghost use Rattle.qap_proof.specs.NodeLine.{IsNodeLine, HasLine, split_of, IsMirrorFault};
ghost use Rattle.gilmore_lawler.specs.Closing.{AreDuals};
ghost use Rattle.qap_proof.specs.Shape.{IsPermOf, IsSplit};
ghost use Rattle.qap_proof.specs.Text.{letter as letter_of, split_numbers};
ghost use Rattle.qap_proof.specs.TextFault.{IsDualsFault, IsLineFault, IsNodeFault, IsSayingFault, splits};
ghost use Rattle.qap_proof.specs.Tree.{IsFreeOn};

use crate::error::ProofError;
use crate::line::line_at;
use crate::side::Side;
use crate::tree::{Duals, KeptDuals};
use qap_cost::{Partial, Perm};
use qap_io::from_one;
use qap_lines::{LineNumbers, permutation_from_one, read_numbers};
use std::alloc::Global;

/// A split: what it is on, and its duals, if it has any.
#[derive(Drop)]
pub struct SplitLine {
    pub side: Side,
    pub number: u16,
    pub duals: Option<KeptDuals>,
}

/// The content of a node's line.
#[derive(Drop)]
pub enum NodeLine {
    Closed(Duals),
    Split(SplitLine),
    Cut,
    Mirrored(u16, Perm),
}

/// The content of the first line of a text, and the text after it.
#[derive(Drop)]
pub struct LineRead<'a> {
    pub line: NodeLine,
    pub rest: &'a [u8],
}

/// The first line of a text, which has this number and must be that of a node, with this many earlier children of its
/// split and with or without duals of that split.
pub fn read_node_line<'a>(
    alloc: Global,
    text: &'a [u8],
    node: &Partial,
    earlier: usize,
    has_duals: bool,
    number: u64,
) -> Result<LineRead<'a>, ProofError>
    requires { earlier ≤ 256 }
    ensures { MatchResult result
        (λ r. HasLine node.now earlier has_duals text.now r.line r.rest.now)
        (λ e. (e ≡ ProofError.OutOfMemory) ⊎ IsLineFault number text.now (IsNodeFault node.now earlier has_duals number) e) }
{
    let line = line_at(text, number)?;
    let said = judge_line(alloc, line.bytes, node, earlier, has_duals, number)?;
    Ok(LineRead {
        line: said,
        rest: line.rest,
    })
}

/// The content of the line, if it is that of a node.
fn judge_line(
    alloc: Global,
    line: &[u8],
    node: &Partial,
    earlier: usize,
    has_duals: bool,
    number: u64,
) -> Result<NodeLine, ProofError>
    requires { earlier ≤ 256 }
    ensures { MatchResult result
        (IsNodeLine node.now earlier has_duals line.now)
        (λ e. (e ≡ ProofError.OutOfMemory) ⊎ IsNodeFault node.now earlier has_duals number line.now e) }
{
    if let Some(duals) = closed_line(alloc, line, node, number)? {
        return Ok(NodeLine::Closed(duals));
    }
    if let Some(split) = split_line(alloc, line, Side::Facility, node, number)? {
        return Ok(NodeLine::Split(split));
    }
    if let Some(split) = split_line(alloc, line, Side::Location, node, number)? {
        return Ok(NodeLine::Split(split));
    }
    if line == b"c".as_slice() {
        return if has_duals {
            Ok(NodeLine::Cut)
        } else {
            Err(ProofError::CutWithoutDuals(number))
        };
    }
    match mirrored_line(alloc, line, node, earlier, number)? {
        Some((child, image)) => Ok(NodeLine::Mirrored(child, image)),
        None => Err(ProofError::BadLine(number)),
    }
}

/// The duals of a closed node's line: `b` and a number for each free facility and each free location; `None` if the
/// line does not consist of `b` and numbers.
fn closed_line(
    alloc: Global,
    line: &[u8],
    node: &Partial,
    number: u64,
) -> Result<Option<Duals>, ProofError>
    ensures { MatchResult result
        (λ found. MatchOption found
        ((zs : List ℤ) → IsNamed (codes "b") line.now zs → ⊥)
        (λ d. AreDuals (node.now.size - length node.now.facilities) d.u.items d.v.items × (line.now ≡ codes "b" ++ numbers_text (d.u.items ++ d.v.items))))
        (λ e. (e ≡ ProofError.OutOfMemory) ⊎ ((zs : List ℤ) × IsNamed (codes "b") line.now zs × IsDualsFault (node.now.size - length node.now.facilities) number zs e)) }
{
    let free = node.size() - node.depth();
    let mut first = Vec::new(alloc);
    let Some(numbers) = read_numbers(b"b", line, 2 * free, &mut first)? else {
        return Ok(None);
    };
    if numbers.count != 2 * free {
        return Err(ProofError::DualCount(number));
    }
    if !numbers.limited {
        return Err(ProofError::DualRange(number));
    }
    let v = first.split_off(free)?;
    Ok(Some(Duals { u: first, v }))
}

/// How the line of a split on this side begins.
pub(crate) fn letter(side: Side) -> &'static [u8]
    ensures { result.now ≡ letter_of side }
{
    match side {
        Side::Facility => b"s",
        Side::Location => b"t",
    }
}

/// A split on this side, whose line has a facility or a location, counted from 1, and then nothing more or duals;
/// `None` if the line does not consist of that letter, one of the facilities or locations, and numbers.
fn split_line(
    alloc: Global,
    line: &[u8],
    side: Side,
    node: &Partial,
    number: u64,
) -> Result<Option<SplitLine>, ProofError>
    ensures { MatchResult result
        (λ found. MatchOption found
        ((i : ℕ) (zs : List ℤ) → i < node.now.size → IsNamed (letter_of side) line.now (pos (i + 1) ∷ zs) → ⊥)
        (λ s. (s.side ≡ side) × IsSplit node.now (split_of s) × (line.now ≡ letter_of side ++ numbers_text (split_numbers (split_of s)))))
        (λ e. (e ≡ ProofError.OutOfMemory) ⊎ ((i : ℕ) × (zs : List ℤ) × (i < node.now.size) × IsNamed (letter_of side) line.now (pos (i + 1) ∷ zs)
        × IsSayingFault node.now 0 true number (splits side i zs) e)) }
{
    let free = node.size() - node.depth();
    let mut first = Vec::new(alloc);
    let Some(numbers) = read_numbers(letter(side), line, 1 + 2 * free, &mut first)? else {
        return Ok(None);
    };
    let Some(split) = first_from_one(&first, node.size()) else {
        return Ok(None);
    };
    judge_number(node, side, split, number)?;
    if numbers.count == 1 {
        return Ok(Some(SplitLine {
            side,
            number: split,
            duals: None,
        }));
    }
    judge_count(numbers, 1 + 2 * free, number)?;
    let mut u = first.split_off(1)?;
    let v = u.split_off(free)?;
    Ok(Some(SplitLine {
        side,
        number: split,
        duals: Some(Duals { u, v }.kept()),
    }))
}

/// The first of some numbers, which must be one of `count` that are counted from 1; it is returned as counted from 0.
fn first_from_one(numbers: &[i128], count: usize) -> Option<u16>
    requires { count ≤ 256 }
    ensures { MatchOption result
        ((k : ℕ) → k < count → 0 < length numbers.now → slice_index_or numbers.now 0 (pos 0) ≢ pos (k + 1))
        (λ k. (k < count) × (0 < length numbers.now) × (slice_index_or numbers.now 0 (pos 0) ≡ pos (k + 1))) }
{
    match numbers.first() {
        Some(number) => from_one(*number, count),
        None => None,
    }
}

/// All numbers but the first.
fn others(numbers: &[i128]) -> &[i128]
    requires { 0 < length numbers.now }
    ensures { result.now ≡ drop 1 numbers.now }
{
    &numbers[1..]
}

/// Whether the count of numbers is right, and all are within -10^24 to 10^24.
fn judge_count(numbers: LineNumbers, wanted: usize, number: u64) -> Result<(), ProofError>
    ensures { MatchResult result
        (λ done. (numbers.count ≡ wanted) × (numbers.limited ≡ true))
        (λ e. ((e ≡ ProofError.DualCount number) × (numbers.count ≢ wanted)) ⊎ ((e ≡ ProofError.DualRange number) × (numbers.count ≡ wanted) × (numbers.limited ≢ true))) }
{
    if numbers.count != wanted {
        return Err(ProofError::DualCount(number));
    }
    if !numbers.limited {
        return Err(ProofError::DualRange(number));
    }
    Ok(())
}

/// Whether a split may be on this facility or this location.
pub(crate) fn judge_number(
    node: &Partial,
    side: Side,
    number: u16,
    line: u64,
) -> Result<(), ProofError>
    ensures { MatchResult result
        (λ done. (length node.now.facilities < node.now.size) × IsFreeOn side node.now number)
        (λ e. IsNumberFault node.now line side number e) }
{
    if node.depth() >= node.size() {
        return Err(ProofError::SplitTooDeep(line));
    }
    match side {
        Side::Facility if usize::from(number) >= node.size() || node.is_placed(number) => {
            Err(ProofError::FacilityTaken(line))
        }
        Side::Location if !node.is_free(number) => Err(ProofError::LocationTaken(line)),
        _ => Ok(()),
    }
}

/// The earlier child and the permutation of a symmetric child's line: `m` and n + 1 numbers, counted from 1; `None` if
/// the line has another form.
fn mirrored_line(
    alloc: Global,
    line: &[u8],
    node: &Partial,
    earlier: usize,
    number: u64,
) -> Result<Option<(u16, Perm)>, ProofError>
    requires { earlier ≤ 256 }
    ensures { MatchResult result
        (λ found. MatchOption found
        ((z : ℤ) (zs : List ℤ) → length zs ≡ node.now.size → IsNamed (codes "m") line.now (z ∷ zs) → ⊥)
        (λ m. (m.0 < earlier) × IsPermOf node.now.size m.1 × (line.now ≡ codes "m" ++ numbers_text (pos (m.0 + 1) ∷ counted_from_one m.1))))
        (λ e. (e ≡ ProofError.OutOfMemory) ⊎ IsMirrorFault node.now.size earlier number line.now e) }
{
    let mut first = Vec::new(alloc);
    let Some(numbers) = read_numbers(b"m", line, 1 + node.size(), &mut first)? else {
        return Ok(None);
    };
    if numbers.count != 1 + node.size() {
        return Ok(None);
    }
    let Some(child) = first_from_one(&first, earlier) else {
        return Err(ProofError::NoEarlierChild(number));
    };
    match permutation_from_one(alloc, others(&first))? {
        Some(image) => Ok(Some((child, image))),
        None => Err(ProofError::PermBad(number)),
    }
}
