//! The line of a proof's root.

ghost use Rattle.std.specs.Prelude.{◌≡◌, ◌≢◌, ◌⊎◌, ◌+◌, ◌*◌, ◌<◌, ◌≤◌, ◌++◌, ℤ, List, codes, length, IfOk, MatchOption, MatchResult, ℕ};
ghost use Rattle.qap_cost.specs.Placement.{Placement};
ghost use Rattle.qap_lines.specs.Number.{IsNamed};
ghost use Rattle.qap_lines.specs.LineText.{line_text};
ghost use Rattle.qap_proof.specs.Claim.{IsRoot};
ghost use Rattle.qap_proof.specs.Head.{HasTurn, IsRooted};
ghost use Rattle.qap_proof.specs.Text.{by_turns};
ghost use Rattle.qap_proof.specs.TextFault.{HasNoRoot, HasRootLine, IsRootLineFault};

use crate::error::ProofError;
use crate::line_number::{LINE_BEHIND_ROOT, ROOT_LINE};
use qap_cost::Partial;
use qap_io::from_one;
use qap_lines::{first_line, read_numbers};
use std::alloc::{AllocError, Global};

/// The root, which may have a line, the number of the line after it, and the text from there on.
#[derive(Drop)]
pub(crate) struct Rooted<'a> {
    pub(crate) root: Partial,
    pub(crate) line: u64,
    pub(crate) rest: &'a [u8],
}

/// A root that is stated, and what follows its line.
#[derive(Drop)]
struct Stated<'a> {
    root: Partial,
    rest: &'a [u8],
}

/// Reads the line of the root of size `n`, if there is one: otherwise the root is empty.
pub(crate) fn read_root(alloc: Global, text: &[u8], n: usize) -> Result<Rooted<'_>, ProofError>
    requires positive { 0 < n }
    requires small { n ≤ 256 }
    ensures { MatchResult result
        (λ r. IsRooted n text.now r.root r.line r.rest.now)
        (λ e. (e ≡ ProofError.OutOfMemory) ⊎ IsRootLineFault n text.now e) }
{
    match stated_root(alloc, text, n)? {
        None => Ok(Rooted {
            root: Partial::root(alloc, n)?,
            line: ROOT_LINE,
            rest: text,
        }),
        Some(stated) => Ok(Rooted {
            root: stated.root,
            line: LINE_BEHIND_ROOT,
            rest: stated.rest,
        }),
    }
}

/// The root that the first line of a text states, if it states one.
fn stated_root(alloc: Global, text: &[u8], n: usize) -> Result<Option<Stated<'_>>, ProofError>
    requires positive { 0 < n }
    requires small { n ≤ 256 }
    ensures { MatchResult result
        (λ found. MatchOption found
        (HasNoRoot text.now)
        (λ s. HasRootLine n s.root × (text.now ≡ line_text (codes "node") (by_turns s.root.facilities s.root.places) ++ s.rest.now)))
        (λ e. (e ≡ ProofError.OutOfMemory) ⊎ IsRootLineFault n text.now e) }
{
    let Some(line) = first_line(text) else {
        return Ok(None);
    };
    match judge_root(alloc, line.bytes, n)? {
        Some(root) => Ok(Some(Stated {
            root,
            rest: line.rest,
        })),
        None => Ok(None),
    }
}

/// The root that a line states, if it is one of `node` and numbers.
pub(crate) fn judge_root(
    alloc: Global,
    line: &[u8],
    n: usize,
) -> Result<Option<Partial>, ProofError>
    requires positive { 0 < n }
    requires small { n ≤ 256 }
    ensures { MatchResult result
        (λ found. MatchOption found
        ((zs : List ℤ) → IsNamed (codes "node") line.now zs → ⊥)
        (λ x. HasRootLine n x × IsNamed (codes "node") line.now (by_turns x.facilities x.places)))
        (λ e. (e ≡ ProofError.OutOfMemory) ⊎ ((e ≡ ProofError.RootBad 5) × (zs : List ℤ) × IsNamed (codes "node") line.now zs
        × ((x : Placement) → HasRootLine n x → zs ≢ by_turns x.facilities x.places))) }
{
    let mut first = Vec::new(alloc);
    let Some(numbers) = read_numbers(b"node", line, 2 * n, &mut first)? else {
        return Ok(None);
    };
    if numbers.count > 2 * n {
        return Err(ProofError::RootBad(ROOT_LINE));
    }
    match root_from_one(alloc, &first, n)? {
        Some(root) => Ok(Some(root)),
        None => Err(ProofError::RootBad(ROOT_LINE)),
    }
}

/// The root that places facilities at locations as these numbers, counted from 1, give them alternately; `None` if they
/// give none that isn't empty, its facilities ascending.
fn root_from_one(alloc: Global, values: &[i128], n: usize) -> Result<Option<Partial>, AllocError>
    requires positive { 0 < n }
    requires small { n ≤ 256 }
    ensures { IfOk result (λ found. MatchOption found
        ((x : Placement) → HasRootLine n x → values.now ≢ by_turns x.facilities x.places)
        (λ x. HasRootLine n x × (values.now ≡ by_turns x.facilities x.places))) }
{
    if values.is_empty() || values.len() % 2 != 0 {
        return Ok(None);
    }
    let mut root = Partial::root(alloc, n)?;
    for turn in 0..values.len() / 2 {
        let Some((facility, location)) = next_pair(&root, values, turn) else {
            return Ok(None);
        };
        root.put(facility, location)?;
    }
    Ok(Some(root))
}

/// The facility and the location that this turn gives, if they may be placed then: the facility comes after those
/// placed, and the location is free.
fn next_pair(root: &Partial, values: &[i128], turn: usize) -> Option<(u16, u16)>
    requires inside { 2 * turn + 1 < length values.now }
    requires placed { length root.now.facilities ≡ turn }
    requires root { IsRoot root.now.size root.now }
    ensures { MatchOption result
        ((f k : ℕ) → HasTurn root.now values.now turn f k → ⊥)
        (λ p. HasTurn root.now values.now turn p.0 p.1) }
{
    let facility = from_one(values[2 * turn], root.size())?;
    let location = from_one(values[2 * turn + 1], root.size())?;
    let facilities = root.facilities();
    let is_behind = turn == 0 || facilities[turn - 1] < facility;
    if is_behind && root.is_free(location) {
        Some((facility, location))
    } else {
        None
    }
}
