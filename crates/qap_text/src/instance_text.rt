//! Texts of instances.

ghost use Rattle.std.specs.Prelude.{◌≡◌, ◌<◌, ◌≤◌, ◌⊎◌, List, length, ℕ, pos, MatchResult};
ghost use Rattle.qap_cost.specs.Instance.{InRange, Problem};
ghost use Rattle.qap_cost.specs.Row.{AllInRange};
ghost use Rattle.qap_text.specs.Spelling.{IsNumberAt, Spells};
ghost use Rattle.qap_text.specs.InstanceText.{IsInstanceText, IsInstanceFault, IsSizeFault, IsEntryFault, HasEntryFault};

use crate::TextError;
use crate::numeral::next_number;
use qap_cost::{Instance, MAX_ENTRY, MAX_SIZE};
use std::alloc::Global;

/// Reads an instance at the beginning of a text: its size `n`, the `n * n` entries of A by rows, and those of B.
///
/// White space and commas separate the numbers. What follows the last number is returned unchanged. The words are
/// checked in order, and the first fault is reported.
pub fn read_instance(alloc: Global, text: &[u8]) -> Result<(Instance, &[u8]), TextError>
    ensures { MatchResult result
        (λ r. IsInstanceText text.now r.0 r.1.now)
        (λ e. (e ≡ TextError.OutOfMemory) ⊎ IsInstanceFault text.now e) }
{
    let (n, stop) = read_size(text)?;
    let (a, stop) = read_entries(alloc, text, stop, n * n)?;
    let (b, stop) = read_entries(alloc, text, stop, n * n)?;
    match Instance::new(n, a, b) {
        Ok(instance) => Ok((instance, &text[stop..])),
        Err(_) => unreachable!(),
    }
}

/// The size, and the position after it.
fn read_size(text: &[u8]) -> Result<(usize, usize), TextError>
    ensures { MatchResult result
        (λ r. (0 < r.0) × (r.0 ≤ 256) × (start : ℕ) × IsNumberAt text.now 0 start r.1 (pos r.0))
        (IsSizeFault text.now) }
{
    let Some(numeral) = next_number(text, 0)? else {
        return Err(TextError::Empty);
    };
    if numeral.value <= 0 {
        return Err(TextError::SizeZero(numeral.start));
    }
    if numeral.value > MAX_SIZE as i128 {
        return Err(TextError::SizeTooLarge(numeral.start));
    }
    Ok((numeral.value as usize, numeral.stop))
}

/// The next entry from a position on, and the position after it.
fn read_entry(text: &[u8], from: usize) -> Result<(i64, usize), TextError>
    requires { from ≤ length text.now }
    ensures { MatchResult result
        (λ r. InRange r.0 × (start : ℕ) × IsNumberAt text.now from start r.1 r.0)
        (IsEntryFault text.now from) }
{
    let Some(numeral) = next_number(text, from)? else {
        return Err(TextError::CountDiffers);
    };
    if numeral.value.unsigned_abs() > u128::from(MAX_ENTRY) {
        return Err(TextError::EntryRange(numeral.start));
    }
    Ok((numeral.value as i64, numeral.stop))
}

/// This many entries from a position on, and the position after them.
fn read_entries(
    alloc: Global,
    text: &[u8],
    from: usize,
    wanted: usize,
) -> Result<(Vec<i64>, usize), TextError>
    requires { from ≤ length text.now }
    ensures { MatchResult result
        (λ r. Spells text.now from r.0.items r.1 × AllInRange r.0.items × (length r.0.items ≡ wanted) × (r.1 ≤ length text.now))
        (λ e. (e ≡ TextError.OutOfMemory) ⊎ HasEntryFault text.now from wanted e) }
{
    let mut entries = Vec::with_capacity(alloc, wanted).map_err(|_| TextError::OutOfMemory)?;
    let mut stop = from;
    for _ in 0..wanted {
        let (entry, next) = read_entry(text, stop)?;
        entries.push(entry).map_err(|_| TextError::OutOfMemory)?;
        stop = next;
    }
    Ok((entries, stop))
}

/// A text is that of one instance with one rest at most, a text of an instance has no fault, and there is only one first
/// fault.
pub fn instance_text_law()
    ensures one { (text : List ℕ) (I J : Problem) (r s : List ℕ) → IsInstanceText text I r → IsInstanceText text J s → (I ≡ J) × (r ≡ s) }
    ensures faultless { (text : List ℕ) (I : Problem) (r : List ℕ) (e : TextError) → IsInstanceText text I r → IsInstanceFault text e → ⊥ }
    ensures one_fault { (text : List ℕ) (e f : TextError) → IsInstanceFault text e → IsInstanceFault text f → e ≡ f }
{}
