//! The effect of the space's calls on the buckets.

ghost use Rattle.std.specs.Prelude.{ℕ, ◌≡◌, ◌+◌, ◌≤◌, ◌==◌, ◌&&◌, ◌||◌, true, not, IfOk, OnErr, OnOk};
ghost use Rattle.tuple_space.specs.Index.{AreOnce, AreOrdered, AreUpTo, Class, is_next, is_put, is_to_be, last_after};
ghost use Rattle.tuple_space.specs.Writes.{put_count};
ghost use Rattle.tuple_space.specs.Space.{most};

use crate::index::{Bucket, add_entry, drop_entry};
use crate::write::{Write, Writes};
use std::alloc::AllocError;

/// Puts the number that a write is to have into its bucket, and returns the number that is then the last.
fn add_write(buckets: &mut Vec<Bucket>, write: &Write, last: u64) -> Result<u64, AllocError>
    requires few { last ≤ most }
    requires ordered { AreUpTo last buckets.old.items }
    ensures number { IfOk result (λ number. number ≡ last_after last write.now) }
    ensures put { OnOk result ((class : Class) (n : ℕ) → is_put class n buckets.new.items ≡ (is_put class n buckets.old.items || is_next class n last write.now)) }
    ensures err { OnErr result ((class : Class) (n : ℕ) → is_put class n buckets.new.items ≡ is_put class n buckets.old.items) }
    ensures ordered { AreUpTo (last_after last write.now) buckets.new.items }
    ensures once { AreOnce buckets.old.items → AreOnce buckets.new.items }
{
    if write.taken {
        return Ok(last);
    }
    let number = last + 1;
    add_entry(buckets, &write.tuple, number)?;
    Ok(number)
}

/// Puts the numbers that writes are to have into their buckets. If memory runs out, some may be there.
pub(crate) fn add_writes(
    buckets: &mut Vec<Bucket>,
    writes: &Writes,
    last: u64,
) -> Result<(), AllocError>
    requires few { last + put_count writes.now ≤ most }
    requires ordered { AreUpTo last buckets.old.items }
    ensures put { OnOk result ((class : Class) (n : ℕ) → is_put class n buckets.new.items ≡ (is_put class n buckets.old.items || is_to_be class n last writes.now)) }
    ensures err { OnErr result ((class : Class) (n : ℕ) →
        (is_put class n buckets.new.items || is_to_be class n last writes.now) ≡ (is_put class n buckets.old.items || is_to_be class n last writes.now)) }
    ensures ordered { AreOrdered buckets.new.items }
    ensures once { AreOnce buckets.old.items → AreOnce buckets.new.items }
{
    let mut number = last;
    for place in 0..writes.len() {
        number = add_write(buckets, writes.at(place), number)?;
    }
    Ok(())
}

/// Takes the number that a write was to have out of its bucket, and returns the number that is then the last.
fn drop_write(buckets: &mut Vec<Bucket>, write: &Write, last: u64) -> u64
    requires few { last ≤ most }
    requires ordered { AreOrdered buckets.old.items }
    ensures number { result ≡ last_after last write.now }
    ensures dropped { (class : Class) (n : ℕ) → is_put class n buckets.new.items ≡ (is_put class n buckets.old.items && not (is_next class n last write.now)) }
    ensures ordered { AreOrdered buckets.new.items }
    ensures once { AreOnce buckets.old.items → AreOnce buckets.new.items }
{
    if write.taken {
        return last;
    }
    let number = last + 1;
    drop_entry(buckets, &write.tuple, number);
    number
}

/// Takes the numbers that writes were to have out of their buckets.
pub(crate) fn drop_writes(buckets: &mut Vec<Bucket>, writes: &Writes, last: u64)
    requires few { last + put_count writes.now ≤ most }
    requires ordered { AreOrdered buckets.old.items }
    ensures dropped { (class : Class) (n : ℕ) → is_put class n buckets.new.items ≡ (is_put class n buckets.old.items && not (is_to_be class n last writes.now)) }
    ensures ordered { AreOrdered buckets.new.items }
    ensures once { AreOnce buckets.old.items → AreOnce buckets.new.items }
{
    let mut number = last;
    for place in 0..writes.len() {
        number = drop_write(buckets, writes.at(place), number);
    }
}
