//! The ends of the leases of entries.

ghost use Rattle.std.specs.Prelude.{ℕ, ◌≡◌, ◌≢◌, ◌<◌, ◌≤◌, ◌+◌, ◌++◌, [], All, IfNone, IfOk, IfSome, IsOk, IsPermutation, OnErr, OnOk, filter, true, if◌then◌else◌};
ghost use Rattle.tuple_space.specs.Ends.{AreWatched, IsTakenOut, IsWatched, KeepsEndings, Watches, count_come, ending};
ghost use Rattle.tuple_space.specs.Entry.{is_there};
ghost use Rattle.tuple_space.specs.Index.{AreIndexed, last_after};
ghost use Rattle.tuple_space.specs.Rows.{IsRising, has_number};
ghost use Rattle.tuple_space.specs.Space.{most, put};
ghost use Rattle.tuple_space.specs.Writes.{put_count, put_each};
ghost use Rattle.tuple_space.specs.declared.entry.Entry.{Entry};

use crate::admission::is_there;
use crate::entries::Entries;
use crate::index::Bucket;
use crate::lease::LeaseEnd;
use crate::rows::{has_number, take_number};
use crate::write::{Write, Writes};
use std::alloc::{AllocError, Global};
use std::cmp::Reverse;
use std::collections::BinaryHeap;
use std::marker::Model;

/// This many endings may be left over before any are dropped.
const FEW: usize = 64;

/// Moments at which leases end, each with the number of its entry: the earliest is taken out first. That of an entry
/// which left before stays until it has come, or until there are more than 64 endings and two for each place.
#[derive(Debug, Drop)]
pub(crate) struct Ends {
    heap: BinaryHeap<Reverse<(u64, u64)>>,
}

impl Model for Ends {
    ghost use Rattle.std.specs.Prelude.{◌-◌};
    ghost use Rattle.std.specs.BinaryHeap.{IsHeap, heap_capacity, heap_items, heap_len};
    ghost use Rattle.std.specs.Ordering.{nat_cmp, ordering_then};
    ghost use Rattle.tuple_space.specs.Ends.{EndsValue};

    ghost Value = { EndsValue };

    ghost view = { λ e. record { rows = heap_items e.heap; room = heap_capacity e.heap - heap_len e.heap } };

    ghost invariant = { λ e. IsHeap (λ x y. ordering_then (nat_cmp y.0.0 x.0.0) (nat_cmp y.0.1 x.0.1)) (heap_items e.heap) };
}

impl Ends {
    /// None. Allocates nothing.
    pub(crate) fn new(alloc: Global) -> Ends
        ensures { result.rows ≡ [] }
    {
        Ends {
            heap: BinaryHeap::new(alloc),
        }
    }

    /// Notes when the lease of an entry ends, where it does.
    pub(crate) fn note(&mut self, end: LeaseEnd, number: u64) -> Result<(), AllocError>
        ensures ok { OnOk result (IsPermutation (ending end number ++ self.old.rows) self.new.rows) }
        ensures err { OnErr result (self.new.rows ≡ self.old.rows) }
        ensures ready { 0 < self.old.room → IsOk result }
    {
        match end {
            LeaseEnd::Never => Ok(()),
            LeaseEnd::At(moment) => {
                self.heap.push(Reverse((moment, number)))?;
                Ok(())
            }
        }
    }

    /// Removes the earliest ending, if it is due at a moment, and returns the number of its entry.
    pub(crate) fn take_come(&mut self, moment: u64) -> Option<u64>
        ensures none { IfNone result (All (λ r. moment < r.0.0) self.new.rows) }
        ensures same { IfNone result (self.new.rows ≡ self.old.rows) }
        ensures some { IfSome result (λ number. IsTakenOut moment number self.old.rows self.new.rows) }
        ensures room { IfSome result (λ number. 0 < self.new.room) }
    {
        let Some(Reverse((end, _))) = self.heap.peek() else {
            return None;
        };
        if *end > moment {
            return None;
        }
        let Some(Reverse((_, number))) = self.heap.pop() else {
            unreachable!()
        };
        Some(number)
    }

    /// Drops the endings of entries that are gone, if there are many endings.
    pub(crate) fn drop_gone(&mut self, entries: &Entries)
        ensures { (e : Entry) → has_number e.number entries.now.items ≡ true → KeepsEndings self.old.rows self.new.rows e }
    {
        let few = entries
            .as_slice()
            .len()
            .saturating_mul(2)
            .saturating_add(FEW);
        if self.heap.len() > few {
            self.heap.retain(|row| has_number(entries, row.0.1));
        }
    }
}

/// Drops the entry of a number where it isn't there; where its lease is live still, its ending is noted again.
fn settle(
    entries: &mut Entries,
    buckets: &mut Vec<Bucket>,
    ends: &mut Ends,
    number: u64,
    moment: u64,
)
    requires rising { IsRising entries.old.items }
    requires indexed { AreIndexed buckets.old.items entries.old.items }
    requires room { 0 < ends.old.room }
    requires others { All (λ e. e.number ≢ number → IsWatched ends.old.rows moment e) entries.old.items }
    ensures rising { IsRising entries.new.items }
    ensures indexed { AreIndexed buckets.new.items entries.new.items }
    ensures watched { AreWatched ends.new.rows moment entries.new.items }
    ensures there { filter (is_there moment) entries.new.items ≡ filter (is_there moment) entries.old.items }
    ensures come { count_come moment ends.new.rows ≡ count_come moment ends.old.rows }
{
    let Some(entry) = entries.get(number) else {
        return;
    };
    if !is_there(entry, moment) {
        take_number(entries, buckets, number);
        return;
    }
    let end = entry.end;
    if end.is_live(moment) {
        ends.note(end, number).unwrap();
    }
}

/// Drops the entries that are gone at a moment. It visits only those whose ending is due, and allocates nothing.
pub(crate) fn drop_ended(
    entries: &mut Entries,
    buckets: &mut Vec<Bucket>,
    ends: &mut Ends,
    moment: u64,
)
    requires rising { IsRising entries.old.items }
    requires indexed { AreIndexed buckets.old.items entries.old.items }
    requires watched { AreWatched ends.old.rows moment entries.old.items }
    ensures there { entries.new.items ≡ filter (is_there moment) entries.old.items }
    ensures indexed { AreIndexed buckets.new.items entries.new.items }
    ensures watched { AreWatched ends.new.rows moment entries.new.items }
{
    while let Some(number) = ends.take_come(moment) {
        settle(entries, buckets, ends, number, moment);
    }
}

/// Notes when the lease of a write ends that is written after the number last given, and returns the number that is
/// then the last.
fn note_write(ends: &mut Ends, write: &Write, moment: u64, last: u64) -> Result<u64, AllocError>
    requires early { moment ≤ most }
    requires few { last ≤ most }
    ensures number { IfOk result (λ number. number ≡ last_after last write.now) }
    ensures kept { (e : Entry) → KeepsEndings ends.old.rows ends.new.rows e }
    ensures watched { OnOk result (Watches ends.old.rows ends.new.rows moment last (λ w. if write.now.taken then w else put w write.now.tuple write.now.lease)) }
{
    if write.taken {
        return Ok(last);
    }
    let number = last + 1;
    ends.note(write.lease.granted(moment), number)?;
    Ok(number)
}

/// Notes when the leases of writes end that are written after the number last given. If memory runs out, some may be
/// noted.
pub(crate) fn note_writes(
    ends: &mut Ends,
    writes: &Writes,
    moment: u64,
    last: u64,
) -> Result<(), AllocError>
    requires early { moment ≤ most }
    requires few { last + put_count writes.now ≤ most }
    ensures kept { (e : Entry) → KeepsEndings ends.old.rows ends.new.rows e }
    ensures watched { OnOk result (Watches ends.old.rows ends.new.rows moment last (λ w. put_each w writes.now)) }
{
    let mut number = last;
    for place in 0..writes.len() {
        number = note_write(ends, writes.at(place), moment, number)?;
    }
    Ok(())
}
