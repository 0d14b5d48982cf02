//! The holders of an entry.

ghost use Rattle.std.specs.Prelude.{◌≡◌, ◌≢◌, ◌<◌, ◌≤◌, ◌==◌, ◌&&◌, [], true, not, length, MatchOption, OnOk, OnErr, IsOk};
ghost use Rattle.std.specs.List.{list_any, list_all, find, AllWithin, HoldsAt};
ghost use Rattle.std.specs.Option.{option_copied};
ghost use Rattle.tuple_space.specs.Holds.{holds_with, holds_without};

use smallvec::SmallVec;
use std::alloc::{AllocError, Global};
use std::marker::Model;

/// One holder's hold of an entry.
#[derive(Clone, Copy, Debug, Default, PartialEq, Eq)]
pub struct Hold {
    /// The number of the holder.
    pub by: u64,
    /// Whether the holder took the entry; else it read it.
    pub taken: bool,
    /// Whether the entry was permanent when it was marked so.
    pub permanent: bool,
}

/// The holds of one entry, the first of which allocates nothing: most entries that are held have one holder.
#[derive(Debug, Drop)]
pub struct Holds {
    rows: SmallVec<Hold, 1>,
}

impl Model for Holds {
    ghost use Rattle.std.specs.Prelude.{◌≤◌, List};
    ghost use Rattle.tuple_space.specs.declared.hold.Hold.{Hold};

    ghost Value = { List Hold };

    ghost view = { λ h. h.rows.items };

    ghost invariant = { λ h. 1 ≤ h.rows.capacity };
}

impl Holds {
    /// No holds. Allocates nothing.
    pub fn new(alloc: Global) -> Holds
        ensures { result ≡ [] }
    {
        Holds {
            rows: SmallVec::new(alloc),
        }
    }

    /// Whether somebody holds the entry.
    pub fn is_held(&self) -> bool
        ensures { result ≡ list_any (λ (h : Hold). true) self.now }
    {
        is_any(&self.rows)
    }

    /// Whether somebody took the entry.
    pub fn is_taken(&self) -> bool
        ensures { result ≡ list_any (λ h. h.taken) self.now }
    {
        is_any_taken(&self.rows)
    }

    /// Whether this holder holds the entry.
    pub fn is_held_by(&self, holder: u64) -> bool
        ensures { result ≡ list_any (λ h. h.by == holder) self.now }
    {
        is_any_by(&self.rows, holder)
    }

    /// Whether somebody else holds the entry.
    pub fn is_held_besides(&self, holder: u64) -> bool
        ensures { result ≡ list_any (λ h. not (h.by == holder)) self.now }
    {
        is_any_besides(&self.rows, holder)
    }

    /// Whether this holder took the entry.
    pub fn is_taken_by(&self, holder: u64) -> bool
        ensures { result ≡ list_any (λ h. (h.by == holder) && h.taken) self.now }
    {
        is_any_taken_by(&self.rows, holder)
    }

    /// Whether nobody but this holder holds the entry.
    pub fn are_all_by(&self, holder: u64) -> bool
        ensures { result ≡ list_all (λ h. h.by == holder) self.now }
    {
        are_all_by(&self.rows, holder)
    }

    /// The hold of a holder.
    pub fn hold_of(&self, holder: u64) -> Option<&Hold>
        ensures { option_copied result ≡ find (λ h. h.by == holder) self.now }
    {
        find_by(&self.rows, holder)
    }

    /// The holds, in the order in which the holders came.
    pub fn as_slice(&self) -> &[Hold]
        ensures { result.now ≡ self.now }
    {
        &self.rows
    }

    /// Adds a hold in place of its holder's older one, or after all others. It allocates nothing if it replaces an
    /// older one, or if nobody holds the entry.
    pub fn put(&mut self, hold: Hold) -> Result<(), AllocError>
        ensures ok { OnOk result (self.new ≡ holds_with hold self.old) }
        ensures err { OnErr result (self.new ≡ self.old) }
        ensures ready { list_any (λ h. h.by == hold.by) self.old ≡ true → IsOk result }
        ensures first { self.old ≡ [] → IsOk result }
    {
        put_hold(&mut self.rows, hold)
    }

    /// Ends the holds of a holder.
    pub fn release(&mut self, holder: u64)
        ensures { self.new ≡ holds_without holder self.old }
    {
        drop_by(&mut self.rows, holder);
    }
}

fn is_any(rows: &[Hold]) -> bool
    ensures { result ≡ list_any (λ (h : Hold). true) rows.now }
{
    !rows.is_empty()
}

fn is_any_taken(rows: &[Hold]) -> bool
    ensures { result ≡ list_any (λ h. h.taken) rows.now }
{
    rows.iter().any(|hold| hold.taken)
}

fn is_any_by(rows: &[Hold], holder: u64) -> bool
    ensures { result ≡ list_any (λ h. h.by == holder) rows.now }
{
    rows.iter().any(|hold| hold.by == holder)
}

fn is_any_besides(rows: &[Hold], holder: u64) -> bool
    ensures { result ≡ list_any (λ h. not (h.by == holder)) rows.now }
{
    rows.iter().any(|hold| hold.by != holder)
}

fn is_any_taken_by(rows: &[Hold], holder: u64) -> bool
    ensures { result ≡ list_any (λ h. (h.by == holder) && h.taken) rows.now }
{
    rows.iter().any(|hold| hold.by == holder && hold.taken)
}

fn are_all_by(rows: &[Hold], holder: u64) -> bool
    ensures { result ≡ list_all (λ h. h.by == holder) rows.now }
{
    rows.iter().all(|hold| hold.by == holder)
}

fn find_by(rows: &[Hold], holder: u64) -> Option<&Hold>
    ensures { option_copied result ≡ find (λ h. h.by == holder) rows.now }
{
    rows.iter().find(|hold| hold.by == holder)
}

fn place_by(rows: &[Hold], holder: u64) -> Option<usize>
    ensures { MatchOption result (AllWithin (λ h. h.by ≢ holder) rows.now 0 (length rows.now))
        (λ i. (i < length rows.now) × HoldsAt (λ h. h.by ≡ holder) rows.now i × AllWithin (λ h. h.by ≢ holder) rows.now 0 i) }
{
    rows.iter().position(|hold| hold.by == holder)
}

fn put_hold(rows: &mut SmallVec<Hold, 1>, hold: Hold) -> Result<(), AllocError>
    requires { 1 ≤ rows.old.capacity }
    ensures ok { OnOk result (rows.new.items ≡ holds_with hold rows.old.items) }
    ensures err { OnErr result (rows.new.items ≡ rows.old.items) }
    ensures ready { list_any (λ h. h.by == hold.by) rows.old.items ≡ true → IsOk result }
    ensures first { rows.old.items ≡ [] → IsOk result }
    ensures capacity { 1 ≤ rows.new.capacity }
{
    match place_by(rows, hold.by) {
        Some(place) => rows[place] = hold,
        None => rows.push(hold)?,
    }
    Ok(())
}

fn drop_by(rows: &mut SmallVec<Hold, 1>, holder: u64)
    ensures items { rows.new.items ≡ holds_without holder rows.old.items }
    ensures capacity { rows.new.capacity ≡ rows.old.capacity }
{
    rows.retain(
        |hold: &mut Hold| -> bool
            ensures { (result ≡ not (hold.old.by == holder)) × (hold.new ≡ hold.old) }
        { hold.by != holder },
    );
}
