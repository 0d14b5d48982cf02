//! What a transaction's lookup finds, and the mark that it leaves.

ghost use Rattle.std.specs.Prelude.{◌≡◌, ◌==◌, is_some, find, true, Contains, IfOk, OnErr, OnOk, MatchOption};
ghost use Rattle.tuple_space.specs.Lease.{is_permanent};
ghost use Rattle.tuple_space.specs.declared.entry.Entry.{Entry};
ghost use Rattle.tuple_space.specs.Rows.{changed};
ghost use Rattle.tuple_space.specs.Space.{IsSpace, held_by, with_entries};
ghost use Rattle.tuple_space.specs.Writes.{taken_at};
ghost use Rattle.space_txn.specs.Marks.{IsNewMark, marks_of, new_mark};
ghost use Rattle.space_txn.specs.Machine.{IsOwnFound, NoOpenWrite, own_place};

use crate::mark::{Mark, put_mark, take_mark};
use crate::marks::Marks;
use crate::txn::{Found, open_write};
use std::alloc::AllocError;
use tuple_match::Template;
use tuple_space::{Entry, EntryId, Space, Writes};

/// The mark that a transaction puts on an entry.
pub(crate) fn mark_for(entry: &Entry, taken: bool) -> Result<Mark, AllocError>
    ensures { IfOk result (λ mark. mark ≡ new_mark entry.now taken) }
{
    let tuple = entry.tuple.copy()?;
    Ok(Mark {
        entry: entry.number,
        tuple,
        taken,
        permanent: entry.end.is_permanent(),
    })
}

/// Puts a transaction's mark on an entry, in the space and in the transaction's own list, or in neither.
pub(crate) fn put_mark_on(
    space: &mut Space,
    marks: &mut Marks,
    holder: u64,
    id: EntryId,
    mark: Mark,
) -> Result<(), AllocError>
    requires valid { IsSpace space.old }
    requires own { marks.old.items ≡ marks_of holder space.old.entries }
    requires new { IsNewMark space.old.entries mark }
    requires id { id ≡ mark.entry }
    ensures space { OnOk result (space.new ≡ with_entries space.old (changed mark.entry (held_by holder mark.taken) space.old.entries)) }
    ensures marks { OnOk result (marks.new.items ≡ marks_of holder space.new.entries) }
    ensures space_err { OnErr result (space.new ≡ space.old) }
    ensures marks_err { OnErr result (marks.new.items ≡ marks.old.items) }
{
    marks.reserve()?;
    space.pin(id, holder, mark.taken)?;
    put_mark(marks, mark);
    Ok(())
}

/// Takes an entry that a transaction has read: its mark is changed where it is. Allocates nothing.
pub(crate) fn take_marked(
    space: &mut Space,
    marks: &mut Marks,
    holder: u64,
    id: EntryId,
    permanent: bool,
)
    requires valid { IsSpace space.old }
    requires own { marks.old.items ≡ marks_of holder space.old.entries }
    requires entry { (e : Entry) × Contains space.old.entries e × (id ≡ e.number) × (permanent ≡ is_permanent e.end) }
    requires marked { is_some (find (λ m. m.entry == id) marks.old.items) ≡ true }
    ensures space { space.new ≡ with_entries space.old (changed id (held_by holder true) space.old.entries) }
    ensures marks { marks.new.items ≡ marks_of holder space.new.entries }
{
    space.pin(id, holder, true).unwrap();
    take_mark(marks, id.number(), permanent);
}

/// Takes again a write matching the template.
pub(crate) fn take_own(writes: &mut Writes, template: &Template) -> Option<Found>
    ensures { MatchOption result
        (NoOpenWrite template.now writes.old × (writes.new ≡ writes.old))
        (λ what. IsOwnFound template.now writes.old what × (writes.new ≡ taken_at (own_place what) writes.old)) }
{
    let place = open_write(writes, template)?;
    writes.take(place);
    Some(Found::Own(place))
}

/// Finds a write matching the template.
pub(crate) fn find_own(writes: &Writes, template: &Template) -> Option<Found>
    ensures { MatchOption result (NoOpenWrite template.now writes.now) (IsOwnFound template.now writes.now) }
{
    let place = open_write(writes, template)?;
    Some(Found::Own(place))
}
