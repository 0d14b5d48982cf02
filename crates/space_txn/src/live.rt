//! The live transactions.

ghost use Rattle.std.specs.Prelude.{◌≡◌, nat_lt, if◌then◌else◌};
ghost use Rattle.space_txn.specs.Live.{abort_each, ended_at, renewed_row, unmarked};

use tuple_space::Space;

/// A transaction that was begun and has not ended.
#[derive(Clone, Copy, Debug, PartialEq, Eq)]
pub struct Live {
    /// Its number.
    pub number: u64,
    /// When its lease ends.
    pub end: u64,
}

/// A transaction with its end moved to another one, where it has the number and that is later.
pub(crate) fn renewed_row(row: Live, number: u64, end: u64) -> Live
    ensures { result ≡ renewed_row number end row }
{
    if row.number != number {
        return row;
    }
    Live {
        number,
        end: row.end.max(end),
    }
}

/// Ends a transaction where its lease has ended.
fn abort_if_ended(space: &mut Space, row: Live, moment: u64)
    ensures { space.new ≡ (if nat_lt moment row.end then space.old else unmarked row.number space.old) }
{
    if moment < row.end {
        return;
    }
    space.unpin(row.number);
}

/// Ends the transactions whose lease has ended.
pub(crate) fn abort_ended(space: &mut Space, live: &[Live], moment: u64)
    ensures { space.new ≡ abort_each (ended_at moment live.now) space.old }
{
    for row in live {
        abort_if_ended(space, *row, moment);
    }
}
