//! Writes tuples into a transaction that are permanent once it commits.

ghost use Rattle.std.specs.Prelude.{◌≡◌, ◌++◌, IfErr, OnOk, length};
ghost use Rattle.space_txn.specs.Content.{SameItems, added_of};
ghost use Rattle.qap_search.specs.Worker.Putting.{WritesForever};

use space_txn::{Txn, TxnError};
use std::alloc::AllocError;
use tuple_match::Tuple;
use tuple_space::{Lease, Writes};

/// Writes the tuples under the transaction, in order, each permanently. The only error is out of memory; some of them
/// may then have been written.
pub fn put_forever(txn: &mut Txn, tuples: Vec<Tuple>) -> Result<(), TxnError>
    ensures number { txn.new.number ≡ txn.old.number }
    ensures marks { txn.new.marks ≡ txn.old.marks }
    ensures written { OnOk result (SameItems (added_of txn.new.writes) (added_of txn.old.writes ++ tuples.items)) }
    ensures kind { IfErr result (λ e. e ≡ TxnError.OutOfMemory) }
{
    let mut rest = turned_round(tuples);
    while let Some(tuple) = rest.pop() {
        put_one(txn, tuple)?;
    }
    Ok(())
}

/// Adds writes of the tuples, in order, each permanently. At an error some of them may have been added.
pub(crate) fn push_forever(writes: &mut Writes, tuples: Vec<Tuple>) -> Result<(), AllocError>
    ensures { OnOk result (SameItems (added_of writes.new) (added_of writes.old ++ tuples.items)) }
{
    let mut rest = turned_round(tuples);
    while let Some(tuple) = rest.pop() {
        push_one(writes, tuple)?;
    }
    Ok(())
}

/// Adds a write of one tuple, permanently.
fn push_one(writes: &mut Writes, tuple: Tuple) -> Result<(), AllocError>
    ensures { OnOk result (WritesForever tuple writes.old writes.new) }
{
    match writes.push(tuple, Lease::Forever) {
        Ok(()) => Ok(()),
        Err((error, _)) => Err(error),
    }
}

/// Writes one tuple under the transaction, permanently.
fn put_one(txn: &mut Txn, tuple: Tuple) -> Result<(), TxnError>
    ensures number { txn.new.number ≡ txn.old.number }
    ensures marks { txn.new.marks ≡ txn.old.marks }
    ensures written { OnOk result (WritesForever tuple txn.old.writes txn.new.writes) }
    ensures kind { IfErr result (λ e. e ≡ TxnError.OutOfMemory) }
{
    match txn.out_in(tuple, Lease::Forever) {
        Ok(()) => Ok(()),
        Err((error, _)) => Err(error),
    }
}

/// The items, the last one first.
pub(crate) fn turned_round<T>(mut items: Vec<T>) -> Vec<T>
    ensures same { SameItems result.items items.items }
    ensures count { length result.items ≡ length items.items }
{
    items.reverse();
    items
}
