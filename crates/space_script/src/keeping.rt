//! Executes commands under a script's transactions, and begins and ends these.

ghost use Rattle.std.specs.Prelude.{◌≡◌, IfOk};
ghost use Rattle.space_txn.specs.Machine.{abort as abort_call, commit as commit_call, inp_in, rdp_in, renew_txn};
ghost use Rattle.space_script.specs.Session.{Advances, Begins, Calls, Ends, IsSession, Under, Writes, live_of, session_of};

use crate::carrying::{told_found, told_refusal};
use crate::kept::Kept;
use crate::reply::Reply;
use space_txn::{TxnError, TxnSpace};
use std::alloc::AllocError;
use tuple_match::{Template, Tuple};
use tuple_space::{Lease, SpaceError};

/// Writes a tuple under a kept transaction.
pub(crate) fn out_kept(
    world: &TxnSpace,
    kept: &mut Kept,
    number: u64,
    tuple: Tuple,
    lease: Lease,
) -> Result<Reply, AllocError>
    requires { IsSession (session_of world.now kept.old.items) }
    ensures done { IfOk result (λ reply. Under (session_of world.now kept.old.items) number (Writes tuple lease) reply (session_of world.now kept.new.items)) }
    ensures going { IsSession (session_of world.now kept.new.items) }
{
    let Some(place) = kept.place_of(number) else {
        return Ok(Reply::Refused(31));
    };
    kept.out_in(place, tuple, lease)?;
    Ok(Reply::Done)
}

/// Takes a tuple under a kept transaction.
pub(crate) fn inp_kept(
    world: &mut TxnSpace,
    kept: &mut Kept,
    number: u64,
    template: &Template,
) -> Result<Reply, AllocError>
    requires { IsSession (session_of world.old kept.old.items) }
    ensures done { IfOk result (λ reply. Under (session_of world.old kept.old.items) number (Calls (inp_in template.now)) reply (session_of world.new kept.new.items)) }
    ensures going { IsSession (session_of world.new kept.new.items) }
{
    let Some(place) = kept.place_of(number) else {
        return Ok(Reply::Refused(31));
    };
    let answered = kept.inp_in(world, place, template);
    told_found(kept.get(place), template, answered)
}

/// Copies a tuple under a kept transaction.
pub(crate) fn rdp_kept(
    world: &mut TxnSpace,
    kept: &mut Kept,
    number: u64,
    template: &Template,
) -> Result<Reply, AllocError>
    requires { IsSession (session_of world.old kept.old.items) }
    ensures done { IfOk result (λ reply. Under (session_of world.old kept.old.items) number (Calls (rdp_in template.now)) reply (session_of world.new kept.new.items)) }
    ensures going { IsSession (session_of world.new kept.new.items) }
{
    let Some(place) = kept.place_of(number) else {
        return Ok(Reply::Refused(31));
    };
    let answered = kept.rdp_in(world, place, template);
    told_found(kept.get(place), template, answered)
}

/// Renews the lease of a kept transaction.
pub(crate) fn renew_kept(
    world: &mut TxnSpace,
    kept: &Kept,
    number: u64,
    asked: u64,
) -> Result<Reply, AllocError>
    requires { IsSession (session_of world.old kept.now.items) }
    ensures done { IfOk result (λ reply. Under (session_of world.old kept.now.items) number (Calls (renew_txn asked)) reply (session_of world.new kept.now.items)) }
    ensures going { IsSession (session_of world.new kept.now.items) }
{
    let Some(place) = kept.place_of(number) else {
        return Ok(Reply::Refused(31));
    };
    match world.renew_txn(kept.get(place), asked) {
        Ok(()) => Ok(Reply::Done),
        Err(error) => told_refusal(error),
    }
}

/// Commits a kept transaction.
pub(crate) fn commit_kept(
    world: &mut TxnSpace,
    kept: &mut Kept,
    number: u64,
) -> Result<Reply, AllocError>
    requires { IsSession (session_of world.old kept.old.items) }
    ensures done { IfOk result (λ reply. Under (session_of world.old kept.old.items) number (Ends commit_call) reply (session_of world.new kept.new.items)) }
    ensures going { IsSession (session_of world.new kept.new.items) }
{
    let Some(place) = kept.place_of(number) else {
        return Ok(Reply::Refused(31));
    };
    match world.commit(kept.remove(place)) {
        Ok(()) => Ok(Reply::Done),
        Err((error, txn)) => {
            kept.put_back(txn)?;
            told_refusal(error)
        }
    }
}

/// Aborts a kept transaction.
pub(crate) fn abort_kept(
    world: &mut TxnSpace,
    kept: &mut Kept,
    number: u64,
) -> Result<Reply, AllocError>
    requires { IsSession (session_of world.old kept.old.items) }
    ensures done { IfOk result (λ reply. Under (session_of world.old kept.old.items) number (Ends abort_call) reply (session_of world.new kept.new.items)) }
    ensures going { IsSession (session_of world.new kept.new.items) }
{
    let Some(place) = kept.place_of(number) else {
        return Ok(Reply::Refused(31));
    };
    match world.abort(kept.remove(place)) {
        Ok(()) => Ok(Reply::Done),
        Err((error, txn)) => {
            kept.put_back(txn)?;
            told_refusal(error)
        }
    }
}

/// Begins a transaction, and keeps it where it is live.
pub(crate) fn begin_kept(
    world: &mut TxnSpace,
    kept: &mut Kept,
    asked: u64,
) -> Result<Reply, AllocError>
    requires { IsSession (session_of world.old kept.old.items) }
    ensures done { IfOk result (λ reply. Begins (session_of world.old kept.old.items) asked reply (session_of world.new kept.new.items)) }
    ensures going { IsSession (session_of world.new kept.new.items) }
{
    kept.make_room()?;
    match world.begin(asked) {
        Ok(txn) => {
            let number = txn.number();
            kept.push_live(world, txn);
            Ok(Reply::Begun(number))
        }
        Err(TxnError::Exhausted) => Ok(Reply::Refused(33)),
        Err(TxnError::OutOfMemory) => Err(AllocError),
        Err(TxnError::Expired | TxnError::Foreign) => unreachable!(),
    }
}

/// Advances the moment, and drops the transactions whose lease has ended.
pub(crate) fn advance_kept(world: &mut TxnSpace, kept: &mut Kept, moment: u64) -> Reply
    requires { IsSession (session_of world.old kept.old.items) }
    ensures done { Advances world.old moment result world.new }
    ensures live { kept.new.items ≡ live_of world.new kept.old.items }
    ensures going { IsSession (session_of world.new kept.new.items) }
{
    match world.advance(moment) {
        Ok(()) => {
            kept.keep_live(world);
            Reply::Done
        }
        Err(SpaceError::Exhausted) => Reply::Refused(33),
        Err(SpaceError::NotThere | SpaceError::OutOfMemory) => unreachable!(),
    }
}
