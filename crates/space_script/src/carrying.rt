//! Executes commands outside all transactions, and formats the space's answers.

ghost use Rattle.std.specs.Prelude.{◌≡◌, IfOk, IfSome};
ghost use Rattle.space_txn.specs.Finding.{Shows};
ghost use Rattle.tuple_space.specs.Step as space;
ghost use Rattle.space_txn.specs.Machine.{find_answer};
ghost use Rattle.space_script.specs.Session.{IsRefusedReply, KeepsGoing, Outside, Tells, TellsAnswer};

use crate::reply::Reply;
use space_txn::{Found, Txn, TxnError, TxnSpace};
use std::alloc::AllocError;
use tuple_match::{Template, Tuple};
use tuple_space::{EntryId, Lease, SpaceError};

/// Writes a tuple, outside all transactions.
pub(crate) fn put_out(world: &mut TxnSpace, tuple: Tuple, lease: Lease) -> Result<Reply, AllocError>
    ensures done { IfOk result (λ reply. Outside world.old (space.out tuple lease) reply world.new) }
    ensures going { KeepsGoing world.old world.new }
{
    let answered = world.out(tuple, lease);
    told_put(answered)
}

fn told_put(answered: Result<EntryId, (SpaceError, Tuple)>) -> Result<Reply, AllocError>
    ensures { IfOk result (λ reply. Tells (space.out_reply answered) reply) }
{
    match answered {
        Ok(_) => Ok(Reply::Done),
        Err((SpaceError::Exhausted, _)) => Ok(Reply::Refused(33)),
        Err((SpaceError::NotThere | SpaceError::OutOfMemory, _)) => Err(AllocError),
    }
}

/// Takes a tuple, outside all transactions.
pub(crate) fn take(world: &mut TxnSpace, template: &Template) -> Reply
    ensures done { Outside world.old (space.inp template.now) result world.new }
    ensures going { KeepsGoing world.old world.new }
{
    let answered = world.inp(template);
    told_taken(answered)
}

fn told_taken(answered: Option<(EntryId, Tuple)>) -> Reply
    ensures { Tells (space.inp_reply answered) result }
{
    match answered {
        Some((_, tuple)) => Reply::Got(tuple),
        None => Reply::Nothing,
    }
}

/// Copies a tuple, outside all transactions.
pub(crate) fn read(world: &TxnSpace, template: &Template) -> Result<Reply, AllocError>
    ensures { IfOk result (λ reply. Outside world.now (space.rdp template.now) reply world.now) }
{
    let answered = world.rdp(template);
    told_read(answered)
}

fn told_read(answered: Result<Option<(EntryId, Tuple)>, SpaceError>) -> Result<Reply, AllocError>
    ensures { IfOk result (λ reply. Tells (space.rdp_reply answered) reply) }
{
    match answered {
        Ok(Some((_, tuple))) => Ok(Reply::Got(tuple)),
        Ok(None) => Ok(Reply::Nothing),
        Err(_) => Err(AllocError),
    }
}

/// The reply to a search under a transaction.
pub(crate) fn told_found(
    txn: &Txn,
    template: &Template,
    answered: Result<Option<Found>, TxnError>,
) -> Result<Reply, AllocError>
    requires { IfOk answered (λ what. IfSome what (Shows template.now txn.now)) }
    ensures { IfOk result (λ reply. TellsAnswer txn.now (find_answer answered) reply) }
{
    match answered {
        Ok(Some(found)) => match txn.found(&found) {
            Some(tuple) => Ok(Reply::Got(tuple.copy()?)),
            None => unreachable!(),
        },
        Ok(None) => Ok(Reply::Nothing),
        Err(error) => told_refusal(error),
    }
}

/// A refusal by its number.
pub(crate) fn told_refusal(error: TxnError) -> Result<Reply, AllocError>
    ensures { IfOk result (λ reply. IsRefusedReply error reply) }
{
    match error {
        TxnError::Expired => Ok(Reply::Refused(31)),
        TxnError::Foreign => Ok(Reply::Refused(32)),
        TxnError::Exhausted => Ok(Reply::Refused(33)),
        TxnError::OutOfMemory => Err(AllocError),
    }
}
