//! The space on which the commands of a script are executed.

ghost use Rattle.std.specs.Prelude.{◌≡◌, IfOk};
ghost use Rattle.space_script.specs.Session.{IsSession, Performs, session_of, start};

use crate::carrying::{put_out, read, take};
use crate::command::Command;
use crate::keeping::{
    abort_kept, advance_kept, begin_kept, commit_kept, inp_kept, out_kept, rdp_kept, renew_kept,
};
use crate::kept::Kept;
use crate::reply::Reply;
use space_txn::TxnSpace;
use std::alloc::{AllocError, Global};
use std::marker::Model;

/// A space of tuples, and the transactions that a script has begun and that live.
#[derive(Debug, Drop)]
pub(crate) struct Session {
    space: TxnSpace,
    kept: Kept,
}

impl Model for Session {
    ghost use Rattle.space_script.specs.Session.{IsSession, SessionValue, session_of as the_session};

    ghost Value = { SessionValue };

    ghost view = { λ s. the_session s.space s.kept.items };

    ghost invariant = { λ s. IsSession (the_session s.space s.kept.items) };
}

impl Session {
    /// A space with no tuples and no transactions, at the moment 0. Allocates nothing.
    pub(crate) fn new(alloc: Global) -> Session
        ensures { result ≡ start }
    {
        Session {
            space: TxnSpace::new(alloc),
            kept: Kept::new(alloc),
        }
    }

    /// Executes a command, and returns the reply. The only error is out of memory, which ends a script: of what the
    /// session holds then no more is said than of every session.
    pub(crate) fn perform(&mut self, command: Command) -> Result<Reply, AllocError>
        ensures { IfOk result (λ reply. Performs self.old command reply self.new) }
    {
        carry_out(&mut self.space, &mut self.kept, command)
    }
}

/// Executes a command on a space, for the transactions that are kept.
fn carry_out(space: &mut TxnSpace, kept: &mut Kept, command: Command) -> Result<Reply, AllocError>
    requires { IsSession (session_of space.old kept.old.items) }
    ensures done { IfOk result (λ reply. Performs (session_of space.old kept.old.items) command reply (session_of space.new kept.new.items)) }
    ensures going { IsSession (session_of space.new kept.new.items) }
{
    match command {
        Command::Out {
            under: None,
            lease,
            tuple,
        } => put_out(space, tuple, lease),
        Command::Out {
            under: Some(number),
            lease,
            tuple,
        } => out_kept(space, kept, number, tuple, lease),
        Command::Inp {
            under: None,
            template,
        } => Ok(take(space, &template)),
        Command::Inp {
            under: Some(number),
            template,
        } => inp_kept(space, kept, number, &template),
        Command::Rdp {
            under: None,
            template,
        } => read(space, &template),
        Command::Rdp {
            under: Some(number),
            template,
        } => rdp_kept(space, kept, number, &template),
        Command::Begin { milliseconds } => begin_kept(space, kept, milliseconds),
        Command::Renew {
            transaction,
            milliseconds,
        } => renew_kept(space, kept, transaction, milliseconds),
        Command::Commit { transaction } => commit_kept(space, kept, transaction),
        Command::Abort { transaction } => abort_kept(space, kept, transaction),
        Command::Advance { moment } => Ok(advance_kept(space, kept, moment)),
    }
}
