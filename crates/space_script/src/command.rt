//! The commands of a script.

ghost use Rattle.std.specs.Prelude.{◌≡◌, List, map, IfOk, MatchOption};
ghost use Rattle.space_script.specs.Command.{Follows, IsCommand};
ghost use Rattle.space_script.specs.declared.command.Command.{Command as CommandValue};

use crate::arguments::{Question, read_numbered, read_offer, read_question, read_renewal};
use crate::verb::{Verb, read_verb};
use std::alloc::{AllocError, Global};
use tuple_match::{Template, Tuple};
use tuple_space::Lease;

/// The command in a line of a script.
#[derive(Debug, Drop)]
pub enum Command {
    /// Write a tuple, under a transaction or under none.
    Out {
        under: Option<u64>,
        lease: Lease,
        tuple: Tuple,
    },
    /// Take a tuple matching the template.
    Inp {
        under: Option<u64>,
        template: Template,
    },
    /// Read a tuple matching the template.
    Rdp {
        under: Option<u64>,
        template: Template,
    },
    /// Begin a transaction that lives for this many milliseconds.
    Begin {
        milliseconds: u64,
    },
    /// Let a transaction live for this many milliseconds from now on.
    Renew {
        transaction: u64,
        milliseconds: u64,
    },
    /// Commit a transaction.
    Commit {
        transaction: u64,
    },
    /// Abort a transaction.
    Abort {
        transaction: u64,
    },
    /// Let the moment be this one, in milliseconds.
    Advance {
        moment: u64,
    },
}

/// The command that these words spell; `None` if they spell none.
pub(crate) fn read_command(alloc: Global, words: &[&[u8]]) -> Result<Option<Command>, AllocError>
    ensures { IfOk result (λ found. MatchOption found
        ((command : CommandValue) → IsCommand (map (λ word. word.now) words.now) command → ⊥)
        (IsCommand (map (λ word. word.now) words.now))) }
{
    let Some((first, rest)) = words.split_first() else {
        return Ok(None);
    };
    match read_verb(first) {
        Some(verb) => read_rest(alloc, verb, rest),
        None => Ok(None),
    }
}

/// The command of a verb and the words after it.
fn read_rest(alloc: Global, verb: Verb, words: &[&[u8]]) -> Result<Option<Command>, AllocError>
    ensures { IfOk result (λ found. MatchOption found
        ((command : CommandValue) → Follows verb (map (λ word. word.now) words.now) command → ⊥)
        (Follows verb (map (λ word. word.now) words.now))) }
{
    match verb {
        Verb::Out => read_offer(alloc, words),
        Verb::Inp => match read_question(alloc, words)? {
            Some(Question { under, template }) => Ok(Some(Command::Inp { under, template })),
            None => Ok(None),
        },
        Verb::Rdp => match read_question(alloc, words)? {
            Some(Question { under, template }) => Ok(Some(Command::Rdp { under, template })),
            None => Ok(None),
        },
        Verb::Renew => Ok(read_renewal(words)),
        Verb::Begin | Verb::Commit | Verb::Abort | Verb::Advance => Ok(read_numbered(verb, words)),
    }
}
