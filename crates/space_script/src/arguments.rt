//! The arguments of a command.

ghost use Rattle.std.specs.Prelude.{◌≡◌, ℕ, List, Option, map, codes, IfOk, MatchOption};
ghost use Rattle.tuple_match.specs.PatternValue.{PatternValue};
ghost use Rattle.space_script.specs.Command.{Follows, IsLeaseWord, IsOneCount, IsQuestion, IsUnder, TakesOneNumber};
ghost use Rattle.space_script.specs.Field.{AreTemplateWords};
ghost use Rattle.tuple_space.specs.declared.lease.Lease.{Lease as LeaseValue};
ghost use Rattle.space_script.specs.declared.command.Command.{Command as CommandValue};
ghost use Rattle.space_script.specs.declared.verb.Verb.TheVariants.{Out as OutVerb, Renew as RenewVerb};

use crate::command::Command;
use crate::fields::{read_template, read_tuple};
use crate::numbers::read_count;
use crate::verb::Verb;
use std::alloc::{AllocError, Global};
use tuple_match::Template;
use tuple_space::Lease;

/// The command that these words ask for after `out`: a transaction or none, a lease, and a tuple's fields.
pub(crate) fn read_offer(alloc: Global, words: &[&[u8]]) -> Result<Option<Command>, AllocError>
    ensures { IfOk result (λ found. MatchOption found
        ((command : CommandValue) → Follows OutVerb (map (λ word. word.now) words.now) command → ⊥)
        (Follows OutVerb (map (λ word. word.now) words.now))) }
{
    let Some((first, others)) = words.split_first() else {
        return Ok(None);
    };
    let Some((second, rest)) = others.split_first() else {
        return Ok(None);
    };
    let Some(under) = read_under(first) else {
        return Ok(None);
    };
    let Some(lease) = read_lease(second) else {
        return Ok(None);
    };
    match read_tuple(alloc, rest)? {
        Some(tuple) => Ok(Some(Command::Out {
            under,
            lease,
            tuple,
        })),
        None => Ok(None),
    }
}

/// A transaction or none, and a template.
#[derive(Drop)]
pub(crate) struct Question {
    pub(crate) under: Option<u64>,
    pub(crate) template: Template,
}

/// What these words ask for after `inp` and `rdp`.
pub(crate) fn read_question(alloc: Global, words: &[&[u8]]) -> Result<Option<Question>, AllocError>
    ensures { IfOk result (λ found. MatchOption found
        ((under : Option ℕ) (template : List PatternValue) → IsQuestion (map (λ word. word.now) words.now) under template → ⊥)
        (λ q. IsQuestion (map (λ word. word.now) words.now) q.under q.template)) }
{
    let Some((first, rest)) = words.split_first() else {
        return Ok(None);
    };
    let Some(under) = read_under(first) else {
        return Ok(None);
    };
    match read_template(alloc, rest)? {
        Some(template) => Ok(Some(Question { under, template })),
        None => Ok(None),
    }
}

/// The number that these words are, where they are one number.
fn read_one(words: &[&[u8]]) -> Option<u64>
    ensures { MatchOption result
        ((n : ℕ) → IsOneCount (map (λ word. word.now) words.now) n → ⊥)
        (IsOneCount (map (λ word. word.now) words.now)) }
{
    let (word, rest) = words.split_first()?;
    if rest.is_empty() {
        read_count(word)
    } else {
        None
    }
}

/// The command that these words ask for after a verb that takes one number.
pub(crate) fn read_numbered(verb: Verb, words: &[&[u8]]) -> Option<Command>
    requires { TakesOneNumber verb }
    ensures { MatchOption result
        ((command : CommandValue) → Follows verb (map (λ word. word.now) words.now) command → ⊥)
        (Follows verb (map (λ word. word.now) words.now)) }
{
    let Some(number) = read_one(words) else {
        return None;
    };
    match verb {
        Verb::Begin => Some(Command::Begin {
            milliseconds: number,
        }),
        Verb::Commit => Some(Command::Commit {
            transaction: number,
        }),
        Verb::Abort => Some(Command::Abort {
            transaction: number,
        }),
        Verb::Advance => Some(Command::Advance { moment: number }),
        Verb::Out | Verb::Inp | Verb::Rdp | Verb::Renew => None,
    }
}

/// The command that these words ask for after `renew`: a transaction's number, and how many milliseconds it is to live.
pub(crate) fn read_renewal(words: &[&[u8]]) -> Option<Command>
    ensures { MatchOption result
        ((command : CommandValue) → Follows RenewVerb (map (λ word. word.now) words.now) command → ⊥)
        (Follows RenewVerb (map (λ word. word.now) words.now)) }
{
    let Some((first, rest)) = words.split_first() else {
        return None;
    };
    let Some(transaction) = read_count(first) else {
        return None;
    };
    match read_one(rest) {
        Some(milliseconds) => Some(Command::Renew {
            transaction,
            milliseconds,
        }),
        None => None,
    }
}

/// A transaction's number, or none if the word is a dash.
fn read_under(word: &[u8]) -> Option<Option<u64>>
    ensures { MatchOption result ((under : Option ℕ) → IsUnder word.now under → ⊥) (IsUnder word.now) }
{
    if word == b"-".as_slice() {
        return Some(None);
    }
    match read_count(word) {
        Some(number) => Some(Some(number)),
        None => None,
    }
}

/// The lease that a word spells.
fn read_lease(word: &[u8]) -> Option<Lease>
    ensures { MatchOption result ((lease : LeaseValue) → IsLeaseWord word.now lease → ⊥) (IsLeaseWord word.now) }
{
    if word == b"forever".as_slice() {
        return Some(Lease::Forever);
    }
    match read_count(word) {
        Some(milliseconds) => Some(Lease::Ms(milliseconds)),
        None => None,
    }
}
