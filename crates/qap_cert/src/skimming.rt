//! Checks only the syntax of a tree's lines, and stores nothing of them.

ghost use Rattle.std.specs.Prelude.{◌≡◌, ◌⊎◌, ◌+◌, ◌-◌, ◌*◌, ◌<◌, ◌≤◌, ◌++◌, ◌∷◌, [], length, reverse, vec_len, IfOk, OnOk, MatchResult};
ghost use Rattle.qap_cert.specs.Levels.{IsFaultAtLevels, LeadsBehind, levels_of, placed_outside};
ghost use Rattle.qap_cert.specs.Walk.{BeginsWithTrees, IsFaultBefore, Any};

use crate::error::CertError;
use crate::node_line::{Grammar, bound_numbers, node_line};
use crate::placed::Placed;
use std::alloc::AllocError;

/// The text behind some lines, and the number of its first line.
#[derive(Clone, Copy)]
pub(crate) struct Behind<'a> {
    pub(crate) rest: &'a [u8],
    pub(crate) next: u64,
}

/// What comes after the lines of this many trees at the beginning of a text, whose first line has this number, where
/// these facilities are placed. For each level of an unfinished tree, `left` holds the number of children left: with
/// room for the depth of the trees and one more, nothing is allocated.
pub(crate) fn skim_trees<'a>(
    left: &mut Vec<usize>,
    text: &'a [u8],
    grammar: Grammar,
    placed: &mut Placed,
    line: u64,
    count: usize,
) -> Result<Behind<'a>, CertError>
    requires small { grammar.size ≤ 256 }
    requires depth { length placed.old ≤ grammar.size }
    ensures { MatchResult result
        (λ r. BeginsWithTrees grammar.version grammar.size placed.old count line text.now r.rest.now r.next Any)
        (λ e. (e ≡ CertError.OutOfMemory) ⊎ IsFaultBefore grammar.version grammar.size placed.old count line text.now e) }
{
    left.clear();
    push_count(left, count)?;
    let mut rest = text;
    let mut next = line;
    while let Some(here) = left.pop() {
        let behind = skim_step(left, rest, grammar, placed, next, here)?;
        rest = behind.rest;
        next = behind.next;
    }
    Ok(Behind { rest, next })
}

/// Reads one line at a level with this many children left, or leaves the level if there are none.
fn skim_step<'a>(
    left: &mut Vec<usize>,
    text: &'a [u8],
    grammar: Grammar,
    placed: &mut Placed,
    line: u64,
    here: usize,
) -> Result<Behind<'a>, CertError>
    requires small { grammar.size ≤ 256 }
    requires depth { length placed.old ≤ grammar.size }
    ensures depth { length placed.new ≤ grammar.size }
    ensures read { MatchResult result
        (λ r. LeadsBehind grammar.version grammar.size (levels_of placed.old (here ∷ reverse left.old.items)) line text.now
        (levels_of placed.new (reverse left.new.items)) r.next r.rest.now)
        (λ e. (e ≡ CertError.OutOfMemory)
        ⊎ IsFaultAtLevels grammar.version grammar.size (levels_of placed.old (here ∷ reverse left.old.items)) line text.now e) }
    ensures smaller { IfOk result (λ r. 2 * length r.rest.now + vec_len left.new < 2 * length text.now + vec_len left.old + 1) }
{
    if here == 0 {
        placed.pop();
        return Ok(Behind {
            rest: text,
            next: line,
        });
    }
    let first = node_line(text, grammar, placed, line)?;
    push_count(left, here - 1)?;
    let rest = first.rest;
    let next = line.saturating_add(1);
    if let Some(facility) = first.facility {
        push_count(left, grammar.size - placed.count())?;
        placed.push(facility);
        return Ok(Behind { rest, next });
    }
    let mut none = Vec::new(*left.allocator());
    bound_numbers(first.bytes, grammar, placed, line, 0, &mut none)?;
    Ok(Behind { rest, next })
}

/// Enters a level with this many children.
fn push_count(left: &mut Vec<usize>, count: usize) -> Result<(), AllocError>
    ensures { OnOk result (left.new.items ≡ left.old.items ++ count ∷ []) }
{
    left.push(count)?;
    Ok(())
}
