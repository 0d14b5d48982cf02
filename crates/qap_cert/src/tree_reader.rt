//! Reads the tree of a certificate.

ghost use Rattle.std.specs.Prelude.{◌≡◌, ◌⊎◌, ◌++◌, ◌+◌, ◌-◌, ◌<◌, ◌≤◌, codes, length, ℕ, MatchOption, MatchResult};
ghost use Rattle.qap_lines.specs.Line.{line_after};
ghost use Rattle.gilmore_lawler.specs.Closing.{AreDuals};
ghost use Rattle.qap_cert.specs.Shape.{HasShape, AllHaveShape, child_count};
ghost use Rattle.qap_lines.specs.LineText.{numbers_text};
ghost use Rattle.qap_cert.specs.Text.{tree_text, trees_text};
ghost use Rattle.qap_cert.specs.TextFault.{IsTreeTextFault, IsFaultAmong, IsNodeFault, IsSplitLine};
ghost use Rattle.qap_cert.specs.Tree.{node_of, nodes_of, node_count, nodes_count};

use crate::error::CertError;
use crate::node_line::{Grammar, bound_numbers, node_line};
use crate::placed::Placed;
use crate::tree::Tree;
use number_list::NumberList;
use std::alloc::Global;

/// A tree, the text after its lines, and the number of the line there.
#[derive(Drop)]
pub(crate) struct TreeRead<'a> {
    pub tree: Tree,
    pub rest: &'a [u8],
    pub next: u64,
}

/// The children of a split, the text after their lines, and the number of the line there.
#[derive(Drop)]
struct ChildrenRead<'a> {
    trees: Vec<Tree>,
    rest: &'a [u8],
    next: u64,
}

/// The duals of a bound: those of the facilities, and those of the locations.
#[derive(Drop)]
pub(crate) struct Duals {
    pub(crate) u: Vec<i128>,
    pub(crate) v: Vec<i128>,
}

/// Reads a tree at the beginning of a text, whose first line has this number, where these facilities are placed.
#[cycle(reading)]
pub(crate) fn read_tree<'a>(
    alloc: Global,
    text: &'a [u8],
    grammar: Grammar,
    placed: &Placed,
    line: u64,
) -> Result<TreeRead<'a>, CertError>
    requires small { grammar.size ≤ 256 }
    requires depth { length placed.now ≤ grammar.size }
    ensures { MatchResult result
        (λ r. HasShape grammar.version grammar.size placed.now (node_of r.tree) × (text.now ≡ tree_text grammar.version (node_of r.tree) ++ r.rest.now)
        × (r.next ≡ line_after line (node_count (node_of r.tree))))
        (λ e. (e ≡ CertError.OutOfMemory) ⊎ IsTreeTextFault grammar.version grammar.size (grammar.size - length placed.now) placed.now line text.now e) }
{
    let first = node_line(text, grammar, placed, line)?;
    let next = line.saturating_add(1);
    let Some(facility) = first.facility else {
        let duals = read_duals(alloc, first.bytes, grammar, placed, line)?;
        let tree = Tree::Bound {
            u: NumberList::narrowed(duals.u),
            v: NumberList::narrowed(duals.v),
        };
        return Ok(TreeRead {
            tree,
            rest: first.rest,
            next,
        });
    };
    let inner = placed.with(facility);
    let read = read_children(alloc, first.rest, grammar, &inner, next)?;
    Ok(TreeRead {
        tree: Tree::Split {
            facility,
            children: read.trees,
        },
        rest: read.rest,
        next: read.next,
    })
}

/// Reads the children of a split, after which these facilities are placed.
#[cycle(reading)]
fn read_children<'a>(
    alloc: Global,
    text: &'a [u8],
    grammar: Grammar,
    placed: &Placed,
    line: u64,
) -> Result<ChildrenRead<'a>, CertError>
    requires small { grammar.size ≤ 256 }
    requires depth { length placed.now ≤ grammar.size }
    ensures { MatchResult result
        (λ r. AllHaveShape grammar.version grammar.size placed.now (nodes_of r.trees.items)
        × (child_count (nodes_of r.trees.items) ≡ grammar.size + 1 - length placed.now)
        × (text.now ≡ trees_text grammar.version (nodes_of r.trees.items) ++ r.rest.now)
        × (r.next ≡ line_after line (nodes_count (nodes_of r.trees.items))))
        (λ e. (e ≡ CertError.OutOfMemory) ⊎ IsFaultAmong grammar.version grammar.size placed.now line text.now
        (λ line rest. IsTreeTextFault grammar.version grammar.size (grammar.size - length placed.now) placed.now line rest e)) }
{
    let count = grammar.size + 1 - placed.count();
    let mut trees = Vec::with_capacity(alloc, count)?;
    let mut rest = text;
    let mut next = line;
    for _ in 0..count {
        let child = read_tree(alloc, rest, grammar, placed, next)?;
        trees.push(child.tree).map_err(|_| CertError::OutOfMemory)?;
        rest = child.rest;
        next = child.next;
    }
    Ok(ChildrenRead { trees, rest, next })
}

/// Reads the line of a bound: `b` and a number for each free facility and each free location.
pub(crate) fn read_duals(
    alloc: Global,
    line: &[u8],
    grammar: Grammar,
    placed: &Placed,
    number: u64,
) -> Result<Duals, CertError>
    requires small { grammar.size ≤ 256 }
    requires depth { length placed.now ≤ grammar.size }
    requires no_split { (f : ℕ) → IsSplitLine grammar.version grammar.size placed.now line.now f → ⊥ }
    ensures { MatchResult result
        (λ r. AreDuals (grammar.size - length placed.now) r.u.items r.v.items × (line.now ≡ codes "b" ++ numbers_text (r.u.items ++ r.v.items)))
        (λ e. (e ≡ CertError.OutOfMemory) ⊎ IsNodeFault grammar.version grammar.size placed.now number line.now e) }
{
    let free = grammar.size - placed.count();
    let mut u = Vec::new(alloc);
    bound_numbers(line, grammar, placed, number, 2 * free, &mut u)?;
    let v = u.split_off(free)?;
    Ok(Duals { u, v })
}
