//! Proofs as texts.

ghost use Rattle.std.specs.Prelude.{◌≡◌, ◌++◌, length, codes, OnOk, IfErr};
ghost use Rattle.qap_io.specs.Writing.{Sends, StopsBy};
ghost use Rattle.qap_lines.specs.LineText.{numbers_text, line_text, head_text};
ghost use Rattle.qap_lines.specs.Writing.{Writes};
ghost use Rattle.qap_proof.specs.Memory.{node_of, nodes_of};
ghost use Rattle.qap_proof.specs.NodeLine.{kept_pair_of, may_pair_of, split_of};
ghost use Rattle.qap_proof.specs.Text.{letter as letter_of, numbers_of_duals, split_numbers, by_turns, root_text, bound_text, tree_text, trees_text, proof_text};
ghost use Rattle.qap_proof.specs.Tree.{closed, mirrored};
ghost use Rattle.qap_proof.specs.declared.error.ProofError.TheVariants.{OutOfMemory, Device as FailedDevice};

use crate::error::ProofError;
use crate::node_line::{SplitLine, letter};
use crate::proof::Proof;
use crate::tree::{KeptDuals, Tree};
use qap_cost::{Partial, Perm};
use qap_io::{Counted, finish};
use qap_lines::{
    WriteError, begin_line, number_from_one, push_from_one, push_number, push_numbers, write_both,
    write_head, write_one, write_text,
};
use std::alloc::{AllocError, Global};
use std::io::Write;

/// Appends facilities and locations to a line alternately, counted from 1.
pub(crate) fn push_by_turns(
    line: &mut Vec<u8>,
    facilities: &[u16],
    places: &[u16],
) -> Result<(), AllocError>
    requires { length places.now ≡ length facilities.now }
    ensures { OnOk result (line.new.items ≡ line.old.items ++ numbers_text (by_turns facilities.now places.now)) }
{
    for t in 0..facilities.len() {
        push_number(line, number_from_one(facilities[t]))?;
        push_number(line, number_from_one(places[t]))?;
    }
    Ok(())
}

/// Appends the duals of a split to a line, if it has any.
fn push_duals(line: &mut Vec<u8>, duals: &Option<KeptDuals>) -> Result<(), AllocError>
    ensures { OnOk result (line.new.items ≡ line.old.items ++ numbers_text (numbers_of_duals (may_pair_of duals.now))) }
{
    let Some(duals) = duals else {
        return Ok(());
    };
    push_numbers(line, &duals.u.numbers())?;
    push_numbers(line, &duals.v.numbers())?;
    Ok(())
}

/// The line of a root that isn't empty.
fn make_root(line: &mut Vec<u8>, root: &Partial) -> Result<(), AllocError>
    ensures { OnOk result (line.new.items ≡ line_text (codes "node") (by_turns root.now.facilities root.now.places)) }
{
    begin_line(line, b"node")?;
    push_by_turns(line, root.facilities(), root.places())?;
    line.push(b'\n')?;
    Ok(())
}

/// The line of a split.
fn make_split(line: &mut Vec<u8>, split: &SplitLine) -> Result<(), AllocError>
    ensures { OnOk result (line.new.items ≡ line_text (letter_of split.now.side) (split_numbers (split_of split.now))) }
{
    begin_line(line, letter(split.side))?;
    push_number(line, number_from_one(split.number))?;
    push_duals(line, &split.duals)?;
    line.push(b'\n')?;
    Ok(())
}

/// The line of a symmetric child.
fn make_mirrored(line: &mut Vec<u8>, earlier: u16, image: &Perm) -> Result<(), AllocError>
    ensures { OnOk result (line.new.items ≡ tree_text (mirrored earlier image.now)) }
{
    begin_line(line, b"m")?;
    push_number(line, number_from_one(earlier))?;
    push_from_one(line, image.locations())?;
    line.push(b'\n')?;
    Ok(())
}

/// Writes the line of a root that isn't empty.
fn write_root<W: Write>(
    writer: &mut Counted<W>,
    line: &mut Vec<u8>,
    root: &Partial,
) -> Result<(), WriteError>
    ensures { Writes W.contents writer.old writer.new (root_text root.now.facilities root.now.places) result }
{
    if root.depth() == 0 {
        return Ok(());
    }
    make_root(line, root)?;
    write_text(writer, line)
}

/// Writes the line of a proof's bound, where that is below the cost.
fn write_bound<W: Write>(
    writer: &mut Counted<W>,
    line: &mut Vec<u8>,
    proof: &Proof,
) -> Result<(), WriteError>
    ensures { Writes W.contents writer.old writer.new (bound_text proof.now.cost proof.now.bound) result }
{
    if proof.bound() < proof.cost() {
        write_one(writer, line, b"bound", proof.bound())
    } else {
        Ok(())
    }
}

/// Writes the first four lines.
fn write_first<W: Write>(
    writer: &mut Counted<W>,
    line: &mut Vec<u8>,
    proof: &Proof,
) -> Result<(), WriteError>
    ensures { Writes W.contents writer.old writer.new (head_text (codes "qapproof") 1 proof.now.cost proof.now.permutation) result }
{
    write_head(writer, line, b"qapproof", 1, proof.cost(), proof.perm())
}

/// Writes the lines before the tree.
fn write_front<W: Write>(
    writer: &mut Counted<W>,
    line: &mut Vec<u8>,
    proof: &Proof,
) -> Result<(), WriteError>
    ensures { Writes W.contents writer.old writer.new (head_text (codes "qapproof") 1 proof.now.cost proof.now.permutation
        ++ root_text proof.now.root.facilities proof.now.root.places ++ bound_text proof.now.cost proof.now.bound) result }
{
    write_first(writer, line, proof)?;
    write_root(writer, line, proof.root())?;
    write_bound(writer, line, proof)
}

/// Writes the line of a closed node.
fn write_closed<W: Write>(
    writer: &mut Counted<W>,
    line: &mut Vec<u8>,
    duals: &KeptDuals,
) -> Result<(), WriteError>
    ensures { Writes W.contents writer.old writer.new (tree_text (closed (kept_pair_of duals.now))) result }
{
    write_both(writer, line, b"b", &duals.u.numbers(), &duals.v.numbers())
}

/// Writes the line of a split.
fn write_split<W: Write>(
    writer: &mut Counted<W>,
    line: &mut Vec<u8>,
    split: &SplitLine,
) -> Result<(), WriteError>
    ensures { Writes W.contents writer.old writer.new (line_text (letter_of split.now.side) (split_numbers (split_of split.now))) result }
{
    make_split(line, split)?;
    write_text(writer, line)
}

/// Writes the line of a symmetric child.
fn write_mirrored<W: Write>(
    writer: &mut Counted<W>,
    line: &mut Vec<u8>,
    earlier: u16,
    image: &Perm,
) -> Result<(), WriteError>
    ensures { Writes W.contents writer.old writer.new (tree_text (mirrored earlier image.now)) result }
{
    make_mirrored(line, earlier, image)?;
    write_text(writer, line)
}

/// Writes the lines of a tree.
#[cycle(writing)]
fn write_tree<W: Write>(
    writer: &mut Counted<W>,
    line: &mut Vec<u8>,
    tree: &Tree,
) -> Result<(), WriteError>
    ensures { Writes W.contents writer.old writer.new (tree_text (node_of tree.now)) result }
{
    match tree {
        Tree::Closed { duals } => write_closed(writer, line, duals),
        Tree::Split { split, children } => {
            write_split(writer, line, split)?;
            write_trees(writer, line, children)
        }
        Tree::Cut => write_text(writer, b"c\n"),
        Tree::Mirrored { earlier, image } => write_mirrored(writer, line, *earlier, image),
    }
}

/// Writes the lines of trees, in sequence.
#[cycle(writing)]
fn write_trees<W: Write>(
    writer: &mut Counted<W>,
    line: &mut Vec<u8>,
    trees: &[Tree],
) -> Result<(), WriteError>
    ensures { Writes W.contents writer.old writer.new (trees_text (nodes_of trees.now)) result }
{
    for tree in trees {
        write_tree(writer, line, tree)?;
    }
    Ok(())
}

/// Writes all lines of a proof.
fn write_lines<W: Write>(
    writer: &mut Counted<W>,
    line: &mut Vec<u8>,
    proof: &Proof,
) -> Result<(), WriteError>
    ensures { Writes W.contents writer.old writer.new (proof_text proof.now) result }
{
    write_front(writer, line, proof)?;
    write_tree(writer, line, proof.tree())?;
    write_text(writer, b"end\n")
}

/// Writes the text of a proof, and flushes the writer.
///
/// At a refusal, a prefix of the text has been written: if memory ran out (`OutOfMemory`), no call of the writer has
/// failed, and otherwise one has (`Device`).
pub fn write<W: Write>(
    alloc: Global,
    writer: &mut Counted<W>,
    proof: &Proof,
) -> Result<(), ProofError>
    ensures sent { OnOk result (Sends W.contents writer.old writer.new (proof_text proof.now)) }
    ensures stopped { IfErr result (StopsBy OutOfMemory FailedDevice W.contents writer.old writer.new (proof_text proof.now)) }
{
    let mut line = Vec::new(alloc);
    write_lines(writer, &mut line, proof)?;
    finish(writer)?;
    Ok(())
}
