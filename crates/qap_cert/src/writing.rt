//! Certificates as texts.

ghost use Rattle.std.specs.Prelude.{◌++◌, ◌∷◌, [], codes, OnOk, IfErr};
ghost use Rattle.qap_io.specs.Writing.{Sends, StopsBy};
ghost use Rattle.qap_lines.specs.LineText.{line_text};
ghost use Rattle.qap_lines.specs.Writing.{Writes};
ghost use Rattle.qap_cert.specs.Text.{head_text, bound_text, tree_text, trees_text, certificate_text};
ghost use Rattle.qap_cert.specs.Tree.{node_of, nodes_of};
ghost use Rattle.qap_cert.specs.Version.{split_numbers};
ghost use Rattle.qap_cert.specs.declared.error.CertError.TheVariants.{OutOfMemory, Device as FailedDevice};
ghost use Rattle.qap_cert.specs.declared.version.Version.TheVariants.{Second};

use crate::{CertError, Certificate, Tree};
use qap_io::{Counted, finish};
use qap_lines::{WriteError, number_from_one, write_both, write_head, write_one, write_text};
use std::alloc::Global;
use std::io::Write;

/// Writes the first four lines.
fn write_first<W: Write>(
    writer: &mut Counted<W>,
    line: &mut Vec<u8>,
    certificate: &Certificate,
) -> Result<(), WriteError>
    ensures { Writes W.contents writer.old writer.new (head_text Second certificate.now) result }
{
    write_head(
        writer,
        line,
        b"qapcert",
        2,
        certificate.cost(),
        certificate.perm(),
    )
}

/// Writes the line of a certificate's bound, where that is below the cost.
fn write_bound_line<W: Write>(
    writer: &mut Counted<W>,
    line: &mut Vec<u8>,
    certificate: &Certificate,
) -> Result<(), WriteError>
    ensures { Writes W.contents writer.old writer.new (bound_text certificate.now.cost certificate.now.bound) result }
{
    if certificate.bound() < certificate.cost() {
        write_one(writer, line, b"bound", certificate.bound())
    } else {
        Ok(())
    }
}

/// Writes the lines before the tree.
fn write_front<W: Write>(
    writer: &mut Counted<W>,
    line: &mut Vec<u8>,
    certificate: &Certificate,
) -> Result<(), WriteError>
    ensures { Writes W.contents writer.old writer.new (head_text Second certificate.now ++ bound_text certificate.now.cost certificate.now.bound) result }
{
    write_first(writer, line, certificate)?;
    write_bound_line(writer, line, certificate)
}

/// Writes the line of a split.
fn write_split<W: Write>(
    writer: &mut Counted<W>,
    line: &mut Vec<u8>,
    facility: u16,
) -> Result<(), WriteError>
    ensures { Writes W.contents writer.old writer.new (line_text (codes "s") (split_numbers Second facility)) result }
{
    write_one(writer, line, b"s", number_from_one(facility))
}

/// Writes the lines of a tree.
#[cycle(writing)]
fn write_tree<W: Write>(
    writer: &mut Counted<W>,
    line: &mut Vec<u8>,
    tree: &Tree,
) -> Result<(), WriteError>
    ensures { Writes W.contents writer.old writer.new (tree_text Second (node_of tree.now)) result }
{
    match tree {
        Tree::Split { facility, children } => {
            write_split(writer, line, *facility)?;
            write_trees(writer, line, children)
        }
        Tree::Bound { u, v } => write_both(writer, line, b"b", &u.numbers(), &v.numbers()),
    }
}

/// Writes the lines of trees, in sequence.
#[cycle(writing)]
fn write_trees<W: Write>(
    writer: &mut Counted<W>,
    line: &mut Vec<u8>,
    trees: &[Tree],
) -> Result<(), WriteError>
    ensures { Writes W.contents writer.old writer.new (trees_text Second (nodes_of trees.now)) result }
{
    for tree in trees {
        write_tree(writer, line, tree)?;
    }
    Ok(())
}

/// Writes all lines of a certificate.
fn write_lines<W: Write>(
    writer: &mut Counted<W>,
    line: &mut Vec<u8>,
    certificate: &Certificate,
) -> Result<(), WriteError>
    ensures { Writes W.contents writer.old writer.new (certificate_text Second certificate.now) result }
{
    write_front(writer, line, certificate)?;
    write_tree(writer, line, certificate.tree())?;
    write_text(writer, b"end\n")
}

/// Writes the text of a certificate, in version 2, and flushes the writer.
///
/// At a refusal, a prefix of the text has been written: if memory ran out (`OutOfMemory`), no call of the writer has
/// failed, and otherwise one has (`Device`).
pub fn write<W: Write>(
    alloc: Global,
    writer: &mut Counted<W>,
    certificate: &Certificate,
) -> Result<(), CertError>
    ensures sent { OnOk result (Sends W.contents writer.old writer.new (certificate_text Second certificate.now)) }
    ensures stopped { IfErr result (StopsBy OutOfMemory FailedDevice W.contents writer.old writer.new (certificate_text Second certificate.now)) }
{
    let mut line = Vec::new(alloc);
    write_lines(writer, &mut line, certificate)?;
    finish(writer)?;
    Ok(())
}
