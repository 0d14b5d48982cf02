//! Reads certificates.

ghost use Rattle.std.specs.Prelude.{◌≡◌, ◌⊎◌, ◌++◌, ◌≤◌, [], ℕ, codes, length, MatchResult};
ghost use Rattle.qap_lines.specs.Bound.{IsBoundFor};
ghost use Rattle.qap_cert.specs.Certificate.{tree_line};
ghost use Rattle.qap_cert.specs.Head.{HasHead};
ghost use Rattle.qap_cert.specs.Shape.{HasShape};
ghost use Rattle.qap_cert.specs.Text.{IsCertificateText, bound_text, tree_text};
ghost use Rattle.qap_cert.specs.TextFault.{IsTextFault, IsEndFault, IsFaultFromBound, IsFaultFromTree};
ghost use Rattle.qap_cert.specs.Tree.{node_of};
ghost use Rattle.qap_cert.specs.Version.{MayBound};
ghost use Rattle.qap_cost.specs.Range.{IsLimited};

use crate::bound::stated_bound;
use crate::certificate::Certificate;
use crate::error::CertError;
use crate::head::{read_cost, read_header, read_permutation, read_size};
use crate::line::line_at;
use crate::line_number::{BOUND_LINE, TREE_LINE_BEHIND_BOUND};
use crate::node_line::Grammar;
use crate::placed::Placed;
use crate::tree::Tree;
use crate::tree_reader::read_tree;
use crate::version::Version;
use qap_cost::Perm;
use std::alloc::Global;

/// What is before the tree of a certificate, the number of the tree's first line, and the text from there on.
#[derive(Drop)]
pub(crate) struct Head<'a> {
    pub(crate) grammar: Grammar,
    pub(crate) cost: i128,
    pub(crate) bound: i128,
    pub(crate) perm: Perm,
    pub(crate) line: u64,
    pub(crate) rest: &'a [u8],
}

/// The bound, which may have a line, the number of the tree's first line, and the text from there on.
#[derive(Clone, Copy)]
struct Bounded<'a> {
    bound: i128,
    line: u64,
    rest: &'a [u8],
}

/// The certificate that a text of either version is.
///
/// A text has one line each for the version, the size, the cost and the permutation, in version 2 a line for a bound that is
/// below the cost, a line for each node of the tree in preorder, and a last line. Each certificate has one text in each
/// version that can hold it. The first fault in order of lines is reported.
pub fn read(alloc: Global, text: &[u8]) -> Result<Certificate, CertError>
    ensures { MatchResult result
        (IsCertificateText text.now)
        (λ e. (e ≡ CertError.OutOfMemory) ⊎ IsTextFault text.now e) }
{
    let head = read_head(alloc, text)?;
    let tree = read_to_end(alloc, head.rest, head.grammar, head.line)?;
    Ok(Certificate {
        cost: head.cost,
        bound: head.bound,
        perm: head.perm,
        tree,
    })
}

/// Reads what is before the tree.
pub(crate) fn read_head(alloc: Global, text: &[u8]) -> Result<Head<'_>, CertError>
    ensures { MatchResult result
        (λ h. HasHead text.now h.grammar.version h.cost h.bound h.perm h.line h.rest.now × (h.grammar.size ≡ length h.perm))
        (λ e. (e ≡ CertError.OutOfMemory) ⊎ IsTextFault text.now e) }
{
    let (version, rest) = read_header(text)?;
    let (size, rest) = read_size(rest)?;
    let (cost, rest) = read_cost(rest)?;
    let (perm, rest) = read_permutation(alloc, rest, size)?;
    let bounded = read_bound(rest, version, cost)?;
    Ok(Head {
        grammar: Grammar { version, size },
        cost,
        bound: bounded.bound,
        perm,
        line: bounded.line,
        rest: bounded.rest,
    })
}

/// Reads the line of the bound, if there is one: in version 1 there is none.
fn read_bound(text: &[u8], version: Version, cost: i128) -> Result<Bounded<'_>, CertError>
    requires { IsLimited cost }
    ensures { MatchResult result
        (λ b. MayBound version cost b.bound × IsBoundFor cost b.bound × (b.line ≡ tree_line cost b.bound) × (text.now ≡ bound_text cost b.bound ++ b.rest.now)
        × ((n : ℕ) (e : CertError) → IsFaultFromTree version n b.line b.rest.now e → IsFaultFromBound version n cost text.now e))
        (λ e. (n : ℕ) → IsFaultFromBound version n cost text.now e) }
{
    match version {
        Version::First => Ok(unstated(text, cost)),
        Version::Second => match stated_bound(text, cost)? {
            None => Ok(unstated(text, cost)),
            Some(stated) => Ok(Bounded {
                bound: stated.bound,
                line: TREE_LINE_BEHIND_BOUND,
                rest: stated.rest,
            }),
        },
    }
}

/// Where no bound is stated it is the cost, and the tree begins at once.
fn unstated(text: &[u8], cost: i128) -> Bounded<'_>
    ensures bound { result.bound ≡ cost }
    ensures line { result.line ≡ 5 }
    ensures rest { result.rest.now ≡ text.now }
{
    Bounded {
        bound: cost,
        line: BOUND_LINE,
        rest: text,
    }
}

/// Reads a tree, whose first line has this number, and the last line.
fn read_to_end(alloc: Global, text: &[u8], grammar: Grammar, line: u64) -> Result<Tree, CertError>
    requires { grammar.size ≤ 256 }
    ensures { MatchResult result
        (λ t. HasShape grammar.version grammar.size [] (node_of t) × (text.now ≡ tree_text grammar.version (node_of t) ++ codes "end\n"))
        (λ e. (e ≡ CertError.OutOfMemory) ⊎ IsFaultFromTree grammar.version grammar.size line text.now e) }
{
    let read = read_tree(alloc, text, grammar, &Placed::none(), line)?;
    read_end(read.rest, read.next)?;
    Ok(read.tree)
}

/// Reads the last line, whose number this is.
pub(crate) fn read_end(text: &[u8], line: u64) -> Result<(), CertError>
    ensures { MatchResult result (λ _. text.now ≡ codes "end\n") (IsEndFault line text.now) }
{
    let last = line_at(text, line)?;
    if last.bytes != b"end".as_slice() {
        return Err(CertError::BadLine(line));
    }
    if !last.rest.is_empty() {
        return Err(CertError::TrailingText(line.saturating_add(1)));
    }
    Ok(())
}
