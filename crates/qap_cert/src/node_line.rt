//! The line of a tree's node.

ghost use Rattle.std.specs.Prelude.{◌≡◌, ◌⊎◌, ◌+◌, ◌-◌, ◌*◌, ◌<◌, ◌≤◌, codes, length, take, ℕ, ℤ, List, MatchOption, MatchResult};
ghost use Rattle.qap_cost.specs.Placement.{IsFree};
ghost use Rattle.qap_cost.specs.Range.{AllLimited};
ghost use Rattle.qap_lines.specs.Line.{IsLine};
ghost use Rattle.qap_lines.specs.Number.{IsNamed};
ghost use Rattle.qap_cert.specs.NodeLine.{IsNodeLine, HasDuals};
ghost use Rattle.qap_cert.specs.TextFault.{IsLineFault, IsNodeFault, IsSplitLine};

use crate::error::CertError;
use crate::line::line_at;
use crate::placed::Placed;
use crate::shape::judge_facility;
use crate::version::Version;
use qap_io::from_one;
use qap_lines::{one_number, read_numbers};

/// How the lines of a tree are read: in this version, for a certificate of this size.
#[derive(Clone, Copy)]
pub(crate) struct Grammar {
    pub(crate) version: Version,
    pub(crate) size: usize,
}

/// The first line of a node, with the facility where it is that of a split, and the text after it.
#[derive(Clone, Copy)]
pub(crate) struct NodeLine<'a> {
    pub(crate) facility: Option<u16>,
    pub(crate) bytes: &'a [u8],
    pub(crate) rest: &'a [u8],
}

/// The first line of a text, which has this number and must be that of a node where these facilities are placed. A
/// split is checked, a bound isn't yet.
pub(crate) fn node_line<'a>(
    text: &'a [u8],
    grammar: Grammar,
    placed: &Placed,
    number: u64,
) -> Result<NodeLine<'a>, CertError>
    requires { grammar.size ≤ 256 }
    ensures { MatchResult result
        (λ l. IsLine text.now l.bytes.now l.rest.now × IsNodeLine grammar.version grammar.size placed.now l.bytes.now l.facility)
        (IsLineFault number text.now (IsNodeFault grammar.version grammar.size placed.now number)) }
{
    let line = line_at(text, number)?;
    let facility = judge_split_line(line.bytes, grammar, placed, number)?;
    Ok(NodeLine {
        facility,
        bytes: line.bytes,
        rest: line.rest,
    })
}

/// The facility of a split, which must be free; `None` if the line is not that of a split.
fn judge_split_line(
    line: &[u8],
    grammar: Grammar,
    placed: &Placed,
    number: u64,
) -> Result<Option<u16>, CertError>
    requires { grammar.size ≤ 256 }
    ensures { MatchResult result
        (IsNodeLine grammar.version grammar.size placed.now line.now)
        (IsNodeFault grammar.version grammar.size placed.now number line.now) }
{
    let Some(facility) = split_facility(line, grammar, placed) else {
        return Ok(None);
    };
    judge_facility(facility, grammar.size, placed, number)?;
    Ok(Some(facility))
}

/// The facility of a split's line; `None` if the line has another form.
fn split_facility(line: &[u8], grammar: Grammar, placed: &Placed) -> Option<u16>
    requires small { grammar.size ≤ 256 }
    ensures { MatchOption result
        ((f : ℕ) → IsSplitLine grammar.version grammar.size placed.now line.now f → ⊥)
        (IsSplitLine grammar.version grammar.size placed.now line.now) }
{
    match grammar.version {
        Version::First if line == b"s".as_slice() => Some(placed.count() as u16),
        Version::First => None,
        Version::Second => match one_number(b"s", line) {
            Some(facility) => from_one(facility, grammar.size),
            None => None,
        },
    }
}

/// Checks the line of a bound: `b` and a number for each free facility and each free location. The first `wanted` of
/// the numbers replace the content of `first`; if `wanted` is 0, nothing is allocated.
pub(crate) fn bound_numbers(
    line: &[u8],
    grammar: Grammar,
    placed: &Placed,
    number: u64,
    wanted: usize,
    first: &mut Vec<i128>,
) -> Result<(), CertError>
    requires small { grammar.size ≤ 256 }
    requires depth { length placed.now ≤ grammar.size }
    requires no_split { (f : ℕ) → IsSplitLine grammar.version grammar.size placed.now line.now f → ⊥ }
    ensures { MatchResult result
        (λ done. HasDuals (grammar.size - length placed.now) wanted line.now first.new.items)
        (λ e. (e ≡ CertError.OutOfMemory) ⊎ IsNodeFault grammar.version grammar.size placed.now number line.now e) }
{
    let Some(numbers) = read_numbers(b"b", line, wanted, first)? else {
        return Err(CertError::BadLine(number));
    };
    if numbers.count != 2 * (grammar.size - placed.count()) {
        return Err(CertError::DualCount(number));
    }
    if !numbers.limited {
        return Err(CertError::DualRange(number));
    }
    Ok(())
}
