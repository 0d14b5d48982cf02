//! The page of a report.

ghost use Rattle.std.specs.Prelude.{◌≡◌, IfOk, length};
ghost use Rattle.std.specs.Option.{option_map};
ghost use Rattle.plan_file.specs.Tables.{HasSizes};
ghost use Rattle.plan_report.specs.Page.{IsPage, compared_part, comparison, proof_note};

use crate::checking::commands;
use crate::pairs::pair_rows;
use crate::rows::places_table;
use plan_answer::verdict_text;
use plan_file::NamedProblem;
use plan_picture::{Caption, escaped, escaped_bytes, joined, picture};
use qap_cost::Perm;
use std::alloc::{AllocError, Global};

/// What is between the titles of the document and of the page.
const STYLE: &[u8] =
    b"</title>\n<style>\nbody { font-family: system-ui, sans-serif; line-height: 1.4; color: #222; max-width: 60em; margin: 0 auto; padding: 1em; }\nh1 { overflow-wrap: anywhere; }\nfigure { margin: 1em 0; overflow-x: auto; }\ntable { border-collapse: collapse; }\nth, td { text-align: left; padding: 0.25em 1em 0.25em 0; border-bottom: 1px solid #ddd; overflow-wrap: anywhere; }\npre { background: #f4f4f4; padding: 0.6em; white-space: pre-wrap; overflow-wrap: anywhere; }\nfooter, .empty { color: #777; }\n.verdict { font-size: 1.3em; font-weight: bold; }\n.number { text-align: right; }\n@media (min-width: 50em) { svg { max-width: 100%; height: auto; } }\n@media print { body { max-width: none; padding: 0; } svg { max-width: 100%; max-height: 15cm; height: auto; } figure, tr, pre { break-inside: avoid; } h2 { break-after: avoid; } }\n</style>\n</head>\n<body>\n<h1>";

/// What a report says besides the arrangement.
#[derive(Clone, Copy, Drop)]
pub struct Report<'a> {
    pub title: &'a str,
    /// The plan's file.
    pub plan: &'a str,
    /// The comparison with today's arrangement, if that is known.
    pub compared: Option<&'a [u8]>,
    /// Whether y grows downwards.
    pub is_down: bool,
    /// The program's version.
    pub version: &'static str,
}

/// A report on an arrangement as one HTML page: what is proved about its cost, the picture, the place of each department,
/// the costliest pairs, the comparison with today's arrangement, and how to check it.
pub fn report_page(
    alloc: Global,
    problem: &NamedProblem,
    permutation: &Perm,
    cost: i128,
    bound: i128,
    report: &Report<'_>,
) -> Result<Vec<u8>, AllocError>
    requires sizes { HasSizes problem.now }
    requires same_size { length permutation.now ≡ problem.now.instance.size }
    ensures { IfOk result (λ text. IsPage problem.now permutation.now cost bound report.now text.items) }
{
    let title = escaped(alloc, report.title)?;
    let words = verdict_text(alloc, problem, cost, bound)?;
    let verdict = escaped_bytes(alloc, &words)?;
    let compared = compared_part(alloc, report.compared)?;
    let caption = Caption {
        title: "",
        verdict: b"",
    };
    let drawing = picture(alloc, problem, permutation, &caption, report.is_down)?;
    let places = places_table(alloc, problem, permutation)?;
    let pairs = pair_rows(alloc, problem, permutation)?;
    let commands = commands(alloc, report.plan, problem.fixed.depth() > 0)?;
    let commands = escaped(alloc, commands.as_str())?;
    let version = escaped(alloc, report.version)?;
    joined(
        alloc,
        &[
            b"<!DOCTYPE html>\n<html lang=\"en\">\n<head>\n<meta charset=\"utf-8\"/>\n<meta name=\"viewport\" content=\"width=device-width, initial-scale=1\"/>\n<title>",
            &title,
            STYLE,
            &title,
            b"</h1>\n<p class=\"verdict\">",
            &verdict,
            b"</p>\n",
            proof_note(bound < cost),
            &compared,
            b"<figure>\n",
            &drawing,
            b"</figure>\n<h2>Departments and places</h2>\n<table>\n<tr><th>Department</th><th>Place</th></tr>\n",
            &places,
            b"</table>\n<h2>The costliest pairs</h2>\n<table>\n<tr><th>From</th><th>To</th><th class=\"number\">Cost</th></tr>\n",
            &pairs,
            b"</table>\n<h2>How to check it</h2>\n<p>These commands solve the plan again, write a proof, and check it with a program that takes nothing in it on trust:</p>\n<pre>",
            &commands,
            b"</pre>\n<footer>Written by qapplan ",
            &version,
            b"</footer>\n</body>\n</html>\n",
        ],
    )
}

/// What the verdict means: that the cost is the least, or that the search was stopped.
fn proof_note(is_open: bool) -> &'static [u8]
    ensures { result.now ≡ proof_note is_open }
{
    if is_open {
        b"<p>The search was stopped: an arrangement may cost less, but none less than the lower of these numbers, which is proved.</p>\n"
    } else {
        b"<p>This is the least cost that the plan allows, which is proved, not estimated.</p>\n"
    }
}

/// The comparison with today's arrangement, if there is one.
fn compared_part(alloc: Global, compared: Option<&[u8]>) -> Result<Vec<u8>, AllocError>
    ensures { IfOk result (λ text. text.items ≡ compared_part (option_map (λ compared. compared.now) compared.entry)) }
{
    match compared {
        Some(text) => comparison(alloc, text),
        None => Ok(Vec::new(alloc)),
    }
}

/// The comparison with today's arrangement.
fn comparison(alloc: Global, text: &[u8]) -> Result<Vec<u8>, AllocError>
    ensures { IfOk result (λ part. part.items ≡ comparison text.now) }
{
    let words = escaped_bytes(alloc, text)?;
    joined(
        alloc,
        &[
            b"<h2>Today and the best arrangement</h2>\n<pre>",
            &words,
            b"</pre>\n",
        ],
    )
}
