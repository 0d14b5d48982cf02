//! Names, one below the other.

ghost use Rattle.std.specs.Prelude.{◌≡◌, ◌≤◌, ◌+◌, ◌++◌, IfOk, OnOk, length, map, string_bytes};
ghost use Rattle.plan_picture.specs.Marks.{line_y, name_head, name_mark};
ghost use Rattle.plan_picture.specs.Naming.{AreNames, lines_mark};

use crate::escape::escaped;
use crate::layout::Centre;
use crate::wrapping::wrapped;
use std::alloc::{AllocError, Global};

/// How far lines are from each other, in pixels.
const STEP: u64 = 16;

/// The most lines below which others are drawn.
const MOST_LINES: u64 = 1000;

/// Two texts, and how they are drawn.
#[derive(Clone, Copy, Drop)]
pub struct Names<'a> {
    pub first: &'a str,
    pub first_style: &'a str,
    pub second: &'a str,
    pub second_style: &'a str,
}

/// Two texts around a point, one below the other, in lines of at most this many columns.
pub fn names_text(
    alloc: Global,
    centre: &Centre,
    names: &Names<'_>,
    columns: usize,
) -> Result<Vec<u8>, AllocError>
    ensures { IfOk result (λ text. AreNames centre.now names.now.first.now names.now.first_style.now names.now.second.now names.now.second_style.now text.items) }
{
    let first = wrapped(alloc, names.first, columns)?;
    let second = wrapped(alloc, names.second, columns)?;
    let all = first.len() + second.len();
    let mut text = Vec::new(alloc);
    push_lines(alloc, &mut text, centre, all, 0, names.first_style, &first)?;
    let from = first.len();
    push_lines(
        alloc,
        &mut text,
        centre,
        all,
        from,
        names.second_style,
        &second,
    )?;
    Ok(text)
}

/// Appends lines to a text: of all lines around a point, those from this number on.
fn push_lines(
    alloc: Global,
    text: &mut Vec<u8>,
    centre: &Centre,
    all: usize,
    from: usize,
    style: &str,
    lines: &[&str],
) -> Result<(), AllocError>
    requires { from + length lines.now ≤ all }
    ensures { OnOk result (text.new.items ≡ text.old.items ++ lines_mark centre.now all from style.now (map (λ line. line.now) lines.now)) }
{
    for (i, line) in lines.iter().enumerate() {
        let y = line_y(centre.y, all, from + i);
        push_name(alloc, text, centre.x, y, style, line)?;
    }
    Ok(())
}

/// The height of a line's lower edge, where there are this many around a point.
fn line_y(y: u32, all: usize, i: usize) -> u64
    ensures { result ≡ line_y y all i }
{
    let down = 12 + STEP * (i as u64).min(MOST_LINES);
    let up = STEP / 2 * (all as u64).min(MOST_LINES);
    (u64::from(y) + down).saturating_sub(up)
}

/// Appends a line to a text.
fn push_name(
    alloc: Global,
    text: &mut Vec<u8>,
    x: u32,
    y: u64,
    style: &str,
    line: &str,
) -> Result<(), AllocError>
    ensures { OnOk result (text.new.items ≡ text.old.items ++ name_mark x y style.now line.now) }
{
    let head = name_head(alloc, x, y, style)?;
    text.extend_from_slice(head.as_bytes())?;
    text.extend_from_slice(&escaped(alloc, line)?)?;
    text.extend_from_slice(b"</text>\n")?;
    Ok(())
}

/// What is before a line.
fn name_head(alloc: Global, x: u32, y: u64, style: &str) -> Result<String, AllocError>
    ensures { IfOk result (λ head. string_bytes head ≡ name_head x y style.now) }
{
    format!(in alloc; "<text x=\"{x}\" y=\"{y}\" {style}>")
}
