//! The picture of an arrangement.

ghost use Rattle.std.specs.Prelude.{◌≡◌, ◌≤◌, ◌++◌, IfOk, codes, length, string_bytes};
ghost use Rattle.std.specs.Str.Lossy.{utf8_lossy};
ghost use Rattle.plan_file.specs.Tables.{HasSizes};
ghost use Rattle.plan_picture.specs.Drawing.{opening_text, title_style, verdict_style};
ghost use Rattle.plan_picture.specs.Naming.{AreNames};
ghost use Rattle.plan_picture.specs.Picture.{IsPicture};

use crate::arrows::arrows_text;
use crate::boxes::{MAX_COLUMNS, boxes_text};
use crate::layout::{BoxSize, Centre, layout_of};
use crate::legend::legend_text;
use crate::lines::push_lines;
use crate::naming::{Names, names_text};
use crate::parts::joined;
use crate::wrapping::wrapped;
use plan_file::NamedProblem;
use qap_cost::Perm;
use std::alloc::{AllocError, Global};
use unicode_width::UnicodeWidthStr;

/// How wide a letter of a name is, in pixels.
const LETTER: u32 = 8;

/// How high a line of a name is, in pixels.
const LINE: u32 = 16;

/// The greatest number of columns of a line of the caption.
const CAPTION_COLUMNS: usize = 64;

/// How wide a picture is at least, in pixels, so that its legend fits.
const LEAST_WIDTH: u64 = 440;

/// How high the legend is, in pixels.
const LEGEND: u32 = 100;

/// What is said above a picture: a title, which may be empty, and what is proved about the cost.
#[derive(Clone, Copy, Drop)]
pub struct Caption<'a> {
    pub title: &'a str,
    pub verdict: &'a [u8],
}

/// A picture of an arrangement as SVG: below the caption a box for each place, at its coordinates, y upwards or downwards,
/// or in rows, with the names of its department and of the place; behind the boxes a line between each two departments
/// with a flow, whose width is proportional to it; above them an arrow for each of the costliest pairs, whose width is
/// proportional to its cost; and a legend.
pub fn picture(
    alloc: Global,
    problem: &NamedProblem,
    permutation: &Perm,
    caption: &Caption<'_>,
    is_down: bool,
) -> Result<Vec<u8>, AllocError>
    requires sizes { HasSizes problem.now }
    requires same_size { length permutation.now ≡ problem.now.instance.size }
    ensures { IfOk result (λ text. IsPicture problem.now permutation.now caption.now.title.now caption.now.verdict.now text.items) }
{
    let size = box_size(alloc, problem)?;
    let verdict = String::from_utf8_lossy(alloc, caption.verdict)?;
    let top = caption_centre(alloc, caption.title, verdict.as_str())?;
    let head = top.y.saturating_mul(2).saturating_sub(LINE);
    let places = &problem.places;
    let layout = layout_of(alloc, places.len(), &problem.points, is_down, size, head)?;
    let instance = &problem.instance;
    let centres = &layout.centres;
    let width = width_for(u64::from(layout.width), caption.title, verdict.as_str());
    let opening = opening(alloc, width, layout.height.saturating_add(LEGEND))?;
    let names = caption_text(alloc, &top, caption.title, verdict.as_str())?;
    let boxes = boxes_text(alloc, problem, permutation, centres, size)?;
    let arrows = arrows_text(alloc, instance, permutation, centres, size)?;
    let is_spare = problem.departments.len() < places.len();
    let is_fixed = problem.fixed.depth() > 0;
    let legend = legend_text(alloc, is_fixed, is_spare, layout.is_scaled, layout.height)?;
    let mut flows = Vec::new(alloc);
    push_lines(alloc, &mut flows, instance, permutation, centres)?;
    joined(
        alloc,
        &[
            opening.as_bytes(),
            &names,
            &flows,
            &boxes,
            &arrows,
            &legend,
            b"</svg>\n",
        ],
    )
}

/// The text of the caption around a point.
fn caption_text(
    alloc: Global,
    top: &Centre,
    title: &str,
    verdict: &str,
) -> Result<Vec<u8>, AllocError>
    ensures { IfOk result (λ text. AreNames top.now title.now title_style verdict.now verdict_style text.items) }
{
    let names = Names {
        first: title,
        first_style: title_style(),
        second: verdict,
        second_style: verdict_style(),
    };
    names_text(alloc, top, &names, CAPTION_COLUMNS)
}

/// How the title is drawn.
fn title_style() -> &'static str
    ensures { result.now ≡ title_style }
{
    "font-size=\"15\" font-weight=\"bold\""
}

/// How that which is proved is drawn.
fn verdict_style() -> &'static str
    ensures { result.now ≡ verdict_style }
{
    "font-size=\"13\""
}

/// The point around which the caption is drawn.
fn caption_centre(alloc: Global, title: &str, verdict: &str) -> Result<Centre, AllocError> {
    let titles = wrapped(alloc, title, CAPTION_COLUMNS)?.len();
    let verdicts = wrapped(alloc, verdict, CAPTION_COLUMNS)?.len();
    let lines = titles.min(1000) as u32 + verdicts.min(1000) as u32;
    Ok(Centre {
        x: 28,
        y: 20 + LINE / 2 * lines,
    })
}

/// How wide a picture is that has room for its boxes, its caption and its legend.
fn width_for(boxes: u64, title: &str, verdict: &str) -> u64 {
    let title = title.width().min(CAPTION_COLUMNS) as u64 * 10 + 56;
    let verdict = verdict.width().min(CAPTION_COLUMNS) as u64 * 8 + 56;
    boxes.max(title).max(verdict).max(LEAST_WIDTH)
}

/// How large a box is that has room for each of the names.
fn box_size(alloc: Global, problem: &NamedProblem) -> Result<BoxSize, AllocError> {
    let departments = room_for(alloc, &problem.departments)?;
    let places = room_for(alloc, &problem.places)?;
    Ok(BoxSize {
        width: departments.width.max(places.width).saturating_add(24),
        height: departments
            .height
            .saturating_add(places.height)
            .saturating_add(24),
    })
}

/// How much room the largest of the names takes.
fn room_for(alloc: Global, names: &[String]) -> Result<BoxSize, AllocError> {
    let mut size = BoxSize {
        width: 0,
        height: 0,
    };
    for name in names {
        let columns = name.as_str().width().min(MAX_COLUMNS);
        let lines = wrapped(alloc, name.as_str(), MAX_COLUMNS)?.len().min(1000);
        size.width = (columns as u32 * LETTER).max(size.width);
        size.height = (lines as u32 * LINE).max(size.height);
    }
    Ok(size)
}

/// The document's beginning.
fn opening(alloc: Global, width: u64, height: u32) -> Result<String, AllocError>
    ensures { IfOk result (λ text. string_bytes text ≡ opening_text width height) }
{
    format!(in alloc;
        "<svg xmlns=\"http://www.w3.org/2000/svg\" width=\"{width}\" height=\"{height}\" viewBox=\"0 0 {width} {height}\" font-family=\"monospace\">\n<rect width=\"{width}\" height=\"{height}\" fill=\"white\"/>\n"
    )
}
