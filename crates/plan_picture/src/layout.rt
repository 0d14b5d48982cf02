//! The positions of boxes in a picture.

ghost use Rattle.std.specs.Prelude.{◌≡◌, ◌<◌, IfOk, length};

use plan_table::Point;
use std::alloc::{AllocError, Global};

/// How far boxes are from each other and from the picture's edge at least, in pixels.
const GAP: u32 = 28;

/// The most pixels from the first to the last box, across and down; a picture that needs more is drawn on a grid.
const MOST: u128 = 6000;

/// How wide a picture of places at their coordinates is at least, unless it is high.
const LEAST: u128 = 640;

/// By what a factor of magnification is multiplied.
const UNIT: u128 = 1 << 32;

/// The centre of a box, in pixels from the picture's upper left corner.
#[derive(Clone, Copy, Debug, PartialEq, Eq)]
pub struct Centre {
    pub x: u32,
    pub y: u32,
}

/// How large the boxes are, in pixels.
#[derive(Clone, Copy, Debug, PartialEq, Eq)]
pub struct BoxSize {
    pub width: u32,
    pub height: u32,
}

/// A picture's size, and the positions of its boxes.
#[derive(Debug, Drop)]
pub struct Layout {
    pub width: u32,
    pub height: u32,
    pub centres: Vec<Centre>,
    /// Whether the boxes are at their points.
    pub is_scaled: bool,
}

/// The positions of this many boxes below a head of some height: at their points, x to the right and y upwards or
/// downwards, magnified so that no two boxes overlap, or in rows if not every box has a point, or these are too close
/// together.
pub fn layout_of(
    alloc: Global,
    count: usize,
    points: &[Point],
    is_down: bool,
    size: BoxSize,
    head: u32,
) -> Result<Layout, AllocError>
    ensures { IfOk result (λ layout. length layout.centres.items ≡ count) }
{
    if points.len() != count {
        return in_rows(alloc, count, size, head);
    }
    match frame_of(points, is_down) {
        Some(frame) => match magnification(points, frame, size) {
            Some(factor) => at_points(alloc, points, frame, factor, size, head),
            None => in_rows(alloc, count, size, head),
        },
        None => in_rows(alloc, count, size, head),
    }
}

/// The least and the largest coordinates of points, and which of those of y is at the top.
#[derive(Clone, Copy)]
struct Frame {
    left: i64,
    right: i64,
    lower: i64,
    upper: i64,
    top: i64,
}

/// The frame of points, if there are any.
fn frame_of(points: &[Point], is_down: bool) -> Option<Frame> {
    let (first, others) = points.split_first()?;
    let mut frame = Frame {
        left: first.x,
        right: first.x,
        lower: first.y,
        upper: first.y,
        top: first.y,
    };
    for point in others {
        frame.left = point.x.min(frame.left);
        frame.right = point.x.max(frame.right);
        frame.lower = point.y.min(frame.lower);
        frame.upper = point.y.max(frame.upper);
    }
    frame.top = if is_down { frame.lower } else { frame.upper };
    Some(frame)
}

/// By how much coordinates are magnified, times `UNIT`; `None` if the picture would become too large, or two places are
/// at one point.
fn magnification(points: &[Point], frame: Frame, size: BoxSize) -> Option<u128> {
    let across = u128::from(frame.left.abs_diff(frame.right));
    let down = u128::from(frame.lower.abs_diff(frame.upper));
    let mut factor = factor_for(LEAST, across.max(down)).unwrap_or(UNIT);
    for (i, p) in points.iter().enumerate() {
        for q in points.iter().take(i) {
            factor = factor_between(p, q, size)?.max(factor);
        }
    }
    let fits = pixels(across, factor) <= MOST && pixels(down, factor) <= MOST;
    if fits { Some(factor) } else { None }
}

/// The least factor at which the boxes of two points are apart, across or down; `None` if the points are one.
fn factor_between(p: &Point, q: &Point, size: BoxSize) -> Option<u128> {
    let across = factor_for(
        u128::from(size.width.saturating_add(GAP)),
        u128::from(p.x.abs_diff(q.x)),
    );
    let down = factor_for(
        u128::from(size.height.saturating_add(GAP)),
        u128::from(p.y.abs_diff(q.y)),
    );
    match (across, down) {
        (Some(across), Some(down)) => Some(across.min(down)),
        (Some(factor), None) | (None, Some(factor)) => Some(factor),
        (None, None) => None,
    }
}

/// The least factor that makes a length this many pixels; `None` if there is no length.
fn factor_for(pixels: u128, length: u128) -> Option<u128> {
    if length == 0 {
        return None;
    }
    Some(pixels.saturating_mul(UNIT).div_ceil(length))
}

/// How many pixels a length becomes.
fn pixels(length: u128, factor: u128) -> u128 {
    length.saturating_mul(factor) / UNIT
}

/// Boxes at their points.
fn at_points(
    alloc: Global,
    points: &[Point],
    frame: Frame,
    factor: u128,
    size: BoxSize,
    head: u32,
) -> Result<Layout, AllocError>
    ensures { IfOk result (λ layout. length layout.centres.items ≡ length points.now) }
{
    let mut centres = Vec::new(alloc);
    for point in points {
        let across = pixels(u128::from(frame.left.abs_diff(point.x)), factor);
        let down = pixels(u128::from(frame.top.abs_diff(point.y)), factor);
        centres.push(Centre {
            x: across.min(MOST) as u32,
            y: down.min(MOST) as u32,
        })?;
    }
    framed(alloc, &centres, size, head, true)
}

/// Boxes in rows, as many rows as columns or fewer.
fn in_rows(alloc: Global, count: usize, size: BoxSize, head: u32) -> Result<Layout, AllocError>
    ensures { IfOk result (λ layout. length layout.centres.items ≡ count) }
{
    let columns = columns_for(count);
    let mut centres = Vec::new(alloc);
    for k in 0..count {
        centres.push(Centre {
            x: steps(k % columns, size.width),
            y: steps(k / columns, size.height),
        })?;
    }
    framed(alloc, &centres, size, head, false)
}

/// How many pixels this many boxes and gaps take.
fn steps(count: usize, length: u32) -> u32 {
    let step = u64::from(length) + u64::from(GAP);
    (count as u64).saturating_mul(step).min(u64::from(u32::MAX)) as u32
}

/// How many boxes are in a row: the least number, at least 1, whose square is no less than the count.
fn columns_for(count: usize) -> usize
    ensures { 0 < result }
{
    let root = count.isqrt();
    if root.saturating_mul(root) < count {
        root.saturating_add(1)
    } else {
        root.max(1)
    }
}

/// The boxes in a picture that has capacity for them, for the lines that are bent around them, and for the head above.
fn framed(
    alloc: Global,
    centres: &[Centre],
    size: BoxSize,
    head: u32,
    is_scaled: bool,
) -> Result<Layout, AllocError>
    ensures { IfOk result (λ layout. length layout.centres.items ≡ length centres.now) }
{
    let mut across: u32 = 0;
    let mut down: u32 = 0;
    for centre in centres {
        across = centre.x.max(across);
        down = centre.y.max(down);
    }
    let side = (size.width / 2).max(down / 8).saturating_add(GAP);
    let top = (size.height / 2).max(across / 8).saturating_add(GAP);
    let mut moved = Vec::new(alloc);
    for centre in centres {
        moved.push(Centre {
            x: centre.x.saturating_add(side),
            y: centre.y.saturating_add(top).saturating_add(head),
        })?;
    }
    Ok(Layout {
        width: across.saturating_add(side).saturating_add(side),
        height: down
            .saturating_add(head)
            .saturating_add(top)
            .saturating_add(top),
        centres: moved,
        is_scaled,
    })
}
