//! The lines between departments.

ghost use Rattle.std.specs.Prelude.{◌≡◌, ◌<◌, ◌^◌, ◌++◌, IfOk, OnOk, length, slice_index, string_bytes};
ghost use Rattle.qap_cost.specs.Bijection.{IsPerm};
ghost use Rattle.plan_picture.specs.Drawing.{flow_mark, flow_marks};
ghost use Rattle.plan_picture.specs.Joining.{joined_to};
ghost use Rattle.plan_picture.specs.Flows.{flow_between, largest_flow, largest_to, width_of};
ghost use Rattle.plan_picture.specs.Marks.{bent, line_mark};

use crate::layout::Centre;
use qap_cost::{Instance, Perm};
use std::alloc::{AllocError, Global};

/// How wide the widest line is, in tenths of a pixel.
const WIDEST: u128 = 90;

/// How wide the narrowest line is, in tenths of a pixel.
const NARROWEST: u128 = 5;

/// What the lines of a picture are drawn of.
#[derive(Drop)]
struct Arrangement<'a> {
    instance: &'a Instance,
    permutation: &'a Perm,
    /// The point of each place.
    centres: &'a [Centre],
    /// The most that goes between two departments.
    most: u64,
}

/// Appends a line between each two departments between which something goes to the text.
pub fn push_lines(
    alloc: Global,
    text: &mut Vec<u8>,
    instance: &Instance,
    permutation: &Perm,
    centres: &[Centre],
) -> Result<(), AllocError>
    requires same_size { length permutation.now ≡ instance.now.size }
    requires each { length centres.now ≡ instance.now.size }
    ensures { OnOk result (text.new.items ≡ text.old.items ++ flow_marks instance.now permutation.now centres.now) }
{
    let arrangement = Arrangement {
        instance,
        permutation,
        centres,
        most: largest_flow(instance),
    };
    text.extend_from_slice(b"<g fill=\"none\" stroke=\"#8fb0d3\" stroke-opacity=\"0.8\">\n")?;
    for i in 0..instance.size() {
        push_lines_of(alloc, text, &arrangement, i)?;
    }
    text.extend_from_slice(b"</g>\n")?;
    Ok(())
}

/// Appends the lines between a department and those before it to the text.
fn push_lines_of(
    alloc: Global,
    text: &mut Vec<u8>,
    arrangement: &Arrangement<'_>,
    i: usize,
) -> Result<(), AllocError>
    requires same_size { length arrangement.now.permutation.now ≡ arrangement.now.instance.now.size }
    requires each { length arrangement.now.centres.now ≡ arrangement.now.instance.now.size }
    requires most { arrangement.now.most ≡ largest_flow arrangement.now.instance.now }
    requires i { i < arrangement.now.instance.now.size }
    ensures { OnOk result (text.new.items ≡ text.old.items ++ joined_to (flow_mark arrangement.now.instance.now arrangement.now.permutation.now arrangement.now.centres.now i) i) }
{
    for j in 0..i {
        push_flow(alloc, text, arrangement, i, j)?;
    }
    Ok(())
}

/// Appends the line between two departments to the text, where something goes between them.
fn push_flow(
    alloc: Global,
    text: &mut Vec<u8>,
    arrangement: &Arrangement<'_>,
    i: usize,
    j: usize,
) -> Result<(), AllocError>
    requires same_size { length arrangement.now.permutation.now ≡ arrangement.now.instance.now.size }
    requires each { length arrangement.now.centres.now ≡ arrangement.now.instance.now.size }
    requires most { arrangement.now.most ≡ largest_flow arrangement.now.instance.now }
    requires i { i < arrangement.now.instance.now.size }
    requires j { j < arrangement.now.instance.now.size }
    ensures { OnOk result (text.new.items ≡ text.old.items ++ flow_mark arrangement.now.instance.now arrangement.now.permutation.now arrangement.now.centres.now i j) }
{
    let flow = flow_between(arrangement.instance, i, j);
    if flow == 0 {
        return Ok(());
    }
    let locations = arrangement.permutation.locations();
    let from = &arrangement.centres[usize::from(locations[i])];
    let to = &arrangement.centres[usize::from(locations[j])];
    let line = line(alloc, from, to, width_of(flow, arrangement.most))?;
    text.extend_from_slice(line.as_bytes())
}

/// How much goes between two departments, both ways together; none if that is less.
fn flow_between(instance: &Instance, i: usize, j: usize) -> u64
    requires i { i < instance.now.size }
    requires j { j < instance.now.size }
    ensures value { result ≡ flow_between instance.now i j }
    ensures small { result < 2 ^ 32 }
{
    let both = instance.a(i, j) + instance.a(j, i);
    if both < 0 { 0 } else { both.unsigned_abs() }
}

/// The most that goes between two departments.
fn largest_flow(instance: &Instance) -> u64
    ensures { result ≡ largest_flow instance.now }
{
    let mut most = 0;
    for i in 0..instance.size() {
        most = largest_flow_of(instance, i).max(most);
    }
    most
}

/// The most that goes between a department and those before it.
fn largest_flow_of(instance: &Instance, i: usize) -> u64
    requires { i < instance.now.size }
    ensures { result ≡ largest_to (flow_between instance.now i) i }
{
    let mut most = 0;
    for j in 0..i {
        most = flow_between(instance, i, j).max(most);
    }
    most
}

/// How wide the line of an amount is, in tenths of a pixel: in proportion, and no less than a pixel's half.
pub fn width_of(amount: u64, most: u64) -> u64
    ensures { result ≡ width_of amount most }
{
    let width = u128::from(amount) * WIDEST / u128::from(most.max(1));
    width.min(WIDEST).max(NARROWEST) as u64
}

/// A line from one centre to another, a little bent, so that lines in one direction lie apart.
pub fn line(alloc: Global, from: &Centre, to: &Centre, tenths: u64) -> Result<String, AllocError>
    ensures { IfOk result (λ line. string_bytes line ≡ line_mark from.now to.now tenths) }
{
    let (x, y, u, v) = (from.x, from.y, to.x, to.y);
    let bent_x = bent(x, u, y, v);
    let bent_y = bent(y, v, u, x);
    let whole = tenths / 10;
    let rest = tenths % 10;
    format!(in alloc;
        "<path d=\"M {x} {y} Q {bent_x} {bent_y} {u} {v}\" stroke-width=\"{whole}.{rest}\"/>\n"
    )
}

/// A coordinate halfway from `a` to `b`, moved by a quarter of what is between `c` and `d` of the other one.
fn bent(a: u32, b: u32, c: u32, d: u32) -> u64
    ensures { result ≡ bent a b c d }
{
    let further = u64::from(a / 2) + u64::from(b / 2) + u64::from(c.saturating_sub(d) / 4);
    further.saturating_sub(u64::from(d.saturating_sub(c) / 4))
}
