//! The arrows of the costliest pairs.

ghost use Rattle.std.specs.Prelude.{◌≡◌, ◌≤◌, ◌+◌, IfOk, length, slice_index, slice_index_or, string_bytes};
ghost use Rattle.plan_picture.specs.Arrows.{AreArrows, IsArrow, IsInBox, centre_of, first_cost, no_pair};
ghost use Rattle.plan_picture.specs.Joining.{IsJoinedTo};

use crate::layout::{BoxSize, Centre};
use crate::lines::{line, width_of};
use plan_answer::{Pair, dearest_pairs};
use qap_cost::{Instance, Perm};
use std::alloc::{AllocError, Global};

/// How many of the costliest pairs have arrows.
const SHOWN: usize = 8;

/// The arrows of the costliest pairs of departments, from the box of the one to the box of the other.
pub fn arrows_text(
    alloc: Global,
    instance: &Instance,
    permutation: &Perm,
    centres: &[Centre],
    size: BoxSize,
) -> Result<Vec<u8>, AllocError>
    requires same_size { length permutation.now ≡ instance.now.size }
    requires each { length centres.now ≡ instance.now.size }
    ensures { IfOk result (λ text. AreArrows instance.now permutation.now centres.now size text.items) }
{
    let pairs = dearest_pairs(alloc, instance, permutation, SHOWN)?;
    let arrows = pair_arrows(alloc, &pairs, permutation, centres, size)?;
    let mut text = Vec::from_slice(
        alloc,
        b"<defs><marker id=\"tip\" viewBox=\"0 0 10 10\" refX=\"4.5\" refY=\"5\" markerWidth=\"1.9\" markerHeight=\"1.9\" orient=\"auto\"><path d=\"M 0 0 L 10 5 L 0 10 z\" fill=\"#c2571a\"/></marker></defs>\n<g fill=\"none\" stroke=\"#c2571a\" stroke-opacity=\"0.8\" marker-end=\"url(#tip)\">\n",
    )?;
    text.extend_from_slice(&arrows)?;
    text.extend_from_slice(b"</g>\n")?;
    Ok(text)
}

/// An arrow for each pair.
fn pair_arrows(
    alloc: Global,
    pairs: &[Pair],
    permutation: &Perm,
    centres: &[Centre],
    size: BoxSize,
) -> Result<Vec<u8>, AllocError>
    ensures { IfOk result (λ text. IsJoinedTo (λ k. IsArrow permutation.now centres.now size (first_cost pairs.now) (slice_index_or pairs.now k no_pair)) (length pairs.now) text.items) }
{
    let most = first_cost(pairs);
    let mut text = Vec::new(alloc);
    for pair in pairs {
        let arrow = pair_arrow(alloc, pair, permutation.locations(), centres, size, most)?;
        text.extend_from_slice(arrow.as_bytes())?;
    }
    Ok(text)
}

/// The cost of the first of some pairs, or 0.
fn first_cost(pairs: &[Pair]) -> u64
    ensures { result ≡ first_cost pairs.now }
{
    match pairs {
        [] => 0,
        [first, ..] => first.cost.unsigned_abs(),
    }
}

/// The arrow of a pair.
fn pair_arrow(
    alloc: Global,
    pair: &Pair,
    locations: &[u16],
    centres: &[Centre],
    size: BoxSize,
    most: u64,
) -> Result<String, AllocError>
    ensures { IfOk result (λ arrow. IsArrow locations.now centres.now size most pair.now (string_bytes arrow)) }
{
    let from = centre_of(centres, locations, pair.from);
    let to = centre_of(centres, locations, pair.to);
    let tail = side(from, to, size);
    let head = side(to, from, size);
    let arrow = line(
        alloc,
        &tail,
        &head,
        width_of(pair.cost.unsigned_abs(), most),
    )?;
    Ok(arrow)
}

/// The centre of the box of a facility's place.
fn centre_of(centres: &[Centre], locations: &[u16], facility: usize) -> Centre
    ensures { result ≡ centre_of centres.now (slice_index locations.now facility) }
{
    let place = locations.get(facility).copied().unwrap_or(0);
    let none = Centre { x: 0, y: 0 };
    centres.get(usize::from(place)).copied().unwrap_or(none)
}

/// The middle of that side of a box which faces another one.
fn side(from: Centre, to: Centre, size: BoxSize) -> Centre
    ensures { IsInBox from size result }
{
    let across = u64::from(from.x.abs_diff(to.x)).saturating_mul(u64::from(size.height));
    let down = u64::from(from.y.abs_diff(to.y)).saturating_mul(u64::from(size.width));
    if across < down {
        Centre {
            x: from.x,
            y: towards(from.y, to.y, size.height / 2),
        }
    } else {
        Centre {
            x: towards(from.x, to.x, size.width / 2),
            y: from.y,
        }
    }
}

/// A coordinate, moved towards another one.
fn towards(from: u32, to: u32, by: u32) -> u32
    ensures { (from ≤ result + by) × (result ≤ from + by) }
{
    if to < from {
        from.saturating_sub(by)
    } else {
        from.saturating_add(by)
    }
}
