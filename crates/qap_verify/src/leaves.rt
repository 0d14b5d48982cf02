//! The leaves of a proof whose bounds are below the cost.

use qap_proof::{Cover, Leaf};
use std::alloc::{AllocError, Global};

/// A line for each leaf whose value is below the least cost: its value, and its node, facilities and locations
/// alternately, counted from 1. Parts that cover these leaves are missing.
pub fn short_leaves(alloc: Global, cover: &Cover) -> Result<String, AllocError> {
    let mut lines = String::new(alloc);
    for leaf in cover.leaves() {
        if leaf.value < cover.cost() {
            push_leaf(alloc, &mut lines, leaf)?;
        }
    }
    Ok(lines)
}

/// Adds the line of a leaf.
fn push_leaf(alloc: Global, lines: &mut String, leaf: &Leaf) -> Result<(), AllocError> {
    let value = leaf.value;
    lines.push_str(&format!(in alloc; "short {value} node")?)?;
    let (facilities, places) = (leaf.node.facilities(), leaf.node.places());
    for (facility, place) in facilities.iter().zip(places) {
        let (facility, place) = (u32::from(*facility) + 1, u32::from(*place) + 1);
        lines.push_str(&format!(in alloc; " {facility} {place}")?)?;
    }
    lines.push_str("\n")
}
