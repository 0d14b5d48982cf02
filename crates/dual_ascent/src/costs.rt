//! What remains of a node's costs under its pair duals.

use crate::rows::{add, combine, gather, take};
use crate::state::State;
use assign_dual::places::{at, row_of, row_of_mut};
use qap_cost::{Instance, Partial};
use std::alloc::{AllocError, Global};

/// The free facilities and locations of a node, and a scale.
#[derive(Drop)]
pub struct Free<'a> {
    pub facilities: &'a [u16],
    pub locations: &'a [u16],
    pub scale: i64,
}

/// Fills in what the duals of a state leave.
pub fn fill_left(
    alloc: Global,
    instance: &Instance,
    node: &Partial,
    free: &Free<'_>,
    state: &mut State,
) -> Result<(), AllocError> {
    state.value = 0;
    fill_matrix(instance, node, free, state);
    fill_pairs(alloc, instance, free, state)
}

/// Row `i`, column `j` of A; 0 if there is none.
fn a_of(instance: &Instance, i: usize, j: usize) -> i64 {
    if i < instance.size() && j < instance.size() {
        instance.a(i, j)
    } else {
        0
    }
}

/// Row `k`, column `l` of B; 0 if there is none.
fn b_of(instance: &Instance, k: usize, l: usize) -> i64 {
    if k < instance.size() && l < instance.size() {
        instance.b(k, l)
    } else {
        0
    }
}

/// Writes what the free facilities cost at the free locations, alone and with the placed facilities, and their duals.
fn fill_matrix(instance: &Instance, node: &Partial, free: &Free<'_>, state: &mut State) {
    let mut place = 0;
    for facility in free.facilities {
        for location in free.locations {
            let cost = linear_cost(
                instance,
                node,
                usize::from(*facility),
                usize::from(*location),
            );
            if let Some(entry) = state.matrix.get_mut(place) {
                *entry = free.scale.wrapping_mul(cost);
            }
            place = place.wrapping_add(1);
        }
    }
    let square = state.m.wrapping_mul(state.m);
    for j in 0..state.m {
        add(&mut state.matrix, 0, row_of(&state.alpha, square, j));
        add(&mut state.matrix, 0, row_of(&state.beta, square, j));
    }
}

/// What facility `i` costs at location `k`, alone and with the placed facilities.
fn linear_cost(instance: &Instance, node: &Partial, i: usize, k: usize) -> i64 {
    let mut cost = a_of(instance, i, i).wrapping_mul(b_of(instance, k, k));
    for (facility, location) in node.facilities().iter().zip(node.places()) {
        let (h, g) = (usize::from(*facility), usize::from(*location));
        let there = a_of(instance, i, h).wrapping_mul(b_of(instance, k, g));
        let back = a_of(instance, h, i).wrapping_mul(b_of(instance, g, k));
        cost = cost.wrapping_add(there).wrapping_add(back);
    }
    cost
}

/// The entries of a matrix at the free facilities or locations, and those across its diagonal.
#[derive(Drop)]
struct Entries {
    there: Vec<i64>,
    back: Vec<i64>,
}

/// The scaled entries of A.
fn a_entries(alloc: Global, instance: &Instance, free: &Free<'_>) -> Result<Entries, AllocError> {
    let mut there = Vec::new(alloc);
    let mut back = Vec::new(alloc);
    for i in free.facilities {
        for j in free.facilities {
            let (i, j) = (usize::from(*i), usize::from(*j));
            there.push(free.scale.wrapping_mul(a_of(instance, i, j)))?;
            back.push(free.scale.wrapping_mul(a_of(instance, j, i)))?;
        }
    }
    Ok(Entries { there, back })
}

/// The entries of B.
fn b_entries(alloc: Global, instance: &Instance, free: &Free<'_>) -> Result<Entries, AllocError> {
    let mut there = Vec::new(alloc);
    let mut back = Vec::new(alloc);
    for k in free.locations {
        for l in free.locations {
            let (k, l) = (usize::from(*k), usize::from(*l));
            there.push(b_of(instance, k, l))?;
            back.push(b_of(instance, l, k))?;
        }
    }
    Ok(Entries { there, back })
}

/// Writes what the duals leave of pairs.
fn fill_pairs(
    alloc: Global,
    instance: &Instance,
    free: &Free<'_>,
    state: &mut State,
) -> Result<(), AllocError> {
    let a = a_entries(alloc, instance, free)?;
    let b = b_entries(alloc, instance, free)?;
    let mut own = vec![in alloc; 0; state.m]?;
    for i in 0..state.m {
        for k in 0..state.m {
            fill_block(&a, &b, i, k, &mut own, state);
        }
    }
    Ok(())
}

/// Writes the block of facility number `i` at location number `k`.
fn fill_block(a: &Entries, b: &Entries, i: usize, k: usize, own: &mut [i64], state: &mut State) {
    let m = state.m;
    let square = m.wrapping_mul(m);
    let place = i.wrapping_mul(m).wrapping_add(k);
    gather(&state.beta, place, square, own);
    let block = row_of_mut(&mut state.pairs, square, place);
    let (there, back) = (row_of(&b.there, m, k), row_of(&b.back, m, k));
    for j in 0..m {
        let entry = i.wrapping_mul(m).wrapping_add(j);
        let row = row_of_mut(block, m, j);
        combine(row, at(&a.there, entry), there, at(&a.back, entry), back);
        take(
            row,
            at(&state.alpha, j.wrapping_mul(square).wrapping_add(place)),
            own,
        );
    }
    take(block, 0, row_of(&state.alpha, square, i));
    take(block, 0, row_of(&state.beta, square, k));
}
