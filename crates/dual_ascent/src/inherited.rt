//! Pair duals of an ancestor, restricted to a node.

use crate::costs::Free;
use crate::state::State;
use assign_dual::places::put;
use pair_duals::PairDuals;
use std::alloc::{AllocError, Global};

/// Replaces the duals of a state by those of an ancestor; leaves them unchanged if the numbers are not those of an
/// ancestor.
pub fn inherit(
    alloc: Global,
    start: &PairDuals<i64>,
    free: &Free<'_>,
    state: &mut State,
) -> Result<(), AllocError> {
    let mut rows = Vec::new(alloc);
    for facility in free.facilities {
        match facility_number(start, usize::from(*facility)) {
            Some(number) => rows.push(number)?,
            None => return Ok(()),
        }
    }
    let mut columns = Vec::new(alloc);
    for location in free.locations {
        match location_number(start, usize::from(*location)) {
            Some(number) => columns.push(number)?,
            None => return Ok(()),
        }
    }
    copy_alpha(start, &rows, &columns, &mut state.alpha);
    copy_beta(start, &rows, &columns, &mut state.beta);
    Ok(())
}

/// The number of a facility among those of pair duals.
fn facility_number(start: &PairDuals<i64>, facility: usize) -> Option<usize> {
    (0..start.free()).find(|i| start.facility(*i) == facility)
}

/// The number of a location among those of pair duals.
fn location_number(start: &PairDuals<i64>, location: usize) -> Option<usize> {
    (0..start.free()).find(|k| start.location(*k) == location)
}

/// Copies the duals for other facilities of these rows and columns.
fn copy_alpha(start: &PairDuals<i64>, rows: &[usize], columns: &[usize], alpha: &mut [i64]) {
    let mut place = 0;
    for j in rows {
        for i in rows {
            for k in columns {
                put(alpha, place, alpha_of(start, *i, *k, *j));
                place = place.wrapping_add(1);
            }
        }
    }
}

/// The dual of the `i`-th facility at the `k`-th location for the `j`-th facility; 0 if that is the same or there is
/// none.
fn alpha_of(start: &PairDuals<i64>, i: usize, k: usize, j: usize) -> i64 {
    let m = start.free();
    if i < m && k < m && j < m && i != j {
        start.alpha(i, k, j)
    } else {
        0
    }
}

/// Copies the duals for other locations of these rows and columns.
fn copy_beta(start: &PairDuals<i64>, rows: &[usize], columns: &[usize], beta: &mut [i64]) {
    let mut place = 0;
    for l in columns {
        for i in rows {
            for k in columns {
                put(beta, place, beta_of(start, *i, *k, *l));
                place = place.wrapping_add(1);
            }
        }
    }
}

/// The dual of the `i`-th facility at the `k`-th location for the `l`-th location; 0 if that is the same or there is
/// none.
fn beta_of(start: &PairDuals<i64>, i: usize, k: usize, l: usize) -> i64 {
    let m = start.free();
    if i < m && k < m && l < m && k != l {
        start.beta(i, k, l)
    } else {
        0
    }
}
