//! Rounds of dual ascent in integers (Hahn and Grant 1998).

use crate::rows::{add, add_scattered, copy, copy_but, copy_with_zero, scatter, share, take};
use crate::state::{State, Workspace};
use assign_dual::places::{add_at, at, past, row_of, row_of_mut};

/// This many rounds: facilities ascend in the first, descend in the second, and so on.
pub fn run_rounds(state: &mut State, workspace: &mut Workspace, rounds: u32) {
    reduce_matrix(state, workspace);
    for round in 0..rounds {
        run_round(state, workspace, round % 2 == 0);
    }
}

/// Spreads what is left of single facilities over pairs, and collects what their assignments yield.
fn run_round(state: &mut State, workspace: &mut Workspace, is_ascending: bool) {
    spread(state, &mut workspace.shares);
    let m = state.m;
    for step in 0..m {
        let i = if is_ascending { step } else { m - 1 - step };
        for k in 0..m {
            reduce_block(state, workspace, i, k, is_ascending);
        }
    }
    reduce_matrix(state, workspace);
}

/// Takes the duals of its least assignment from the matrix.
fn reduce_matrix(state: &mut State, workspace: &mut Workspace) {
    let value = workspace
        .whole
        .solve(&state.matrix, &mut workspace.rows, &mut workspace.columns);
    take_duals(&mut state.matrix, &workspace.rows, &workspace.columns);
    state.value = state.value.wrapping_add(value);
}

/// Gives each pair its share of what is left of its two facilities.
fn spread(state: &mut State, shares: &mut [i64]) {
    let m = state.m;
    let square = m.wrapping_mul(m);
    let others = i64::try_from(m).unwrap_or(0).wrapping_sub(1);
    share(&mut state.matrix, others, shares);
    for j in 0..m {
        take(row_of_mut(&mut state.alpha, square, j), 0, shares);
    }
    for block in 0..square {
        add(
            row_of_mut(&mut state.pairs, square, block),
            at(shares, block),
            shares,
        );
    }
}

/// Takes the duals of a least assignment from what is left of the pairs with facility number `i` at location number
/// `k`: from all of it with facilities that came before `i` in this round, and from half of it with the others.
///
/// Without the halves, the facilities that come first would take what later ones need.
fn reduce_block(
    state: &mut State,
    workspace: &mut Workspace,
    i: usize,
    k: usize,
    is_ascending: bool,
) {
    let m = state.m;
    let n = m.saturating_sub(1);
    let square = m.wrapping_mul(m);
    let place = i.wrapping_mul(m).wrapping_add(k);
    let left = row_of_mut(&mut state.pairs, square, place);
    copy_others(left, i, k, is_ascending, n, &mut workspace.block);
    let value = workspace.others.solve(
        &workspace.block,
        &mut workspace.other_rows,
        &mut workspace.other_columns,
    );
    add_at(&mut state.matrix, place, value);
    copy_with_zero(&workspace.other_rows, i, &mut workspace.rows);
    copy_with_zero(&workspace.other_columns, k, &mut workspace.columns);
    take_duals(left, &workspace.rows, &workspace.columns);
    copy(left, &mut workspace.left);
    scatter(&workspace.left, place, square, &mut state.pairs);
    add_scattered(&workspace.rows, place, square, &mut state.alpha);
    add_scattered(&workspace.columns, place, square, &mut state.beta);
}

/// Copies a block without row `i` and column `k`: rows that came before row `i` as they are, and the others halved.
fn copy_others(left: &[i64], i: usize, k: usize, is_ascending: bool, n: usize, block: &mut [i64]) {
    let m = n.wrapping_add(1);
    for r in 0..n {
        let j = past(i, r);
        let came_before = if is_ascending { j < i } else { i < j };
        copy_but(row_of(left, m, j), k, !came_before, row_of_mut(block, n, r));
    }
}

/// Takes a number of each row and one of each column from a matrix.
fn take_duals(left: &mut [i64], rows: &[i64], columns: &[i64]) {
    let m = rows.len();
    for j in 0..m {
        take(row_of_mut(left, m, j), rows[j], columns);
    }
}
