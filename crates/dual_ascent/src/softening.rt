//! Soft sweeps of a state.

ghost use Rattle.std.specs.Prelude.{◌≡◌};

use crate::costs::{Free, fill_left};
use crate::effort::Effort;
use crate::rounds::run_rounds;
use crate::rows::sum;
use crate::state::{State, Workspace};
use crate::sweeps::Sweeps;
use assign_dual::places::{at, row_of};
use qap_cost::{Instance, Partial};
use std::alloc::{AllocError, Global};
use std::num::nearest_i64_to_f64;

/// Moves the duals of a state by soft sweeps, after a hard round that determines the scale of the temperatures.
pub fn soften(
    alloc: Global,
    instance: &Instance,
    node: &Partial,
    free: &Free<'_>,
    effort: &Effort,
    state: &mut State,
    workspace: &mut Workspace,
) -> Result<(), AllocError>
    requires { instance.now.size ≡ node.now.size }
{
    run_rounds(state, workspace, 1);
    let fixed = i64::try_from(node.fixed_cost(instance)).unwrap_or(0);
    let cost = cost_near(state, fixed.wrapping_mul(free.scale));
    run_sweeps(alloc, effort, cost, state)?;
    state.clear_own();
    fill_left(alloc, instance, node, free, state)
}

/// A cost that those of good completions are near to: the bound, unless a sixteenth of the mean cost is further from 0.
fn cost_near(state: &State, fixed: i64) -> f64 {
    let m = state.m;
    let count = nearest_i64_to_f64(i64::try_from(m).unwrap_or(1));
    let bound = nearest_i64_to_f64(fixed.wrapping_add(state.value));
    let single = nearest_i64_to_f64(sum(&state.matrix)) / count;
    let mut pairs = 0.0;
    for i in 0..m {
        for k in 0..m {
            pairs += nearest_i64_to_f64(sum_of_block(state, i, k));
        }
    }
    let mean = bound + single + pairs / (2.0 * count * (count - 1.0));
    bound.abs().max(mean.abs() / 16.0).max(1.0)
}

/// What is left of the pairs with facility number `i` at location number `k`, together.
fn sum_of_block(state: &State, i: usize, k: usize) -> i64 {
    let m = state.m;
    let square = m.wrapping_mul(m);
    let block = row_of(&state.pairs, square, i.wrapping_mul(m).wrapping_add(k));
    let mut total: i64 = 0;
    for j in 0..m {
        if j != i {
            let row = row_of(block, m, j);
            total = total.wrapping_add(sum(row)).wrapping_sub(at(row, k));
        }
    }
    total
}

/// Runs the sweeps, at temperatures that fall by a ratio from time to time.
fn run_sweeps(
    alloc: Global,
    effort: &Effort,
    cost: f64,
    state: &mut State,
) -> Result<(), AllocError> {
    let every = effort.every.max(1);
    let falls = effort.sweeps.saturating_sub(1) / every;
    let ratio = (effort.last / effort.first).powf(1.0 / f64::from(falls.max(1)));
    let mut temperature = effort.first * cost;
    let mut sweeps = Sweeps::new(alloc, state)?;
    for sweep in 0..effort.sweeps {
        if sweep % every == 0 {
            sweeps.set_temperature(state, temperature);
            temperature *= ratio;
        }
        sweeps.sweep();
    }
    sweeps.finish(state);
    Ok(())
}
