//! Soft sweeps: block coordinate ascent on the dual of the level-1 reformulation with entropy, the analogue of
//! Sinkhorn's scaling for the assignment problem (Cuturi 2013).
//!
//! At a temperature t a pair has the weight exp(-E / t), where E is its residual under the duals, and a facility at a
//! location the weight exp(-R / t), where R is the residual there. A sweep moves the duals of each facility i at each
//! location k so that the weights of its pairs with each other facility, and with each other location, sum to its own
//! weight.

use crate::state::State;
use crate::weights::{
    absorb, add_times, at, copy, divide, dot, gather, limited, limited_log, log_of_product,
    multiply, multiply_limited, normalize, put, row_of, row_of_mut, scatter, write_weights,
};
use std::alloc::{AllocError, Global};
use std::num::{nearest_i64_to_f64, saturating_f64_to_i64};

/// A number for each dual: for other facilities by `j`, `i` and `k`, for other locations by `l`, `i` and `k`.
#[derive(Drop)]
struct Layers {
    alpha: Vec<f64>,
    beta: Vec<f64>,
}

/// What a sweep needs for one facility at one location.
#[derive(Drop)]
struct Block {
    /// The weights of its pairs, except its own factors.
    weights: Vec<f64>,
    /// Its factor for each facility.
    rows: Vec<f64>,
    /// Its factor for each location.
    columns: Vec<f64>,
    /// Sums of weights.
    sums: Vec<f64>,
}

/// What soft sweeps work on.
#[derive(Drop)]
pub struct Sweeps {
    m: usize,
    /// How many facilities are free.
    count: f64,
    temperature: f64,
    /// The weights of pairs when the temperature changed last, listed as the pairs of a state are.
    kernel: Vec<f64>,
    /// What had been added to the duals by then.
    moves: Layers,
    /// The exponentials of what was added since, divided by the temperature.
    factors: Layers,
    /// The logarithms of the weights of facilities at locations.
    logs: Vec<f64>,
    block: Block,
}

impl Layers {
    /// The same number for each dual.
    fn with_size(alloc: Global, m: usize, number: f64) -> Result<Layers, AllocError> {
        let cube = m.wrapping_mul(m).wrapping_mul(m);
        Ok(Layers {
            alpha: vec![in alloc; number; cube]?,
            beta: vec![in alloc; number; cube]?,
        })
    }
}

impl Block {
    /// Lists for `m` free facilities.
    fn with_size(alloc: Global, m: usize) -> Result<Block, AllocError> {
        Ok(Block {
            weights: vec![in alloc; 0.0; m.wrapping_mul(m)]?,
            rows: vec![in alloc; 0.0; m]?,
            columns: vec![in alloc; 0.0; m]?,
            sums: vec![in alloc; 0.0; m]?,
        })
    }
}

impl Sweeps {
    /// From what is left in a state, before the first temperature is set.
    pub fn new(alloc: Global, state: &State) -> Result<Sweeps, AllocError> {
        let m = state.m;
        let square = m.wrapping_mul(m);
        let mut logs = vec![in alloc; 0.0; square]?;
        negate(&state.matrix, &mut logs);
        Ok(Sweeps {
            m,
            count: nearest_i64_to_f64(i64::try_from(m).unwrap_or(1)),
            temperature: 1.0,
            kernel: vec![in alloc; 0.0; square.wrapping_mul(square)]?,
            moves: Layers::with_size(alloc, m, 0.0)?,
            factors: Layers::with_size(alloc, m, 1.0)?,
            logs,
            block: Block::with_size(alloc, m)?,
        })
    }

    /// Sets the temperature.
    pub fn set_temperature(&mut self, state: &State, temperature: f64) {
        self.absorb_factors();
        let ratio = self.temperature / temperature;
        for log in &mut self.logs {
            *log = limited_log(*log * ratio);
        }
        self.temperature = temperature;
        for i in 0..self.m {
            for k in 0..self.m {
                self.fill_kernel(state, i, k);
            }
        }
    }

    /// Writes the weights of the pairs of facility number `i` at location number `k` with later facilities, there and
    /// where the other one looks for them.
    fn fill_kernel(&mut self, state: &State, i: usize, k: usize) {
        let m = self.m;
        let square = m.wrapping_mul(m);
        let place = i.wrapping_mul(m).wrapping_add(k);
        gather(&self.moves.beta, place, square, &mut self.block.columns);
        let left = assign_dual::places::row_of(&state.pairs, square, place);
        for j in i.wrapping_add(1)..m {
            write_weights(
                &mut self.block.sums,
                assign_dual::places::row_of(left, m, j),
                at(
                    &self.moves.alpha,
                    j.wrapping_mul(square).wrapping_add(place),
                ),
                &self.block.columns,
                row_of(row_of(&self.moves.alpha, square, i), m, j),
                row_of(row_of(&self.moves.beta, square, k), m, j),
                self.temperature,
            );
            put(&mut self.block.sums, k, 0.0);
            let row = place.wrapping_mul(m).wrapping_add(j);
            copy(&self.block.sums, row_of_mut(&mut self.kernel, m, row));
            let first = j.wrapping_mul(m).wrapping_mul(square).wrapping_add(place);
            scatter(&self.block.sums, first, square, &mut self.kernel);
        }
    }

    /// One sweep over all facilities and locations.
    pub fn sweep(&mut self) {
        for i in 0..self.m {
            for k in 0..self.m {
                self.sweep_block(i, k);
            }
        }
        for _ in 0..2 {
            self.normalize_lines();
        }
    }

    /// Moves the duals of facility number `i` at location number `k`.
    fn sweep_block(&mut self, i: usize, k: usize) {
        let m = self.m;
        let square = m.wrapping_mul(m);
        let place = i.wrapping_mul(m).wrapping_add(k);
        let Block {
            weights,
            rows,
            columns,
            sums,
        } = &mut self.block;
        multiply(
            weights,
            row_of(&self.kernel, square, place),
            row_of(&self.factors.alpha, square, i),
            row_of(&self.factors.beta, square, k),
        );
        gather(&self.factors.alpha, place, square, rows);
        gather(&self.factors.beta, place, square, columns);
        sum_rows(weights, rows, columns, sums);
        let log = balance(i, at(&self.logs, place), self.count, sums, rows);
        sum_columns(weights, rows, columns, sums);
        let log = balance(k, log, self.count, sums, columns);
        put(&mut self.logs, place, log);
        scatter(rows, place, square, &mut self.factors.alpha);
        scatter(columns, place, square, &mut self.factors.beta);
    }

    /// Lets the weights of each facility, and then those of each location, add up to 1.
    fn normalize_lines(&mut self) {
        let m = self.m;
        for i in 0..m {
            normalize(row_of_mut(&mut self.logs, m, i));
        }
        for k in 0..m {
            gather(&self.logs, k, m, &mut self.block.sums);
            normalize(&mut self.block.sums);
            scatter(&self.block.sums, k, m, &mut self.logs);
        }
    }

    /// Adds the factors to the moves.
    fn absorb_factors(&mut self) {
        absorb(
            &mut self.moves.alpha,
            &mut self.factors.alpha,
            self.temperature,
        );
        absorb(
            &mut self.moves.beta,
            &mut self.factors.beta,
            self.temperature,
        );
    }

    /// Adds all that was moved to the duals of a state, rounded to whole numbers.
    pub fn finish(mut self, state: &mut State) {
        self.absorb_factors();
        add_rounded(&self.moves.alpha, &mut state.alpha);
        add_rounded(&self.moves.beta, &mut state.beta);
    }
}

/// Writes the numbers with the other sign.
fn negate(numbers: &[i64], to: &mut [f64]) {
    if numbers.len() != to.len() {
        return;
    }
    for c in 0..to.len() {
        to[c] = -nearest_i64_to_f64(numbers[c]);
    }
}

/// Adds the numbers, rounded.
fn add_rounded(moves: &[f64], duals: &mut [i64]) {
    if moves.len() != duals.len() {
        return;
    }
    for c in 0..duals.len() {
        duals[c] = duals[c].wrapping_add(saturating_f64_to_i64(moves[c].round()));
    }
}

/// The sum of the weights of each row.
fn sum_rows(weights: &[f64], rows: &[f64], columns: &[f64], sums: &mut [f64]) {
    let m = columns.len();
    for j in 0..sums.len() {
        sums[j] = limited(at(rows, j) * dot(row_of(weights, m, j), columns));
    }
}

/// The sum of the weights of each column.
fn sum_columns(weights: &[f64], rows: &[f64], columns: &[f64], sums: &mut [f64]) {
    let m = columns.len();
    sums.fill(0.0);
    for j in 0..rows.len() {
        add_times(sums, rows[j], row_of(weights, m, j));
    }
    multiply_limited(sums, columns);
}

/// Moves the duals of a facility at a location whose weight has a given logarithm, for other facilities or for other
/// locations, so that each of the sums but that of number `own` becomes its weight, and returns the logarithm of its
/// weight then.
fn balance(own: usize, log: f64, count: f64, sums: &mut [f64], factors: &mut [f64]) -> f64 {
    put(sums, own, 1.0);
    let mean = limited_log((log + log_of_product(sums)) / count);
    divide(factors, mean.exp(), sums);
    put(factors, own, 1.0);
    mean
}
