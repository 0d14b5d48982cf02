//! Rows of floating-point numbers. Rows of unequal lengths are left unchanged.

use std::num::nearest_i64_to_f64;

/// The greatest logarithm of a weight or of its inverse, so that products of eight weights stay within range.
const MOST_LOG: f64 = 80.0;

/// Row `r` of rows of `n` numbers.
pub fn row_of(numbers: &[f64], n: usize, r: usize) -> &[f64] {
    let start = r.wrapping_mul(n);
    match numbers.get(start..start.wrapping_add(n)) {
        Some(row) => row,
        None => &[],
    }
}

/// Row `r` of rows of `n` numbers.
pub fn row_of_mut(numbers: &mut [f64], n: usize, r: usize) -> &mut [f64] {
    let start = r.wrapping_mul(n);
    match numbers.get_mut(start..start.wrapping_add(n)) {
        Some(row) => row,
        None => &mut [],
    }
}

/// The number at a position; 0 if there is none.
pub fn at(numbers: &[f64], place: usize) -> f64 {
    match numbers.get(place) {
        Some(number) => *number,
        None => 0.0,
    }
}

/// Writes the number at a position.
pub fn put(numbers: &mut [f64], place: usize, number: f64) {
    if let Some(there) = numbers.get_mut(place) {
        *there = number;
    }
}

/// Reads the numbers at positions that begin at `start` and are `step` apart.
pub fn gather(from: &[f64], start: usize, step: usize, to: &mut [f64]) {
    let mut place = start;
    for number in to.iter_mut() {
        *number = at(from, place);
        place = place.wrapping_add(step);
    }
}

/// Writes the numbers to positions that begin at `start` and are `step` apart.
pub fn scatter(from: &[f64], start: usize, step: usize, to: &mut [f64]) {
    let mut place = start;
    for number in from {
        put(to, place, *number);
        place = place.wrapping_add(step);
    }
}

/// Copies the numbers.
pub fn copy(from: &[f64], to: &mut [f64]) {
    if from.len() != to.len() {
        return;
    }
    for c in 0..to.len() {
        to[c] = from[c];
    }
}

/// Makes each number the product of those of three rows.
pub fn multiply(to: &mut [f64], xs: &[f64], ys: &[f64], zs: &[f64]) {
    if xs.len() != to.len() || ys.len() != to.len() || zs.len() != to.len() {
        return;
    }
    for c in 0..to.len() {
        to[c] = xs[c] * ys[c] * zs[c];
    }
}

/// Adds the numbers of a row, each times `factor`.
pub fn add_times(to: &mut [f64], factor: f64, xs: &[f64]) {
    if xs.len() != to.len() {
        return;
    }
    for c in 0..to.len() {
        to[c] += factor * xs[c];
    }
}

/// The dot product of two rows, computed for each half separately so that the two sums run in parallel.
pub fn dot(xs: &[f64], ys: &[f64]) -> f64 {
    if xs.len() != ys.len() {
        return 0.0;
    }
    let half = xs.len() / 2;
    let mut front = 0.0;
    let mut back = 0.0;
    for c in 0..half {
        front += xs[c] * ys[c];
        back += xs[half + c] * ys[half + c];
    }
    if half + half < xs.len() {
        back += xs[half + half] * ys[half + half];
    }
    front + back
}

/// A number within the range of weights.
pub fn limited(weight: f64) -> f64 {
    // exp(-80) and exp(80)
    weight.max(1.804851387845415e-35).min(5.54062238439351e34)
}

/// A logarithm within the range of those of weights.
pub fn limited_log(log: f64) -> f64 {
    log.max(-MOST_LOG).min(MOST_LOG)
}

/// Multiplies each number by one of another row, within the range of weights.
pub fn multiply_limited(numbers: &mut [f64], xs: &[f64]) {
    if xs.len() != numbers.len() {
        return;
    }
    for c in 0..numbers.len() {
        numbers[c] = limited(numbers[c] * xs[c]);
    }
}

/// The logarithm of the product of weights.
pub fn log_of_product(weights: &[f64]) -> f64 {
    let mut log = 0.0;
    for part in weights.chunks(8) {
        log += product(part).ln();
    }
    log
}

/// The product of the numbers.
fn product(numbers: &[f64]) -> f64 {
    let mut product = 1.0;
    for number in numbers {
        product *= *number;
    }
    product
}

/// Multiplies each number by `weight`, divided by one of another row.
pub fn divide(numbers: &mut [f64], weight: f64, xs: &[f64]) {
    if xs.len() != numbers.len() {
        return;
    }
    for c in 0..numbers.len() {
        numbers[c] *= weight / xs[c];
    }
}

/// Takes a number from all logarithms, so that their weights add up to 1.
pub fn normalize(logs: &mut [f64]) {
    let mut greatest = -MOST_LOG;
    for log in logs.iter() {
        greatest = greatest.max(*log);
    }
    let mut sum = 0.0;
    for log in logs.iter() {
        sum += (*log - greatest).exp();
    }
    let whole = greatest + sum.ln();
    for log in logs.iter_mut() {
        *log -= whole;
    }
}

/// Adds to each move the logarithm of its factor, times the temperature, and makes the factor 1.
pub fn absorb(moves: &mut [f64], factors: &mut [f64], temperature: f64) {
    if factors.len() != moves.len() {
        return;
    }
    for c in 0..moves.len() {
        moves[c] += temperature * factors[c].ln();
        factors[c] = 1.0;
    }
}

/// Writes the weights of a row of pairs: the exponentials of what is left of them after all moves, divided by the
/// temperature.
pub fn write_weights(
    to: &mut [f64],
    left: &[i64],
    own: f64,
    columns: &[f64],
    alpha: &[f64],
    beta: &[f64],
    temperature: f64,
) {
    let m = to.len();
    if left.len() != m || columns.len() != m || alpha.len() != m || beta.len() != m {
        return;
    }
    for c in 0..to.len() {
        let moved = own + columns[c] + alpha[c] + beta[c];
        to[c] = weight((moved - nearest_i64_to_f64(left[c])) / temperature);
    }
}

/// The weight of a logarithm, within the range of weights.
fn weight(log: f64) -> f64 {
    if log < -MOST_LOG {
        limited(0.0)
    } else {
        log.min(MOST_LOG).exp()
    }
}
