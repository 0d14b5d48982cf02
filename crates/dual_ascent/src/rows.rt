//! Sums, differences and copies of rows of numbers. Rows of unequal lengths are left unchanged.

/// Adds a number and those of another row.
pub fn add(row: &mut [i64], own: i64, numbers: &[i64]) {
    if numbers.len() != row.len() {
        return;
    }
    for c in 0..row.len() {
        row[c] = row[c].wrapping_add(own.wrapping_add(numbers[c]));
    }
}

/// Takes away a number and those of another row.
pub fn take(row: &mut [i64], own: i64, numbers: &[i64]) {
    if numbers.len() != row.len() {
        return;
    }
    for c in 0..row.len() {
        row[c] = row[c].wrapping_sub(own.wrapping_add(numbers[c]));
    }
}

/// Makes the row the sum of two rows, each times a number.
pub fn combine(row: &mut [i64], x: i64, xs: &[i64], y: i64, ys: &[i64]) {
    if xs.len() != row.len() || ys.len() != row.len() {
        return;
    }
    for c in 0..row.len() {
        row[c] = x.wrapping_mul(xs[c]).wrapping_add(y.wrapping_mul(ys[c]));
    }
}

/// Copies the numbers.
pub fn copy(from: &[i64], to: &mut [i64]) {
    if from.len() != to.len() {
        return;
    }
    for c in 0..to.len() {
        to[c] = from[c];
    }
}

/// Copies the halves of the numbers, rounded down.
pub fn copy_halves(from: &[i64], to: &mut [i64]) {
    if from.len() != to.len() {
        return;
    }
    for c in 0..to.len() {
        to[c] = from[c] >> 1;
    }
}

/// Copies all numbers but that at place `k`, or their halves, rounded down.
pub fn copy_but(from: &[i64], k: usize, are_halves: bool, to: &mut [i64]) {
    let (Some(before), Some(after)) = (from.get(..k), from.get(k.wrapping_add(1)..)) else {
        return;
    };
    let Some((front, back)) = to.split_at_mut_checked(k) else {
        return;
    };
    if are_halves {
        copy_halves(before, front);
        copy_halves(after, back);
    } else {
        copy(before, front);
        copy(after, back);
    }
}

/// Copies the numbers, with a 0 more at place `k`.
pub fn copy_with_zero(from: &[i64], k: usize, to: &mut [i64]) {
    let Some((before, after)) = from.split_at_checked(k) else {
        return;
    };
    if let Some(front) = to.get_mut(..k) {
        copy(before, front);
    }
    if let Some(zero) = to.get_mut(k) {
        *zero = 0;
    }
    if let Some(back) = to.get_mut(k.wrapping_add(1)..) {
        copy(after, back);
    }
}

/// Writes the numbers to positions that begin at `start` and are `step` apart.
pub fn scatter(from: &[i64], start: usize, step: usize, to: &mut [i64]) {
    let mut place = start;
    for number in from {
        if let Some(there) = to.get_mut(place) {
            *there = *number;
        }
        place = place.wrapping_add(step);
    }
}

/// Adds the numbers to those at positions that begin at `start` and are `step` apart.
pub fn add_scattered(from: &[i64], start: usize, step: usize, to: &mut [i64]) {
    let mut place = start;
    for number in from {
        if let Some(there) = to.get_mut(place) {
            *there = there.wrapping_add(*number);
        }
        place = place.wrapping_add(step);
    }
}

/// Reads the numbers at positions that begin at `start` and are `step` apart.
pub fn gather(from: &[i64], start: usize, step: usize, to: &mut [i64]) {
    let mut place = start;
    for number in to.iter_mut() {
        *number = match from.get(place) {
            Some(there) => *there,
            None => 0,
        };
        place = place.wrapping_add(step);
    }
}

/// Takes from each number its share, the number divided by `parts`, that many times, and writes the shares.
pub fn share(numbers: &mut [i64], parts: i64, shares: &mut [i64]) {
    if shares.len() != numbers.len() {
        return;
    }
    for c in 0..numbers.len() {
        let part = match numbers[c].checked_div(parts) {
            Some(part) => part,
            None => 0,
        };
        shares[c] = part;
        numbers[c] = numbers[c].wrapping_sub(part.wrapping_mul(parts));
    }
}

/// The sum of the numbers.
pub fn sum(row: &[i64]) -> i64 {
    let mut sum: i64 = 0;
    for number in row {
        sum = sum.wrapping_add(*number);
    }
    sum
}
