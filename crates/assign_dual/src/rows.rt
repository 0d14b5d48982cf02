//! Least numbers and sums of rows.

/// The least number; of none, the greatest there is.
pub fn least(row: &[i64]) -> i64 {
    let mut least = i64::MAX;
    for number in row {
        if *number < least {
            least = *number;
        }
    }
    least
}

/// The place of the least number.
pub fn nearest(distances: &[i64]) -> usize {
    let mut place = 0;
    let mut least = i64::MAX;
    for c in 0..distances.len() {
        if distances[c] < least {
            least = distances[c];
            place = c;
        }
    }
    place
}

/// The sum of the numbers.
pub fn sum(row: &[i64]) -> i64 {
    let mut sum: i64 = 0;
    for number in row {
        sum = sum.wrapping_add(*number);
    }
    sum
}
