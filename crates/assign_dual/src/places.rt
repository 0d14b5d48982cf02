//! Elements of lists, and rows of lists of rows; a missing one reads as 0, or as no row.

/// Row `r` of rows of `n` numbers.
pub fn row_of(numbers: &[i64], n: usize, r: usize) -> &[i64] {
    let start = r.wrapping_mul(n);
    match numbers.get(start..start.wrapping_add(n)) {
        Some(row) => row,
        None => &[],
    }
}

/// Row `r` of rows of `n` numbers.
pub fn row_of_mut(numbers: &mut [i64], n: usize, r: usize) -> &mut [i64] {
    let start = r.wrapping_mul(n);
    match numbers.get_mut(start..start.wrapping_add(n)) {
        Some(row) => row,
        None => &mut [],
    }
}

/// The first `n` numbers.
pub fn first(numbers: &[i64], n: usize) -> &[i64] {
    match numbers.get(..n) {
        Some(front) => front,
        None => numbers,
    }
}

/// The number at a position.
pub fn at(numbers: &[i64], place: usize) -> i64 {
    match numbers.get(place) {
        Some(number) => *number,
        None => 0,
    }
}

/// Writes the number at a position.
pub fn put(numbers: &mut [i64], place: usize, number: i64) {
    if let Some(there) = numbers.get_mut(place) {
        *there = number;
    }
}

/// Adds to the number at a position.
pub fn add_at(numbers: &mut [i64], place: usize, number: i64) {
    if let Some(there) = numbers.get_mut(place) {
        *there = there.wrapping_add(number);
    }
}

/// The index at a position, if there is one.
pub fn index_of(indices: &[Option<usize>], place: usize) -> Option<usize> {
    match indices.get(place) {
        Some(index) => *index,
        None => None,
    }
}

/// The number, among all, of the one of number `k` among those other than `h`.
pub fn past(h: usize, k: usize) -> usize {
    if k < h { k } else { k.wrapping_add(1) }
}
