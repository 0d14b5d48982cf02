//! The cost change when two facilities are exchanged, from rows of 32 bits read from left to right.

ghost use Rattle.std.specs.Prelude.{◌≡◌, ◌*◌, ◌^◌, ◌<◌, ◌≤◌, ◌+ℤ◌, ◌-ℤ◌, ◌*ℤ◌, IsTrue, pos, slice_index_or, unsigned_abs};
ghost use Rattle.qap_cost.specs.Range.{InRange};
ghost use Rattle.qap_cost.specs.Sum.{sum_to};
ghost use Rattle.qap_improve.specs.Rows.{AreRowsWithin, change_by_rows, crossed, crossed_with};

/// The rows of two facilities in a table of flows and in one of distances.
#[derive(Clone, Copy)]
pub(crate) struct Rows<'a> {
    /// How many entries each has.
    pub size: usize,
    pub flow_first: &'a [i32],
    pub flow_second: &'a [i32],
    pub distance_first: &'a [i32],
    pub distance_second: &'a [i32],
}

/// What the cost changes by when facilities `r` and `s` exchange their locations, where these are their rows in the
/// tables and in the transposed ones.
///
/// The sum is made in 64 bits where the entries are known to be small, so that terms are added side by side.
pub(crate) fn change_of(there: &Rows, back: &Rows, are_small: bool, r: usize, s: usize) -> i128
    requires few { there.now.size ≤ 256 }
    requires there { AreRowsWithin (10 ^ 9) there.now.size there.now }
    requires back { AreRowsWithin (10 ^ 9) there.now.size back.now }
    requires there_small { IsTrue are_small → AreRowsWithin (5 * 10 ^ 7) there.now.size there.now }
    requires back_small { IsTrue are_small → AreRowsWithin (5 * 10 ^ 7) there.now.size back.now }
    requires first { r < there.now.size }
    requires second { s < there.now.size }
    ensures value { result ≡ change_by_rows there.now.size there.now back.now r s }
    ensures bounded { unsigned_abs result ≤ 259 * (8 * 10 ^ 18) }
{
    let with_all = sum_of(there, back, are_small);
    let with_first = product_with(there, back, r);
    let with_second = product_with(there, back, s);
    let between = product_between(there, r, s);
    with_all - i128::from(with_first) - i128::from(with_second) + i128::from(between)
}

/// The sum of `product_with` over all facilities, `r` and `s` too.
fn sum_of(there: &Rows, back: &Rows, are_small: bool) -> i128
    requires few { there.now.size ≤ 256 }
    requires there { AreRowsWithin (10 ^ 9) there.now.size there.now }
    requires back { AreRowsWithin (10 ^ 9) there.now.size back.now }
    requires there_small { IsTrue are_small → AreRowsWithin (5 * 10 ^ 7) there.now.size there.now }
    requires back_small { IsTrue are_small → AreRowsWithin (5 * 10 ^ 7) there.now.size back.now }
    ensures value { result ≡ sum_to (crossed_with there.now back.now) there.now.size }
    ensures bounded { unsigned_abs result ≤ 256 * (8 * 10 ^ 18) }
{
    if are_small {
        i128::from(small_sum(there, back))
    } else {
        wide_sum(there, back)
    }
}

/// Likewise for small entries, in 64 bits.
fn small_sum(there: &Rows, back: &Rows) -> i64
    requires few { there.now.size ≤ 256 }
    requires there { AreRowsWithin (5 * 10 ^ 7) there.now.size there.now }
    requires back { AreRowsWithin (5 * 10 ^ 7) there.now.size back.now }
    ensures value { result ≡ sum_to (crossed_with there.now back.now) there.now.size }
    ensures bounded { unsigned_abs result ≤ 256 * (2 * 10 ^ 16) }
{
    let mut total = 0;
    for k in 0..there.size {
        let with_each = product_with(there, back, k);
        total += with_each;
    }
    total
}

/// Likewise for any entries.
fn wide_sum(there: &Rows, back: &Rows) -> i128
    requires few { there.now.size ≤ 256 }
    requires there { AreRowsWithin (10 ^ 9) there.now.size there.now }
    requires back { AreRowsWithin (10 ^ 9) there.now.size back.now }
    ensures value { result ≡ sum_to (crossed_with there.now back.now) there.now.size }
    ensures bounded { unsigned_abs result ≤ 256 * (8 * 10 ^ 18) }
{
    let mut total = 0;
    for k in 0..there.size {
        let with_each = product_with(there, back, k);
        total += i128::from(with_each);
    }
    total
}

/// What the cost between facility `k` and the two changes by, where `k` is neither.
fn product_with(there: &Rows, back: &Rows, k: usize) -> i64
    requires there { AreRowsWithin (10 ^ 9) there.now.size there.now }
    requires back { AreRowsWithin (10 ^ 9) there.now.size back.now }
    requires place { k < there.now.size }
    ensures value { result ≡ crossed_with there.now back.now k }
    ensures bounded { unsigned_abs result ≤ 8 * 10 ^ 18 }
{
    let to_both = product_at(back, k, k);
    let from_both = product_at(there, k, k);
    to_both + from_both
}

/// What the cost of the two, with themselves and each other, changes by.
fn product_between(there: &Rows, r: usize, s: usize) -> i64
    requires there { AreRowsWithin (10 ^ 9) there.now.size there.now }
    requires first { r < there.now.size }
    requires second { s < there.now.size }
    ensures value { result ≡ crossed there.now r s +ℤ crossed there.now s r }
    ensures bounded { unsigned_abs result ≤ 8 * 10 ^ 18 }
{
    let own = product_at(there, r, s);
    let mutual = product_at(there, s, r);
    own + mutual
}

/// The difference of two flows times that of two distances.
fn product_at(rows: &Rows, i: usize, j: usize) -> i64
    requires rows { AreRowsWithin (10 ^ 9) rows.now.size rows.now }
    requires first { i < rows.now.size }
    requires second { j < rows.now.size }
    ensures value { result ≡ crossed rows.now i j }
    ensures bounded { unsigned_abs result ≤ 4 * 10 ^ 18 }
{
    let flow = less(rows.flow_first[i], rows.flow_second[j]);
    let distance = less(rows.distance_second[j], rows.distance_first[i]);
    product(flow, distance)
}

/// How the flows of the two with facility `k` differ.
pub(crate) fn flow_contrast(rows: &Rows, k: usize) -> i64
    requires rows { AreRowsWithin (10 ^ 9) rows.now.size rows.now }
    requires place { k < rows.now.size }
    ensures value { result ≡ slice_index_or rows.now.flow_first.now k (pos 0) -ℤ slice_index_or rows.now.flow_second.now k (pos 0) }
    ensures bounded { unsigned_abs result ≤ 2 * 10 ^ 9 }
{
    i64::from(less(rows.flow_first[k], rows.flow_second[k]))
}

/// How their distances differ.
pub(crate) fn distance_contrast(rows: &Rows, k: usize) -> i64
    requires rows { AreRowsWithin (10 ^ 9) rows.now.size rows.now }
    requires place { k < rows.now.size }
    ensures value { result ≡ slice_index_or rows.now.distance_first.now k (pos 0) -ℤ slice_index_or rows.now.distance_second.now k (pos 0) }
    ensures bounded { unsigned_abs result ≤ 2 * 10 ^ 9 }
{
    i64::from(less(rows.distance_first[k], rows.distance_second[k]))
}

/// The difference of two entries, which fits 32 bits.
fn less(x: i32, y: i32) -> i32
    requires left { InRange x }
    requires right { InRange y }
    ensures value { result ≡ x -ℤ y }
    ensures bounded { unsigned_abs result ≤ 2 * 10 ^ 9 }
{
    x - y
}

/// The product of two differences of entries, which fits 64 bits.
fn product(x: i32, y: i32) -> i64
    requires left { unsigned_abs x ≤ 2 * 10 ^ 9 }
    requires right { unsigned_abs y ≤ 2 * 10 ^ 9 }
    ensures value { result ≡ x *ℤ y }
    ensures bounded { unsigned_abs result ≤ 4 * 10 ^ 18 }
{
    i64::from(x) * i64::from(y)
}
