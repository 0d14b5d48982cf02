//! A number that divides the cost of every permutation.

ghost use Rattle.std.specs.Prelude.{◌≡◌, ◌<◌, ◌≤◌, ◌*◌, ◌^◌, pos, unsigned_abs, max, if◌then◌else◌};
ghost use Rattle.qap_cost.specs.Instance.{Problem};
ghost use Rattle.pair_duals.specs.CostStep.{DividesCosts, gcd, gcd_of_diagonal, gcd_of_others, gcd_of_row, is_row_mirrored, is_symmetric, product_step, step_of};
ghost use Rattle.pair_duals.specs.Numbers.{number_at};
ghost use Rattle.pair_duals.specs.Reduced.{but};

use qap_cost::Instance;

/// The cost step of an instance: a number that divides the cost of each of its permutations, so that distinct costs
/// differ by at least that much.
///
/// The greatest common divisor of the off-diagonal entries of A, times that of B; if A is symmetric, that of the
/// entries of A times that of the sums `b[k][l] + b[l][k]`, if greater, and if B is symmetric likewise with A and B
/// exchanged; each combined with the divisor of the products of diagonal entries; and 1 if all of these are 0.
pub fn cost_step(instance: &Instance) -> i128
    ensures { result ≡ pos (step_of instance.now) }
{
    let plain = product_step(instance, Numbers::A, Numbers::B);
    let by_a = step_if_symmetric(instance, Numbers::A, Numbers::A, Numbers::SumsOfB);
    let by_b = step_if_symmetric(instance, Numbers::B, Numbers::SumsOfA, Numbers::B);
    i128::from(greater(1, greater(plain, greater(by_a, by_b))))
}

/// The cost step of an instance divides the cost of each of its permutations.
pub fn step_law()
    ensures { (I : Problem) → DividesCosts I (step_of I) }
{}

/// Numbers for each two facilities or locations.
#[derive(Clone, Copy, Drop)]
pub enum Numbers {
    /// The entries of A.
    A,
    /// The entries of B.
    B,
    /// The sums of two entries of A that are opposite across its diagonal.
    SumsOfA,
    /// Those of B.
    SumsOfB,
}

/// The number at `i` and `j`.
fn number(instance: &Instance, numbers: Numbers, i: usize, j: usize) -> i64
    requires i_in { i < instance.now.size }
    requires j_in { j < instance.now.size }
    ensures value { result ≡ number_at instance.now numbers i j }
    ensures range { unsigned_abs result ≤ 2 * 10 ^ 9 }
{
    match numbers {
        Numbers::A => instance.a(i, j),
        Numbers::B => instance.b(i, j),
        Numbers::SumsOfA => instance.a(i, j) + instance.a(j, i),
        Numbers::SumsOfB => instance.b(i, j) + instance.b(j, i),
    }
}

/// The greatest common divisor, which of `x` and 0 is `x`, by Euclid's algorithm.
fn gcd(x: u64, y: u64) -> u64
    ensures { result ≡ gcd x y }
{
    let mut divisor = x;
    let mut rest = y;
    while rest != 0 {
        let next = divisor % rest;
        divisor = rest;
        rest = next;
    }
    divisor
}

/// The greater of two numbers.
fn greater(x: u64, y: u64) -> u64
    ensures { result ≡ max x y }
{
    if x < y { y } else { x }
}

/// The absolute value of the number at `i` and `j`.
fn size_of(instance: &Instance, numbers: Numbers, i: usize, j: usize) -> u64
    requires i_in { i < instance.now.size }
    requires j_in { j < instance.now.size }
    ensures value { result ≡ unsigned_abs (number_at instance.now numbers i j) }
    ensures range { result ≤ 2 * 10 ^ 9 }
{
    number(instance, numbers, i, j).unsigned_abs()
}

/// The absolute value of the number at `i` and `j`; 0 if these are the same.
fn size_of_other(instance: &Instance, numbers: Numbers, i: usize, j: usize) -> u64
    requires i_in { i < instance.now.size }
    requires j_in { j < instance.now.size }
    ensures value { result ≡ unsigned_abs (but i (number_at instance.now numbers i) j) }
    ensures range { result ≤ 2 * 10 ^ 9 }
{
    if j == i {
        0
    } else {
        size_of(instance, numbers, i, j)
    }
}

/// What divides all numbers of row `i` but that on the diagonal.
fn gcd_of_row(instance: &Instance, numbers: Numbers, i: usize) -> u64
    requires { i < instance.now.size }
    ensures value { result ≡ unsigned_abs (gcd_of_row (number_at instance.now numbers) instance.now.size i) }
    ensures range { result ≤ 2 * 10 ^ 9 }
{
    let mut divisor = 0;
    for j in 0..instance.size() {
        divisor = gcd(divisor, size_of_other(instance, numbers, i, j));
    }
    divisor
}

/// What divides all numbers except those on the diagonal.
fn gcd_of_others(instance: &Instance, numbers: Numbers) -> u64
    ensures value { result ≡ gcd_of_others (number_at instance.now numbers) instance.now.size }
    ensures range { result ≤ 2 * 10 ^ 9 }
{
    let mut divisor = 0;
    for i in 0..instance.size() {
        divisor = gcd(divisor, gcd_of_row(instance, numbers, i));
    }
    divisor
}

/// What divides the numbers on the diagonal.
fn gcd_of_diagonal(instance: &Instance, numbers: Numbers) -> u64
    ensures value { result ≡ gcd_of_diagonal (number_at instance.now numbers) instance.now.size }
    ensures range { result ≤ 2 * 10 ^ 9 }
{
    let mut divisor = 0;
    for i in 0..instance.size() {
        divisor = gcd(divisor, size_of(instance, numbers, i, i));
    }
    divisor
}

/// What divides the products of two kinds of numbers, and what facilities cost alone.
fn product_step(instance: &Instance, facilities: Numbers, locations: Numbers) -> u64
    ensures { result ≡ product_step instance.now (number_at instance.now facilities) (number_at instance.now locations) }
{
    let others = gcd_of_others(instance, facilities) * gcd_of_others(instance, locations);
    let alone = gcd_of_diagonal(instance, Numbers::A) * gcd_of_diagonal(instance, Numbers::B);
    gcd(others, alone)
}

/// The same, and 0 if a matrix isn't symmetric.
fn step_if_symmetric(
    instance: &Instance,
    matrix: Numbers,
    facilities: Numbers,
    locations: Numbers,
) -> u64
    ensures { result ≡ (if is_symmetric (number_at instance.now matrix) instance.now.size then product_step instance.now (number_at instance.now facilities) (number_at instance.now locations) else 0) }
{
    if is_symmetric(instance, matrix) {
        product_step(instance, facilities, locations)
    } else {
        0
    }
}

/// Whether the number at `i` and `j` is that at `j` and `i`, for all of them.
fn is_symmetric(instance: &Instance, numbers: Numbers) -> bool
    ensures { result ≡ is_symmetric (number_at instance.now numbers) instance.now.size }
{
    for i in 0..instance.size() {
        if !is_symmetric_row(instance, numbers, i) {
            return false;
        }
    }
    true
}

/// Likewise for row `i`.
fn is_symmetric_row(instance: &Instance, numbers: Numbers, i: usize) -> bool
    requires { i < instance.now.size }
    ensures { result ≡ is_row_mirrored (number_at instance.now numbers) instance.now.size i }
{
    for j in 0..instance.size() {
        if number(instance, numbers, i, j) != number(instance, numbers, j, i) {
            return false;
        }
    }
    true
}
