//! The distance of two points.

ghost use Rattle.std.specs.Prelude.{◌≡◌, ◌*◌, ◌^◌, ◌<◌, ◌≤◌, unsigned_abs};
ghost use Rattle.plan_table.specs.Decimal.{max_entry};
ghost use Rattle.plan_table.specs.Places.{IsNear};
ghost use Rattle.plan_file.specs.Metric.{IsDistance, IsFine, IsNearestRoot, apart, distance_scale as scale_by, max_coordinate_places, rectilinear as sum_apart, squared as square_apart};

use plan_table::Point;

/// The greatest number of decimals of coordinates, and of Euclidean distances.
pub const MAX_COORDINATE_PLACES: usize = 9;

/// By what the distance of two points is measured.
#[derive(Clone, Copy, Debug, PartialEq, Eq)]
pub enum Metric {
    /// Along the axes: the distance in x plus that in y.
    Rectilinear,
    /// In a straight line, rounded to this many decimals, from 0 to 9.
    Euclidean(u32),
    /// The square of the straight line's length.
    Squared,
}

/// A distance `d` under this metric represents `d` over ten to this power, where a coordinate `c` represents `c /
/// 10^scale`.
pub fn distance_scale(metric: Metric, scale: usize) -> usize
    requires { scale ≤ max_coordinate_places }
    ensures { result ≡ scale_by metric scale }
{
    match metric {
        Metric::Rectilinear => scale,
        Metric::Euclidean(decimals) => decimals as usize,
        Metric::Squared => 2 * scale,
    }
}

/// The distance of two points whose coordinates represent `c / 10^scale`.
pub fn distance(metric: Metric, scale: usize, p: &Point, q: &Point) -> u128
    requires fine { IsFine metric }
    requires scale { scale ≤ max_coordinate_places }
    requires p { IsNear p.now }
    requires q { IsNear q.now }
    ensures { IsDistance metric scale p.now q.now result }
{
    match metric {
        Metric::Rectilinear => u128::from(rectilinear(p, q)),
        Metric::Euclidean(decimals) => nearest_root(squared(p, q), scale, decimals),
        Metric::Squared => u128::from(squared(p, q)),
    }
}

/// How far apart two points lie along the axes.
fn rectilinear(p: &Point, q: &Point) -> u64
    requires p { IsNear p.now }
    requires q { IsNear q.now }
    ensures { result ≡ sum_apart p.now q.now }
{
    apart(p.x, q.x) + apart(p.y, q.y)
}

/// The square of how far apart two points lie in a straight line.
fn squared(p: &Point, q: &Point) -> u64
    requires p { IsNear p.now }
    requires q { IsNear q.now }
    ensures value { result ≡ square_apart p.now q.now }
    ensures small { result ≤ 8 * 10 ^ 18 }
{
    square(apart(p.x, q.x)) + square(apart(p.y, q.y))
}

/// How far apart two coordinates lie.
fn apart(a: i64, b: i64) -> u64
    requires a { unsigned_abs a ≤ max_entry }
    requires b { unsigned_abs b ≤ max_entry }
    ensures value { result ≡ apart a b }
    ensures small { result ≤ 2 * 10 ^ 9 }
{
    a.abs_diff(b)
}

fn square(length: u64) -> u64
    requires { length ≤ 2 * 10 ^ 9 }
    ensures value { result ≡ length * length }
    ensures small { result ≤ 4 * 10 ^ 18 }
{
    length * length
}

/// The whole number nearest to `10^decimals * sqrt(square) / 10^scale`; the larger one of two that are as near.
fn nearest_root(square: u64, scale: usize, decimals: u32) -> u128
    requires square { square ≤ 8 * 10 ^ 18 }
    requires scale { scale ≤ max_coordinate_places }
    requires decimals { decimals ≤ max_coordinate_places }
    ensures { IsNearestRoot square scale decimals result }
{
    let over = power_of_hundred(scale as u32);
    let times = 4 * power_of_hundred(decimals);
    let doubled = (times * u128::from(square) / over).isqrt();
    (doubled + 1) / 2
}

fn power_of_hundred(k: u32) -> u128
    requires { k ≤ max_coordinate_places }
    ensures value { result ≡ 10 ^ (2 * k) }
    ensures positive { 0 < result }
    ensures small { result ≤ 10 ^ 18 }
{
    10_u128.pow(2 * k)
}
