//! Facilities at locations, with fast access to the cost change of an exchange (Burkard and Rendl 1984).
//!
//! The flows and the distances are in tables in the order of the facilities, beside their transposes, so that a
//! difference reads eight rows from left to right.

ghost use Rattle.std.specs.Prelude.{◌≡◌, ◌≢◌, ◌*◌, ◌^◌, ◌<◌, ◌≤◌, ◌+ℤ◌, IfOk, length, unsigned_abs};
ghost use Rattle.qap_cost.specs.Instance.{IsInstance};
ghost use Rattle.qap_cost.specs.Objective.{Permutes, cost_of};
ghost use Rattle.qap_cost.specs.Row.{IsRow};
ghost use Rattle.qap_improve.specs.Arrangement.{IsArrangement};
ghost use Rattle.qap_improve.specs.Exchange.{exchanging};
ghost use Rattle.qap_improve.specs.Rows.{AreRowsOf, AreRowsWithin};

use crate::facility_table::{Content, exchange_in, new_table};
use crate::rows::{Rows, change_of};
use crate::small::has_small_entries;
use qap_cost::Instance;
use std::alloc::{AllocError, Global};

/// The locations of the facilities, and the tables that belong to them.
#[derive(Drop)]
pub(crate) struct Arrangement {
    pub locations: Vec<u16>,
    flows: Vec<i32>,
    flows_back: Vec<i32>,
    distances: Vec<i32>,
    distances_back: Vec<i32>,
    are_small: bool,
}

/// That of the facilities at these locations. Takes time in n^2 for n facilities.
pub(crate) fn arranged(
    alloc: Global,
    instance: &Instance,
    locations: &[u16],
) -> Result<Arrangement, AllocError>
    requires { Permutes instance.now locations.now }
    ensures arrangement { IfOk result (IsArrangement instance.now) }
    ensures locations { IfOk result (λ x. x.locations.items ≡ locations.now) }
{
    Ok(Arrangement {
        locations: Vec::from_slice(alloc, locations)?,
        flows: new_table(alloc, instance, locations, Content::Flows)?,
        flows_back: new_table(alloc, instance, locations, Content::FlowsBack)?,
        distances: new_table(alloc, instance, locations, Content::Distances)?,
        distances_back: new_table(alloc, instance, locations, Content::DistancesBack)?,
        are_small: has_small_entries(instance),
    })
}

/// What the cost changes by when facilities `r` and `s` exchange their locations. Takes time in n.
pub(crate) fn change_at(instance: &Instance, arrangement: &Arrangement, r: usize, s: usize) -> i128
    requires arrangement { IsArrangement instance.now arrangement.now }
    requires first { r < instance.now.size }
    requires second { s < instance.now.size }
    requires two { r ≢ s }
    ensures value { cost_of instance.now arrangement.now.locations.items +ℤ result ≡ cost_of instance.now (exchanging arrangement.now.locations.items r s) }
    ensures bounded { unsigned_abs result ≤ 259 * (8 * 10 ^ 18) }
{
    let there = rows_there(instance, arrangement, r, s);
    let back = rows_back(instance, arrangement, r, s);
    change_of(&there, &back, arrangement.are_small, r, s)
}

/// The rows of `r` and `s` in the tables.
pub(crate) fn rows_there<'a>(
    instance: &Instance,
    arrangement: &'a Arrangement,
    r: usize,
    s: usize,
) -> Rows<'a>
    requires arrangement { IsArrangement instance.now arrangement.now }
    requires first { r < instance.now.size }
    requires second { s < instance.now.size }
    ensures rows { AreRowsOf instance.now.size arrangement.now.flows.items arrangement.now.distances.items r s result }
    ensures within { AreRowsWithin (10 ^ 9) result.size result }
    ensures instance { IsInstance instance.now }
{
    let n = instance.size();
    rows_of(n, &arrangement.flows, &arrangement.distances, r, s)
}

/// The rows of `r` and `s` in the transposed tables.
pub(crate) fn rows_back<'a>(
    instance: &Instance,
    arrangement: &'a Arrangement,
    r: usize,
    s: usize,
) -> Rows<'a>
    requires arrangement { IsArrangement instance.now arrangement.now }
    requires first { r < instance.now.size }
    requires second { s < instance.now.size }
    ensures rows { AreRowsOf instance.now.size arrangement.now.flows_back.items arrangement.now.distances_back.items r s result }
    ensures within { AreRowsWithin (10 ^ 9) result.size result }
{
    let n = instance.size();
    rows_of(
        n,
        &arrangement.flows_back,
        &arrangement.distances_back,
        r,
        s,
    )
}

/// The rows of `r` and `s` in two n by n tables.
fn rows_of<'a>(n: usize, flows: &'a [i32], distances: &'a [i32], r: usize, s: usize) -> Rows<'a>
    requires flows { length flows.now ≡ n * n }
    requires distances { length distances.now ≡ n * n }
    requires first { r < n }
    requires second { s < n }
    ensures { AreRowsOf n flows.now distances.now r s result }
{
    Rows {
        size: n,
        flow_first: row(n, flows, r),
        flow_second: row(n, flows, s),
        distance_first: row(n, distances, r),
        distance_second: row(n, distances, s),
    }
}

/// Row `i` of an n by n table.
fn row(n: usize, table: &[i32], i: usize) -> &[i32]
    requires count { length table.now ≡ n * n }
    requires row { i < n }
    ensures { IsRow n table.now i result.now }
{
    let start = i * n;
    &table[start..start + n]
}

/// Exchanges the locations of `r` and `s`. Takes time in n.
pub(crate) fn exchange_two(instance: &Instance, arrangement: &mut Arrangement, r: usize, s: usize)
    requires arrangement { IsArrangement instance.now arrangement.old }
    requires first { r < instance.now.size }
    requires second { s < instance.now.size }
    requires two { r ≢ s }
    ensures arrangement { IsArrangement instance.now arrangement.new }
    ensures locations { arrangement.new.locations.items ≡ exchanging arrangement.old.locations.items r s }
{
    let n = instance.size();
    swap(&mut arrangement.locations, r, s);
    exchange_in(n, &mut arrangement.distances, r, s);
    exchange_in(n, &mut arrangement.distances_back, r, s);
}

/// Exchanges two locations.
fn swap(locations: &mut Vec<u16>, r: usize, s: usize)
    requires first { r < length locations.old.items }
    requires second { s < length locations.old.items }
    ensures { locations.new.items ≡ exchanging locations.old.items r s }
{
    locations.swap(r, s);
}
