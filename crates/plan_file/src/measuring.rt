//! The source of a plan's distances.

ghost use Rattle.std.specs.Prelude.{IfErr, IfOk, OnOk, codes};
ghost use Rattle.toml.specs.Data.{get_member};
ghost use Rattle.toml.specs.View.{table_view};
ghost use Rattle.plan_file.specs.Keys.{HasNone, HasSome, HasText};
ghost use Rattle.plan_file.specs.Plan.{IsFaultOf, SaysDecimals, SaysDistances, SaysMetric};

use crate::error::PlanError;
use crate::lookup::{number_in, value_at};
use crate::metric::Metric;
use crate::source::Distances;
use crate::values::{neither_of, text_of};
use std::alloc::Global;
use toml::Table;

/// How many decimals Euclidean distances keep where a plan doesn't say.
const DECIMALS: u32 = 2;

/// Where the distances come from.
pub fn distances_of(alloc: Global, table: &Table) -> Result<Distances, PlanError>
    ensures distances { IfOk result (SaysDistances (table_view table.now)) }
    ensures refused { IfErr result (IsFaultOf (table_view table.now)) }
{
    let matrix = text_of(alloc, table, "distances")?;
    let places = text_of(alloc, table, "places")?;
    match (matrix, places) {
        (Some(_), Some(_)) => Err(PlanError::BothKeys {
            key: "distances",
            other: "places",
        }),
        (None, None) => Err(neither_of(table, "distances", "places")),
        (Some(file), None) => {
            check_unmeasured(table)?;
            Ok(Distances::Matrix(file))
        }
        (None, Some(file)) => Ok(Distances::Places(file, metric_of(alloc, table)?)),
    }
}

/// Checks that a plan without places has no keys for measuring.
fn check_unmeasured(table: &Table) -> Result<(), PlanError>
    requires { HasNone (table_view table.now) (codes "places") }
    ensures none { OnOk result (HasNone (table_view table.now) (codes "metric") × HasNone (table_view table.now) (codes "decimals")) }
    ensures refused { IfErr result (IsFaultOf (table_view table.now)) }
{
    check_none(table, "metric", "places")?;
    check_none(table, "decimals", "places")
}

/// Checks that a key is missing, as the one that it goes with is.
fn check_none(table: &Table, key: &'static str, other: &'static str) -> Result<(), PlanError>
    requires { HasNone (table_view table.now) other.now }
    ensures none { OnOk result (HasNone (table_view table.now) key.now) }
    ensures refused { IfErr result (IsFaultOf (table_view table.now)) }
{
    match value_at(table, key) {
        Some(_) => Err(PlanError::LoneKey { key, other }),
        None => Ok(()),
    }
}

/// How distances are measured, if there are places.
fn metric_of(alloc: Global, table: &Table) -> Result<Metric, PlanError>
    requires { HasSome (table_view table.now) (codes "places") }
    ensures metric { IfOk result (SaysMetric (table_view table.now)) }
    ensures refused { IfErr result (IsFaultOf (table_view table.now)) }
{
    let Some(word) = text_of(alloc, table, "metric")? else {
        return Err(PlanError::MissingKey {
            key: "metric",
            other: "places",
        });
    };
    if word.as_str() == "euclidean" {
        return Ok(Metric::Euclidean(decimals_of(table)?));
    }
    if word.as_str() == "rectilinear" {
        check_exact(table, "rectilinear")?;
        return Ok(Metric::Rectilinear);
    }
    if word.as_str() == "squared" {
        check_exact(table, "squared")?;
        return Ok(Metric::Squared);
    }
    Err(PlanError::OtherMetric { found: word })
}

/// Checks that no number of decimals is given, as the metric's distances are exact.
fn check_exact(table: &Table, metric: &'static str) -> Result<(), PlanError>
    requires { HasText (table_view table.now) (codes "metric") metric.now }
    ensures none { OnOk result (HasNone (table_view table.now) (codes "decimals")) }
    ensures refused { IfErr result (IsFaultOf (table_view table.now)) }
{
    match value_at(table, "decimals") {
        Some(_) => Err(PlanError::ExactMetric { metric }),
        None => Ok(()),
    }
}

/// How many decimals are kept.
fn decimals_of(table: &Table) -> Result<u32, PlanError>
    ensures decimals { IfOk result (SaysDecimals (get_member (codes "decimals") (table_view table.now))) }
    ensures refused { IfErr result (IsFaultOf (table_view table.now)) }
{
    let Some(value) = value_at(table, "decimals") else {
        return Ok(DECIMALS);
    };
    let Some(decimals) = number_in(value) else {
        return Err(PlanError::NoDecimals);
    };
    if decimals < 0 || decimals > 9 {
        return Err(PlanError::NoDecimals);
    }
    Ok(decimals as u32)
}
