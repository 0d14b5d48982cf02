//! How the tables of a plan are read.

ghost use Rattle.std.specs.Prelude.{IfErr, IfOk};
ghost use Rattle.toml.specs.View.{table_view};
ghost use Rattle.plan_file.specs.Plan.{IsFaultOf, SaysMark, SaysRound, SaysRules, SaysSums, SaysSymmetric};

use crate::error::PlanError;
use crate::lookup::{bool_in, number_in, value_at};
use crate::values::text_of;
use plan_table::{DecimalMark, Rules};
use std::alloc::Global;
use toml::Table;

/// How the tables are read.
pub fn rules_of(alloc: Global, table: &Table) -> Result<Rules, PlanError>
    ensures rules { IfOk result (SaysRules (table_view table.now)) }
    ensures refused { IfErr result (IsFaultOf (table_view table.now)) }
{
    let decimal_mark = mark_of(alloc, table)?;
    let round = round_of(table)?;
    let is_symmetric = is_symmetric(table)?;
    let adds_up = adds_up(alloc, table)?;
    Ok(Rules {
        decimal_mark,
        round,
        is_symmetric,
        adds_up,
    })
}

/// The decimal mark of the tables, where the plan has one.
fn mark_of(alloc: Global, table: &Table) -> Result<Option<DecimalMark>, PlanError>
    ensures mark { IfOk result (SaysMark (table_view table.now)) }
    ensures refused { IfErr result (IsFaultOf (table_view table.now)) }
{
    let Some(word) = text_of(alloc, table, "decimal_mark")? else {
        return Ok(None);
    };
    if word.as_str() == "." {
        return Ok(Some(DecimalMark::Point));
    }
    if word.as_str() == "," {
        return Ok(Some(DecimalMark::Comma));
    }
    Err(PlanError::OtherMark { found: word })
}

/// To how many decimals numbers are rounded, where they are.
fn round_of(table: &Table) -> Result<Option<usize>, PlanError>
    ensures round { IfOk result (SaysRound (table_view table.now)) }
    ensures refused { IfErr result (IsFaultOf (table_view table.now)) }
{
    let Some(value) = value_at(table, "round") else {
        return Ok(None);
    };
    let Some(places) = number_in(value) else {
        return Err(PlanError::NoRound);
    };
    if places < 0 || places > 9 {
        return Err(PlanError::NoRound);
    }
    Ok(Some(places as usize))
}

/// Whether each half of a table completes the other.
fn is_symmetric(table: &Table) -> Result<bool, PlanError>
    ensures symmetric { IfOk result (SaysSymmetric (table_view table.now)) }
    ensures refused { IfErr result (IsFaultOf (table_view table.now)) }
{
    let Some(value) = value_at(table, "symmetric") else {
        return Ok(false);
    };
    match bool_in(value) {
        Some(is_symmetric) => Ok(is_symmetric),
        None => Err(PlanError::NoSymmetric),
    }
}

/// Whether the amounts of a list add up.
fn adds_up(alloc: Global, table: &Table) -> Result<bool, PlanError>
    ensures sums { IfOk result (SaysSums (table_view table.now)) }
    ensures refused { IfErr result (IsFaultOf (table_view table.now)) }
{
    let Some(word) = text_of(alloc, table, "duplicates")? else {
        return Ok(false);
    };
    if word.as_str() == "sum" {
        return Ok(true);
    }
    Err(PlanError::OtherDuplicates { found: word })
}
