//! How a plan is drawn.

ghost use Rattle.std.specs.Prelude.{IfErr, IfOk};
ghost use Rattle.toml.specs.View.{table_view};
ghost use Rattle.plan_file.specs.Drawing.{SaysDrawing, SaysTitle, SaysY};
ghost use Rattle.plan_file.specs.Plan.{IsFaultOf};

use crate::error::PlanError;
use crate::lookup::value_at;
use crate::source::{Drawing, YAxis};
use crate::values::text_of;
use std::alloc::Global;
use toml::Table;

/// How a plan is drawn.
pub fn drawing_of(alloc: Global, table: &Table) -> Result<Drawing, PlanError>
    ensures drawing { IfOk result (SaysDrawing (table_view table.now)) }
    ensures refused { IfErr result (IsFaultOf (table_view table.now)) }
{
    let title = title_of(alloc, table)?;
    let y = y_of(alloc, table)?;
    Ok(Drawing { title, y })
}

/// The title of pictures and reports, where the plan has one.
fn title_of(alloc: Global, table: &Table) -> Result<Option<String>, PlanError>
    ensures title { IfOk result (SaysTitle (table_view table.now)) }
    ensures refused { IfErr result (IsFaultOf (table_view table.now)) }
{
    text_of(alloc, table, "title")
}

/// The direction of the places' y axis.
fn y_of(alloc: Global, table: &Table) -> Result<YAxis, PlanError>
    ensures y { IfOk result (SaysY (table_view table.now)) }
    ensures refused { IfErr result (IsFaultOf (table_view table.now)) }
{
    let Some(word) = text_of(alloc, table, "y")? else {
        return Ok(YAxis::Up);
    };
    if value_at(table, "places").is_none() {
        return Err(PlanError::LoneKey {
            key: "y",
            other: "places",
        });
    }
    if word.as_str() == "up" {
        return Ok(YAxis::Up);
    }
    if word.as_str() == "down" {
        return Ok(YAxis::Down);
    }
    Err(PlanError::OtherY { found: word })
}
