//! The numbers that an answer states: the cost of its arrangement, and a lower bound.

ghost use Rattle.std.specs.Prelude.{◌≡◌, ◌⊎◌, ◌<◌, ◌≤◌, ◌^◌, MatchResult, codes, unsigned_abs};
ghost use Rattle.serde_json.specs.View.{view};
ghost use Rattle.plan_check.specs.Answer.{IsBoundStated};
ghost use Rattle.plan_check.specs.Refusal.{HasNoText, IsOtherStatus, StatesNoBound, StatesOtherCost};
ghost use Rattle.plan_check.specs.Stated.{StatesNumber, StatesText, status_of as stated_status};
ghost use Rattle.plan_table.specs.Decimal.{max_number};

use crate::error::AnswerError;
use crate::stated::text_of;
use plan_table::{decimal_text, spelled_number};
use serde_json::Value;
use std::alloc::{AllocError, Global};

/// Checks that this is the cost that is stated.
pub fn stated_cost(
    alloc: Global,
    value: &Value,
    cost: i128,
    scale: usize,
) -> Result<(), AnswerError>
    requires scale { scale < 2 ^ 32 }
    requires small { unsigned_abs cost ≤ max_number }
    ensures { MatchResult result
        (λ _. StatesNumber (view value.now) (codes "cost") cost scale)
        (StatesOtherCost scale (view value.now) cost) }
{
    let stated = text_of(value, "cost")?;
    let Some(number) = spelled_number(stated.as_bytes(), scale) else {
        let cost = cost_text(alloc, cost, scale)?;
        return Err(AnswerError::OtherCost { cost });
    };
    if number != cost {
        let cost = cost_text(alloc, cost, scale)?;
        return Err(AnswerError::OtherCost { cost });
    }
    Ok(())
}

/// The stated bound, if it is no larger than the cost and consistent with the status.
pub fn stated_bound(
    alloc: Global,
    value: &Value,
    cost: i128,
    scale: usize,
) -> Result<i128, AnswerError>
    requires scale { scale < 2 ^ 32 }
    ensures { MatchResult result (IsBoundStated scale (view value.now) cost) (StatesNoBound scale (view value.now) cost) }
{
    let stated = text_of(value, "bound")?;
    let Some(bound) = spelled_number(stated.as_bytes(), scale) else {
        let cost = cost_text(alloc, cost, scale)?;
        return Err(AnswerError::OtherBound { cost });
    };
    if bound > cost {
        let cost = cost_text(alloc, cost, scale)?;
        return Err(AnswerError::OtherBound { cost });
    }
    check_status(value, status_of(bound, cost))?;
    Ok(bound)
}

/// A cost with this many decimals, as it is reported.
pub fn cost_text(alloc: Global, cost: i128, scale: usize) -> Result<String, AllocError>
    requires { scale < 2 ^ 32 }
{
    let digits = decimal_text(alloc, cost, scale)?;
    String::from_str(alloc, std::str::from_utf8(&digits).unwrap_or(""))
}

/// The status of a search which was stopped, or of one that came to its end.
fn status_of(bound: i128, cost: i128) -> &'static str
    ensures { result.now ≡ stated_status bound cost }
{
    if bound < cost { "bounded" } else { "optimal" }
}

/// Checks that this is the status that is stated.
fn check_status(value: &Value, status: &'static str) -> Result<(), AnswerError>
    ensures { MatchResult result
        (λ _. StatesText (view value.now) (codes "status") status.now)
        (λ e. HasNoText (view value.now) (codes "status") e ⊎ IsOtherStatus (view value.now) status.now e) }
{
    let stated = text_of(value, "status")?;
    if *stated.as_bytes() == *status.as_bytes() {
        Ok(())
    } else {
        Err(AnswerError::OtherStatus { status })
    }
}
