//! The line with a bound and a cost.

ghost use Rattle.std.specs.Prelude.{◌≡◌, IfOk, string_bytes};
ghost use Rattle.qap_text.specs.Gap.{gap_line};

use std::alloc::{AllocError, Global};

/// The line that states a bound that no permutation of an instance costs less than, and the cost of one: `gap G C`.
pub fn gap_line(alloc: Global, bound: i128, cost: i128) -> Result<String, AllocError>
    ensures { IfOk result (λ line. string_bytes line ≡ gap_line bound cost) }
{
    format!(in alloc; "gap {bound} {cost}\n")
}
