//! Pair duals: the level-1 bound of Adams and Johnson (1994) on the cost of the completions of a node, in compact form.
#![tactic(auto)]

mod child;
mod duals;
mod filling;
mod fitting;
mod kept;
mod law;
mod least;
mod number;
mod pairs;
mod reduced;
mod residuals;
mod scale;
mod start;
mod step;

pub use child::ComputedResiduals;
pub use duals::{MAX_SCALE, PairDuals, are_duals};
pub use fitting::fits;
pub use kept::{KeptResiduals, ResidualMemory};
pub use law::{child_law, closing_law, form_bound_law, pair_duals_law, seats_law};
pub use number::Number;
pub use pairs::residual;
pub use reduced::Reduced;
pub use residuals::Residuals;
pub use scale::is_in_scale;
pub use step::{cost_step, step_law};
