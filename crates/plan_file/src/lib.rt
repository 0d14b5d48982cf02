//! Plans that name their tables: read from TOML, and turned into an instance with flows between departments and
//! distances between places.
#![tactic(auto)]

mod charges;
mod choosing;
mod distances;
mod drawing;
mod error;
mod fixing;
mod forbidding;
mod keeping;
mod layout;
mod lookup;
mod measuring;
mod metric;
mod names;
mod place;
mod plan;
mod problem;
mod ruling;
mod source;
mod tables;
mod values;

pub use charges::{PlaceCharges, read_charges};
pub use error::{
    ChargesError, ChoicesFault, FixingError, NamesFault, PinsFault, PlanError, ProblemError,
    TablesError,
};
pub use keeping::{ascending, completed, completes, identity, improved_keeping};
pub use layout::{LayoutError, layout_node};
pub use metric::Metric;
pub use place::TextPlace;
pub use plan::read_plan;
pub use problem::problem_of;
pub use source::{Charging, Choice, Distances, Drawing, Flows, Plan, YAxis};
pub use tables::{MAX_PLACES, NamedProblem, read_tables};
