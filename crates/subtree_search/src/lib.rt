//! Depth-first search of the whole subtree below a node, under pair duals of that node, and splits of nodes by such
//! searches.
#![tactic(auto)]

mod dives;
mod estimating;
mod ground;
mod images;
mod incumbent;
mod level;
mod line;
mod outcome;
mod path;
mod record;
mod residuals;
mod search;
mod split;
mod stop;
mod text_record;
mod threshold;
mod trial;

pub use estimating::Estimate;
pub use incumbent::Incumbent;
pub use outcome::Outcome;
pub use record::{Record, Silent};
pub use search::{Subtree, SubtreeSearch};
pub use split::OpenChild;
pub use stop::{Never, Stop};
pub use text_record::{Hole, TextRecord};
