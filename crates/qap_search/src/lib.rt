//! The search for a least permutation: its tuples at any moment, and the certificate that they yield.
#![tactic(auto)]

mod certificate;
mod law;
mod node;
mod runs;
mod tuples;
mod worker;

pub use certificate::assembling::assemble;
pub use certificate::error::AssembleError;
pub use certificate::stopped_assembling::assemble_stopped;
pub use law::{
    accepted_law, certificate_law, found_law, opening_law, order_law, replacement_law,
    replacing_law, stopped_law,
};
pub use node::decision::{decide, decide_anew, decide_beside};
pub use node::node_list::read_node;
pub use node::thought::Thought;
pub use runs::alone::solve_alone;
pub use runs::answer::{Answer, Least, SolveError};
pub use runs::clock::Clock;
pub use runs::crew::Crew;
pub use runs::opening::{identity, opening_space};
pub use runs::pace::Pace;
pub use runs::run::Run;
pub use runs::schedule::{Step, play};
pub use runs::threads::{solve, solve_least};
pub use tuples::composing::tuple_of_best;
pub use tuples::templates::{best_template, node_template};
pub use worker::forever_writes::put_forever;
pub use worker::gate::{Always, Gate, Kind};
pub use worker::hand::Hand;
pub use worker::report::{Ended, Report};
