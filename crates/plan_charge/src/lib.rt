//! What departments cost at their places, as extra facilities of an instance.
//!
//! Beside the products of flows and distances, Koopmans and Beckmann (1957) charge each facility for its location. An
//! instance that has the products alone takes such charges by one more facility for each that pays, fixed at one more
//! location: its flow to the one that pays is the weight of the charges, and the distances from its location are the
//! charges.
#![tactic(auto)]

ghost use Rattle.std.specs.Prelude.{◌<◌, ◌↔◌, ◌⊎◌, IsTrue};

mod charges;
mod extension;
mod forbidden;
mod forbidding;
mod law;
mod node;
mod penalty;
mod restricting;
mod spread;

pub use charges::Charges;
pub use extension::extended;
pub use forbidden::Forbidden;
pub use forbidding::forbid;
pub use law::charges_law;
pub use node::{extended_node, extended_permutation, front};
pub use restricting::{Restricted, restrict, restricted_law};

/// Whether facilities pay for their locations, or may not take some.
pub fn is_restricting(charges: &Charges, forbidden: &Forbidden) -> bool
    ensures { IsTrue result ↔ ((0 < charges.now.count) ⊎ (0 < forbidden.now.count)) }
{
    charges.count > 0 || forbidden.count > 0
}
