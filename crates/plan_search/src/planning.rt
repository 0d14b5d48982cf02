//! What a search has found.

ghost use Rattle.std.specs.Prelude.{true, ◌↔◌, ◌≡◌, ◌≤ℤ◌};

use qap_cost::Perm;
use qap_proof::Proof;

/// What a search has found.
#[derive(Drop)]
pub struct Planned {
    /// The best permutation found.
    pub permutation: Perm,
    pub cost: i128,
    /// No permutation that respects what is fixed costs less.
    pub bound: i128,
    /// How many nodes were decided.
    pub nodes: u64,
    /// How many nodes were left open.
    pub open_nodes: u64,
    /// The proof of the bound, if one was requested and is by bounds of Gilmore and Lawler.
    pub proof: Option<Proof>,
}

impl Planned {
    /// Whether the permutation is proved to be one of least cost.
    pub fn is_optimal(&self) -> bool
        ensures { (result ≡ true) ↔ (self.now.cost ≤ℤ self.now.bound) }
    {
        self.bound >= self.cost
    }
}
