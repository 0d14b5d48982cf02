//! The incumbent.

ghost use Rattle.std.specs.Prelude.{◌≡◌, ◌*◌, ◌^◌, ◌≤◌, ◌≤ℤ◌, IfOk, length, unsigned_abs};
ghost use Rattle.qap_cost.specs.Instance.{Problem};
ghost use Rattle.qap_cost.specs.Objective.{Permutes, cost_of};
ghost use Rattle.subtree_search.specs.Best.{Best, IsIncumbent};

use qap_cost::{Instance, Perm, cost};
use std::alloc::AllocError;
use std::marker::Model;

/// The best permutation known, with its cost.
#[derive(Drop)]
pub struct Incumbent {
    permutation: Perm,
    cost: i128,
}

impl Model for Incumbent {
    ghost Value = { Best };

    ghost view = { λ s. record { permutation = s.permutation; cost = s.cost } };

    ghost invariant = { λ s. unsigned_abs s.cost ≤ 65536 * 10 ^ 18 };
}

impl Incumbent {
    /// This permutation, with what it costs.
    pub fn new(instance: &Instance, permutation: Perm) -> Incumbent
        requires { length permutation ≡ instance.now.size }
        ensures permutation { result.permutation ≡ permutation }
        ensures incumbent { IsIncumbent instance.now result }
    {
        permutation.permutation_law();
        let cost = cost(instance, &permutation);
        Incumbent { permutation, cost }
    }

    /// Its cost.
    pub fn cost(&self) -> i128
        ensures value { result ≡ self.now.cost }
        ensures bounded { unsigned_abs result ≤ 65536 * 10 ^ 18 }
    {
        self.cost
    }

    /// The permutation.
    pub fn permutation(&self) -> &Perm
        ensures { result.now ≡ self.now.permutation }
    {
        &self.permutation
    }

    /// The same incumbent, in memory of its own.
    pub fn copy(&self) -> Result<Incumbent, AllocError>
        ensures { IfOk result (λ b. b ≡ self.now) }
    {
        Ok(Incumbent {
            permutation: self.permutation.copy()?,
            cost: self.cost,
        })
    }

    /// Becomes another one that costs less.
    pub fn adopt(&mut self, other: Incumbent)
        ensures incumbent { (I : Problem) → IsIncumbent I self.old → IsIncumbent I other → IsIncumbent I self.new }
        ensures no_worse { self.new.cost ≤ℤ self.old.cost }
        ensures adopted { self.new.cost ≤ℤ other.cost }
    {
        if other.cost < self.cost {
            *self = other;
        }
    }

    /// Replaces its permutation by one that costs less.
    pub fn offer(&mut self, instance: &Instance, candidate: Perm)
        requires incumbent { IsIncumbent instance.now self.old }
        requires permutes { length candidate ≡ instance.now.size }
        ensures incumbent { IsIncumbent instance.now self.new }
        ensures no_worse { self.new.cost ≤ℤ self.old.cost }
        ensures offered { self.new.cost ≤ℤ cost_of instance.now candidate }
    {
        self.adopt(Incumbent::new(instance, candidate));
    }
}
