//! The law of a space.

ghost use Rattle.std.specs.Prelude.{ℕ, None, Option};
ghost use Rattle.shared_space.specs.Law.{Content, IsKept, IsUnordered};
ghost use Rattle.shared_space.specs.Place.{Place};
ghost use Rattle.shared_space.specs.Run.{GoesOn};

use std::marker::Brand;
use std::sync::ledger::Ledger;

/// The name of one space and its ledger, with the law of what the space may hold.
///
/// A function over `L: Law` creates a space and uses it, and is called at `Brand`, where its caller picks the law.
/// Without a choice the law always holds, sets no limit and implies nothing about what was done.
pub trait Law: Ledger {
    /// Which permanent tuples are lawful, held ones included, after this many accepted commits.
    ghost lawful: { Content → ℕ → Type 0 };

    /// Which commits are allowed: of what goes, of what is read and stays, and of what is added.
    ghost allowed: { Content → Content → Content → Type 0 };

    /// With which leases, in milliseconds, transactions may begin.
    ghost begins: { ℕ → Type 0 };

    /// Whether calls outside all transactions may change the space, and not only look at it.
    ghost changes: { Type 0 };

    /// How many commits are allowed in all, if there is a limit.
    ghost limit: { Option ℕ };

    /// The places that acts on the space may have reached: for example those to which a run from its opening leads.
    ghost reached: { Place → Type 0 };

    /// The law is independent of the order of the tuples.
    ghost unordered: { IsUnordered lawful };

    /// An allowed commit preserves the law.
    ghost keeps: { IsKept lawful allowed };

    /// From a place that is reached, each act leads to another one that is.
    ghost goes_on: { GoesOn allowed begins changes limit reached };
}

impl Law for Brand {
    ghost lawful = { λ _ _. Unit {0} };

    ghost allowed = { λ _ _ _. Unit {0} };

    ghost begins = { λ _. Unit {0} };

    ghost changes = { Unit {0} };

    ghost limit = { None };

    ghost reached = { λ _. Unit {0} };

    ghost unordered = { λ _ _ _ _ _. tt };

    ghost keeps = { λ _ _ _ _ _ _ _. tt };

    ghost goes_on = { λ _ _ _ _ _ _ _. tt };
}
