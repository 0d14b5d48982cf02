//! Steps that a worker makes in a row.

use crate::law::Law;
use crate::room::Room;

/// One that makes steps in a row, with nobody else's step between them. What is kept over them is its own invariant.
pub trait Steps<L: Law> {
    /// What the steps make of the one that makes them.
    ghost makes: { Self → Self → Type 0 } = { λ _ _. Unit {0} };

    /// Makes the steps, each one call on the room.
    fn make<M: Room<L>>(&mut self, room: &mut M)
        ensures { makes self.old self.new };
}
