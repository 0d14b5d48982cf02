//! Which facilities are placed above a node of a tree.

ghost use Rattle.std.specs.Prelude.{◌≡◌, ◌<◌, ◌≤◌, ◌↔◌, ◌++◌, ◌∷◌, [], IsTrue, ℕ, length, slice_index};
ghost use Rattle.qap_cost.specs.Placement.{IsPlacement};
ghost use Rattle.qap_cert.specs.Levels.{placed_outside};

use qap_cost::{MAX_SIZE, Partial};
use std::marker::Model;

/// The facilities that are placed above a node, in the order of placement: at most 256. They are stored inline, without
/// allocation.
#[derive(Drop)]
pub(crate) struct Placed {
    facilities: [u16; MAX_SIZE],
    count: usize,
}

impl Model for Placed {
    ghost use Rattle.std.specs.Prelude.{◌≡◌, ◌≤◌, List, ℕ, length, take};

    ghost Value = { List ℕ };

    ghost view = { λ p. take p.count p.facilities };

    ghost invariant = { λ p. (length p.facilities ≡ 256) × (p.count ≤ 256) };
}

impl Placed {
    /// No facility is placed.
    pub(crate) fn none() -> Placed
        ensures { result ≡ [] }
    {
        Placed {
            facilities: [0; MAX_SIZE],
            count: 0,
        }
    }

    /// Those that are placed at a node.
    pub(crate) fn at(node: &Partial) -> Placed
        ensures value { result ≡ node.now.facilities }
        ensures placement { IsPlacement node.now }
    {
        let mut facilities = [0; MAX_SIZE];
        let count = node.depth();
        facilities[..count].copy_from_slice(node.facilities());
        Placed { facilities, count }
    }

    /// How many are placed.
    pub(crate) fn count(&self) -> usize
        ensures value { result ≡ length self.now }
        ensures small { result ≤ 256 }
    {
        self.count
    }

    /// Whether this one is among them.
    pub(crate) fn has(&self, facility: u16) -> bool
        ensures { IsTrue result ↔ ((i : ℕ) × (i < length self.now) × (slice_index self.now i ≡ facility)) }
    {
        self.facilities[..self.count].contains(&facility)
    }

    /// Places one more after them.
    pub(crate) fn push(&mut self, facility: u16)
        requires { length self.old < 256 }
        ensures { self.new ≡ self.old ++ facility ∷ [] }
    {
        self.facilities[self.count] = facility;
        self.count += 1;
    }

    /// Removes the last one, if there is one.
    pub(crate) fn pop(&mut self)
        ensures { self.new ≡ placed_outside self.old }
    {
        self.count = self.count.saturating_sub(1);
    }

    /// These, and one more after them. It is not inlined, since a recursive reader would keep its copy at each level.
    #[inline(never)]
    pub(crate) fn with(&self, facility: u16) -> Placed
        requires { length self.now < 256 }
        ensures { result ≡ self.now ++ facility ∷ [] }
    {
        let mut facilities = self.facilities;
        facilities[self.count] = facility;
        Placed {
            facilities,
            count: self.count + 1,
        }
    }
}
