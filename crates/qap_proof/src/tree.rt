//! Proof trees.

ghost use Rattle.std.specs.Prelude.{◌≡◌, IfOk};
ghost use Rattle.qap_proof.specs.NodeLine.{kept_pair_of, pair_of};

use crate::node_line::SplitLine;
use number_list::NumberList;
use qap_cost::Perm;
use std::alloc::{AllocError, Global};

/// Duals of a node's Gilmore-Lawler matrix: one for each free facility and one for each free location, both ascending.
#[derive(Drop)]
pub struct Duals {
    pub u: Vec<i128>,
    pub v: Vec<i128>,
}

impl Duals {
    /// The same duals in the stored form of a tree.
    pub fn kept(self) -> KeptDuals
        ensures { kept_pair_of result ≡ pair_of self }
    {
        KeptDuals {
            u: NumberList::narrowed(self.u),
            v: NumberList::narrowed(self.v),
        }
    }
}

/// Duals in as few bits as they need, the stored form of a tree.
#[derive(Drop)]
pub struct KeptDuals {
    pub u: NumberList,
    pub v: NumberList,
}

impl KeptDuals {
    /// The same duals in 128 bits each, for which there may be no memory.
    pub fn widened(&self, alloc: Global) -> Result<Duals, AllocError>
        ensures { IfOk result (λ duals. pair_of duals ≡ kept_pair_of self.now) }
    {
        let u = self.u.numbers().to_vec(alloc)?;
        let v = self.v.numbers().to_vec(alloc)?;
        Ok(Duals { u, v })
    }
}

/// A part of the permutations of an instance, and what proves that none of it costs less than a bound. Facilities,
/// locations and children are counted from 0.
#[derive(Drop)]
pub enum Tree {
    /// The part is closed by duals of its Gilmore-Lawler matrix.
    Closed {
        duals: KeptDuals,
    },
    /// The facility or the location that the split is on is put with each free one of the other side, these ascending.
    Split {
        split: SplitLine,
        children: Vec<Tree>,
    },
    /// A child that the duals of its split prune.
    Cut,
    /// A child that is symmetric to an earlier one of its split: the permutation is of the locations if the split is on
    /// a facility, and of the facilities if it is on a location.
    Mirrored {
        earlier: u16,
        image: Perm,
    },
}
