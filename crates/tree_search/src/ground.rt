//! What stays the same in a search.

ghost use Rattle.std.specs.Prelude.{◌≡◌, IfOk};

use qap_cost::{Instance, Perm};
use qap_symmetry::{Table, symmetries_of};
use std::alloc::{AllocError, Global};

/// The instance with symmetries of its matrices, and when to stop.
#[derive(Drop)]
pub(crate) struct Ground<'a, S> {
    pub(crate) alloc: Global,
    pub(crate) instance: &'a Instance,
    /// Permutations of the facilities that preserve the flows.
    pub(crate) flows: Vec<Perm>,
    /// Permutations of the locations that preserve the distances.
    pub(crate) distances: Vec<Perm>,
    /// How many nodes are decided at most.
    pub(crate) limit: u64,
    pub(crate) stop: &'a S,
}

impl<'a, S> Ground<'a, S> {
    /// The ground of a search, after the symmetries were computed.
    pub(crate) fn new(
        alloc: Global,
        instance: &'a Instance,
        limit: u64,
        stop: &'a S,
    ) -> Result<Ground<'a, S>, AllocError>
        ensures instance { IfOk result (λ g. g.instance.now ≡ instance.now) }
        ensures limit { IfOk result (λ g. g.limit ≡ limit) }
    {
        let flows = symmetries_of(alloc, instance, Table::Flows)?.permutations;
        let distances = symmetries_of(alloc, instance, Table::Distances)?.permutations;
        Ok(Ground {
            alloc,
            instance,
            flows,
            distances,
            limit,
            stop,
        })
    }
}
