//! Nodes whose facilities ascend.

ghost use Rattle.std.specs.Prelude.{IfOk};
ghost use Rattle.qap_proof.specs.Missing.{IsAscendingOf};

use qap_cost::Partial;
use std::alloc::{AllocError, Global};

/// The node that places what this one places, its facilities ascending.
pub(crate) fn ascending(alloc: Global, node: &Partial) -> Result<Partial, AllocError>
    ensures { IfOk result (IsAscendingOf node.now) }
{
    let mut root = Partial::root(alloc, node.size())?;
    for facility in 0..node.size() {
        if let Some(location) = node.at(facility) {
            root.put(facility as u16, location)?;
        }
    }
    Ok(root)
}
