//! The completion of a node by a least assignment.

ghost use Rattle.std.specs.Prelude.{◌≡◌, length, IfOk, IfSome};

use crate::evaluation::Evaluation;
use qap_cost::{Partial, Perm};
use std::alloc::{AllocError, Global};

/// The permutation that puts each placed facility at its location, and each free one where the assignment does.
pub(crate) fn completed(
    alloc: Global,
    node: &Partial,
    evaluation: &Evaluation,
) -> Result<Option<Perm>, AllocError>
    ensures { IfOk result (λ found. IfSome found (λ p. length p ≡ node.now.size)) }
{
    let mut locations = vec![in alloc; 0u16; node.size()]?;
    for (facility, location) in node.facilities().iter().zip(node.places()) {
        put(&mut locations, *facility, Some(location));
    }
    for (facility, column) in evaluation.facilities.iter().zip(&evaluation.matching) {
        let location = evaluation.locations.get(usize::from(*column));
        put(&mut locations, *facility, location);
    }
    Ok(Perm::new(locations).ok())
}

/// Puts the facility at the location.
fn put(locations: &mut [u16], facility: u16, location: Option<&u16>) {
    if let (Some(place), Some(location)) = (locations.get_mut(usize::from(facility)), location) {
        *place = *location;
    }
}
