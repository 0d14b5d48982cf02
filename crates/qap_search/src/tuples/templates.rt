//! The templates with which the tuples of a search are requested.

ghost use Rattle.std.specs.Prelude.{◌≡◌, IfOk};
ghost use Rattle.qap_search.specs.Tuples.Found.{best_template};
ghost use Rattle.qap_search.specs.Tuples.Piece.{node_template};

use std::alloc::{AllocError, Global};
use tuple_match::{Field, Pattern, Template};

/// Asks for any open node.
pub fn node_template(alloc: Global) -> Result<Template, AllocError>
    ensures { IfOk result (λ template. template ≡ node_template) }
{
    let name = Pattern::Is(Field::word(alloc, "node")?);
    let patterns = vec![in alloc; name, Pattern::AnyList]?;
    Ok(Template::new(patterns).unwrap())
}

/// Asks for the best permutation.
pub fn best_template(alloc: Global) -> Result<Template, AllocError>
    ensures { IfOk result (λ template. template ≡ best_template) }
{
    let name = Pattern::Is(Field::word(alloc, "best")?);
    let patterns = vec![in alloc; name, Pattern::AnyInt, Pattern::AnyList]?;
    Ok(Template::new(patterns).unwrap())
}
