//! Fields in one block of memory, which several tuples share.

ghost use Rattle.std.specs.Prelude.{◌≡◌, ◌≤◌, IfOk};
ghost use Rattle.std.specs.Arc.{arc_value};
ghost use Rattle.tuple_match.specs.Field.{fields_value};

use crate::fields::Field;
use std::alloc::{AllocError, Global};
use std::sync::Arc;

/// Takes the fields out of a block, or copies them where others share them.
pub(crate) fn taken<const N: usize>(
    fields: Arc<[Field; N]>,
    alloc: Global,
) -> Result<Vec<Field>, AllocError>
    requires { N ≤ 8 }
    ensures { IfOk result (λ list. fields_value list.items ≡ fields_value (arc_value fields.entry)) }
{
    match Arc::try_unwrap(fields) {
        Ok(fields) => Vec::from_array(alloc, fields).map_err(|_| AllocError),
        Err(shared) => copied(alloc, shared.as_slice()),
    }
}

/// Other fields that say the same, which a tuple then has for itself.
pub(crate) fn copied(alloc: Global, fields: &[Field]) -> Result<Vec<Field>, AllocError>
    ensures { IfOk result (λ copies. fields_value copies.items ≡ fields_value fields.now) }
{
    fields.to_vec(alloc)
}
