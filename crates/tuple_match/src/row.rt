//! The fields of a tuple, its own or shared with its copies.

ghost use Rattle.std.specs.Prelude.{◌≡◌, IfOk, IfSome, MatchResult};
ghost use Rattle.tuple_match.specs.Field.{fields_value};
ghost use Rattle.tuple_match.specs.Row.{row_value};

use crate::block::{copied, taken};
use crate::fields::Field;
use std::alloc::{AllocError, Global};
use std::sync::Arc;

/// Fields that a tuple has for itself, or that several tuples share: in a list, or this many in one block, with where
/// its memory is from.
#[derive(Drop)]
pub(crate) enum Row {
    Own(Vec<Field>),
    Shared(Arc<Vec<Field>>),
    Two(Arc<[Field; 2]>, Global),
    Three(Arc<[Field; 3]>, Global),
    Four(Arc<[Field; 4]>, Global),
    Seven(Arc<[Field; 7]>, Global),
}

impl Row {
    /// The fields in a block that copies share. If memory runs out, they are returned.
    pub(crate) fn share(self, alloc: Global) -> Result<Row, (AllocError, Row)>
        ensures { MatchResult result (λ row. row_value row ≡ row_value self) (λ back. row_value back.1 ≡ row_value self) }
    {
        match self {
            Row::Own(fields) => match Arc::new(alloc, fields) {
                Ok(shared) => Ok(Row::Shared(shared)),
                Err(failed) => Err((AllocError, Row::Own(failed.value))),
            },
            shared => Ok(shared),
        }
    }

    pub(crate) fn as_slice(&self) -> &[Field]
        ensures { fields_value result.now ≡ row_value self.now }
    {
        match self {
            Row::Own(fields) => fields.as_slice(),
            Row::Shared(fields) => fields.as_slice(),
            Row::Two(fields, _) => fields.as_slice(),
            Row::Three(fields, _) => fields.as_slice(),
            Row::Four(fields, _) => fields.as_slice(),
            Row::Seven(fields, _) => fields.as_slice(),
        }
    }

    /// Another row of equal fields, which takes memory only where they aren't shared, or by more than can be counted.
    pub(crate) fn copy(&self) -> Result<Row, AllocError>
        ensures { IfOk result (λ row. row_value row ≡ row_value self.now) }
    {
        match self.shared() {
            Some(row) => Ok(row),
            None => Ok(Row::Own(copied(self.allocator(), self.as_slice())?)),
        }
    }

    /// The same fields, shared with one more, or `None` if they aren't shared, or by more than can be counted.
    fn shared(&self) -> Option<Row>
        ensures { IfSome result (λ row. row_value row ≡ row_value self.now) }
    {
        match self {
            Row::Own(_) => None,
            Row::Shared(fields) => Some(Row::Shared(fields.clone().ok()?)),
            Row::Two(fields, alloc) => Some(Row::Two(fields.clone().ok()?, *alloc)),
            Row::Three(fields, alloc) => Some(Row::Three(fields.clone().ok()?, *alloc)),
            Row::Four(fields, alloc) => Some(Row::Four(fields.clone().ok()?, *alloc)),
            Row::Seven(fields, alloc) => Some(Row::Seven(fields.clone().ok()?, *alloc)),
        }
    }

    /// Where the memory comes from.
    fn allocator(&self) -> Global {
        match self {
            Row::Own(fields) => *fields.allocator(),
            Row::Shared(fields) => *fields.allocator(),
            Row::Two(_, alloc) => *alloc,
            Row::Three(_, alloc) => *alloc,
            Row::Four(_, alloc) => *alloc,
            Row::Seven(_, alloc) => *alloc,
        }
    }

    /// Takes the fields out, or copies them where others share them. Fields in one block take memory for a list of them.
    pub(crate) fn into_fields(self) -> Result<Vec<Field>, AllocError>
        ensures { IfOk result (λ fields. fields_value fields.items ≡ row_value self) }
    {
        match self {
            Row::Own(fields) => Ok(fields),
            Row::Shared(shared) => match Arc::try_unwrap(shared) {
                Ok(fields) => Ok(fields),
                Err(shared) => copied(*shared.allocator(), &shared),
            },
            Row::Two(fields, alloc) => taken(fields, alloc),
            Row::Three(fields, alloc) => taken(fields, alloc),
            Row::Four(fields, alloc) => taken(fields, alloc),
            Row::Seven(fields, alloc) => taken(fields, alloc),
        }
    }
}
