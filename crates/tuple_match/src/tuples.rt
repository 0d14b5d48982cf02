//! Tuples: rows of fields within their limits.

ghost use Rattle.std.specs.Prelude.{◌≡◌, ◌↔◌, IsTrue, IsOk, IfOk, IfErr, All, MatchResult};
ghost use Rattle.tuple_match.specs.FieldValue.{IsField};
ghost use Rattle.tuple_match.specs.Field.{field_value, fields_value};
ghost use Rattle.tuple_match.specs.Row.{row_value};
ghost use Rattle.tuple_match.specs.Tuple.{IsTuple};

use crate::fields::Field;
use crate::refusal::MatchError;
use crate::row::Row;
use std::alloc::{AllocError, Global};
use std::fmt;
use std::marker::Model;
use std::sync::Arc;

/// The most fields of a tuple, and the most patterns of a template.
pub(crate) const MOST_FIELDS: usize = 8;

/// A row of 1 to 8 fields, each within its limits.
#[derive(Drop)]
pub struct Tuple {
    row: Row,
}

impl fmt::Debug for Tuple {
    fn fmt<W: fmt::Write>(&self, f: &mut fmt::Formatter<W>) -> fmt::Result {
        f.debug_struct("Tuple")
            .field("fields", &self.fields())
            .finish()
    }
}

impl Model for Tuple {
    ghost use Rattle.std.specs.Prelude.{List};
    ghost use Rattle.tuple_match.specs.FieldValue.{FieldValue};
    ghost use Rattle.tuple_match.specs.Row.{row_value};
    ghost use Rattle.tuple_match.specs.Tuple.{IsTuple};

    ghost Value = { List FieldValue };

    ghost view = { λ t. row_value t.row };

    ghost invariant = { λ t. IsTuple (row_value t.row) };
}

impl Tuple {
    /// The tuple with these fields, or `BadTuple` and the fields, if there are not 1 to 8 of them or one is outside its
    /// limits. Allocates nothing.
    pub fn new(fields: Vec<Field>) -> Result<Tuple, (MatchError, Vec<Field>)>
        ensures accepted { IsOk result ↔ IsTuple (fields_value fields.items) }
        ensures value { IfOk result (λ tuple. tuple ≡ fields_value fields.items) }
        ensures error { IfErr result (λ refused. refused.0 ≡ MatchError.BadTuple) }
        ensures handed_back { IfErr result (λ refused. refused.1 ≡ fields) }
    {
        if is_tuple(&fields) {
            let row = Row::Own(fields);
            Ok(Tuple { row })
        } else {
            Err((MatchError::BadTuple, fields))
        }
    }

    /// The tuple of these two fields in one block, which its copies share with it. `AllocError` if memory ran out.
    pub fn of_two(alloc: Global, fields: [Field; 2]) -> Result<Tuple, AllocError>
        requires { IsTuple (fields_value fields) }
        ensures { IfOk result (λ tuple. tuple ≡ fields_value fields) }
    {
        let fields = Arc::new(alloc, fields).map_err(|_| AllocError)?;
        Ok(Tuple {
            row: Row::Two(fields, alloc),
        })
    }

    /// Likewise for three fields.
    pub fn of_three(alloc: Global, fields: [Field; 3]) -> Result<Tuple, AllocError>
        requires { IsTuple (fields_value fields) }
        ensures { IfOk result (λ tuple. tuple ≡ fields_value fields) }
    {
        let fields = Arc::new(alloc, fields).map_err(|_| AllocError)?;
        Ok(Tuple {
            row: Row::Three(fields, alloc),
        })
    }

    /// Likewise for four fields.
    pub fn of_four(alloc: Global, fields: [Field; 4]) -> Result<Tuple, AllocError>
        requires { IsTuple (fields_value fields) }
        ensures { IfOk result (λ tuple. tuple ≡ fields_value fields) }
    {
        let fields = Arc::new(alloc, fields).map_err(|_| AllocError)?;
        Ok(Tuple {
            row: Row::Four(fields, alloc),
        })
    }

    /// Likewise for seven fields.
    pub fn of_seven(alloc: Global, fields: [Field; 7]) -> Result<Tuple, AllocError>
        requires { IsTuple (fields_value fields) }
        ensures { IfOk result (λ tuple. tuple ≡ fields_value fields) }
    {
        let fields = Arc::new(alloc, fields).map_err(|_| AllocError)?;
        Ok(Tuple {
            row: Row::Seven(fields, alloc),
        })
    }

    /// The same tuple, whose copies share its fields with it and allocate nothing. If memory runs out, it is returned.
    pub fn share(self, alloc: Global) -> Result<Tuple, (AllocError, Tuple)>
        ensures { MatchResult result (λ tuple. tuple ≡ self) (λ back. back.1 ≡ self) }
    {
        let Tuple { row } = self;
        match row.share(alloc) {
            Ok(row) => Ok(Tuple { row }),
            Err((error, row)) => Err((error, Tuple { row })),
        }
    }

    /// The fields, first to last.
    pub fn fields(&self) -> &[Field]
        ensures value { fields_value result.now ≡ self.now }
        ensures limits { IsTuple self.now }
    {
        self.row.as_slice()
    }

    /// Extracts the fields, first to last. `AllocError` only if memory ran out for a list of them: if they are in one
    /// block, or copies share them.
    pub fn into_fields(self) -> Result<Vec<Field>, AllocError>
        ensures { IfOk result (λ fields. (fields_value fields.items ≡ self) × IsTuple self) }
    {
        let Tuple { row } = self;
        row.into_fields()
    }

    /// Another tuple of equal fields, or `AllocError` if memory ran out.
    pub fn copy(&self) -> Result<Tuple, AllocError>
        ensures value { IfOk result (λ tuple. tuple ≡ self.now) }
    {
        let row = self.row.copy()?;
        Ok(Tuple { row })
    }
}

// A proof that goes by `same` compares values, as `*a == *b`: on references `==` is that of `&T`,
// of which callers know `test` alone, and `Decides-tuple_eq` makes `same` of it.
impl PartialEq for Tuple {
    ghost use Rattle.std.specs.Prelude.{◌≡◌, ◌↔◌, IsTrue};
    ghost use Rattle.tuple_match.specs.Equality.{tuple_eq, tuple_eq_per};

    ghost eq = { tuple_eq };

    ghost laws = { tuple_eq_per };

    /// Whether the two have equal fields: the same types, numbers, words and lists, in the same order.
    fn eq(&self, other: &Tuple) -> bool
        ensures test { result ≡ tuple_eq self.now other.now }
        ensures same { IsTrue result ↔ (self.now ≡ other.now) }
    {
        self.fields() == other.fields()
    }
}

impl Eq for Tuple {
    ghost use Rattle.tuple_match.specs.Equality.{tuple_eq_equiv};

    ghost laws = { tuple_eq_equiv };
}

fn is_tuple(fields: &[Field]) -> bool
    ensures { IsTrue result ↔ IsTuple (fields_value fields.now) }
{
    !fields.is_empty() && fields.len() <= MOST_FIELDS && are_within_limits(fields)
}

fn are_within_limits(fields: &[Field]) -> bool
    ensures { IsTrue result ↔ All (λ field. IsField (field_value field)) fields.now }
{
    fields.iter().all(|field| field.is_within_limits())
}
