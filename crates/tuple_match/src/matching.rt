//! Whether a tuple matches a template.

ghost use Rattle.std.specs.Prelude.{◌≡◌, ◌↔◌, IsTrue, List};
ghost use Rattle.tuple_match.specs.FieldValue.{FieldValue};
ghost use Rattle.tuple_match.specs.Matching.{does_match};
ghost use Rattle.tuple_match.specs.Field.{fields_value};
ghost use Rattle.tuple_match.specs.Pattern.{patterns_value};
ghost use Rattle.tuple_match.specs.PatternValue.{PatternValue, Matches};

use crate::fields::Field;
use crate::templates::{Pattern, Template};
use crate::tuples::Tuple;

/// Whether the tuple matches the template: their lengths are equal, and part by part an actual equals the field, in
/// type and value, and a formal has the field's type (Gelernter 1985). Allocates nothing.
pub fn matches(template: &Template, tuple: &Tuple) -> bool
    ensures meaning { IsTrue result ↔ Matches template.now tuple.now }
    ensures test { result ≡ does_match template.now tuple.now }
{
    rows_match(template.patterns(), tuple.fields())
}

/// The test `does_match`, with which contracts count and keep tuples, is true if and only if template and tuple match.
pub fn does_match_law()
    ensures { (template : List PatternValue) (tuple : List FieldValue) →
        IsTrue (does_match template tuple) ↔ Matches template tuple }
{}

fn rows_match(patterns: &[Pattern], fields: &[Field]) -> bool
    ensures { IsTrue result ↔ Matches (patterns_value patterns.now) (fields_value fields.now) }
{
    patterns.len() == fields.len()
        && patterns
            .iter()
            .zip(fields)
            .all(|(pattern, field)| pattern.matches_field(field))
}
