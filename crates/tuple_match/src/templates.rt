//! Templates: rows of patterns, each an actual or a formal.

ghost use Rattle.std.specs.Prelude.{◌≡◌, ◌↔◌, IsTrue, IsOk, IfOk, IfErr, All};
ghost use Rattle.tuple_match.specs.Field.{field_value};
ghost use Rattle.tuple_match.specs.Pattern.{pattern_value, patterns_value};
ghost use Rattle.tuple_match.specs.PatternValue.{IsPattern, FieldMatches};
ghost use Rattle.tuple_match.specs.Template.{IsTemplate};

use crate::fields::Field;
use crate::refusal::MatchError;
use crate::tuples::MOST_FIELDS;
use std::marker::Model;

/// One part of a template.
#[derive(Debug, Drop)]
pub enum Pattern {
    /// An actual: a field equal to this one, in type and value.
    Is(Field),
    /// A formal: any number.
    AnyInt,
    /// A formal: any word.
    AnyWord,
    /// A formal: any list of numbers.
    AnyList,
}

impl Pattern {
    /// Whether a template may hold this pattern: any formal, or an actual whose field is within the
    /// limits of a tuple's.
    pub fn is_within_limits(&self) -> bool
        ensures { IsTrue result ↔ IsPattern (pattern_value self.now) }
    {
        match self {
            Pattern::Is(field) => field.is_within_limits(),
            Pattern::AnyInt | Pattern::AnyWord | Pattern::AnyList => true,
        }
    }

    /// Whether this pattern matches the field: an actual equals it, a formal has its type.
    pub fn matches_field(&self, field: &Field) -> bool
        ensures { IsTrue result ↔ FieldMatches (pattern_value self.now) (field_value field.now) }
    {
        match (self, field) {
            (Pattern::Is(wanted), _) => *wanted == *field,
            (Pattern::AnyInt, Field::Int(_)) => true,
            (Pattern::AnyWord, Field::Word(_)) => true,
            (Pattern::AnyWord, Field::ShortWord(_)) => true,
            (Pattern::AnyList, _) => field.as_list().is_some(),
            _ => false,
        }
    }
}

/// A row of 1 to 8 patterns, each within its limits.
#[derive(Debug, Drop)]
pub struct Template {
    patterns: Vec<Pattern>,
}

impl Model for Template {
    ghost use Rattle.std.specs.Prelude.{List};
    ghost use Rattle.tuple_match.specs.PatternValue.{PatternValue};
    ghost use Rattle.tuple_match.specs.Pattern.{patterns_value};
    ghost use Rattle.tuple_match.specs.Template.{IsTemplate};

    ghost Value = { List PatternValue };

    ghost view = { λ t. patterns_value t.patterns.items };

    ghost invariant = { λ t. IsTemplate (patterns_value t.patterns.items) };
}

impl Template {
    /// The template with these patterns, or `BadTuple` and the patterns, if there are not 1 to 8 of them or one is
    /// outside its limits. Allocates nothing.
    pub fn new(patterns: Vec<Pattern>) -> Result<Template, (MatchError, Vec<Pattern>)>
        ensures accepted { IsOk result ↔ IsTemplate (patterns_value patterns.items) }
        ensures value { IfOk result (λ template. template ≡ patterns_value patterns.items) }
        ensures error { IfErr result (λ refused. refused.0 ≡ MatchError.BadTuple) }
        ensures handed_back { IfErr result (λ refused. refused.1 ≡ patterns) }
    {
        if is_template(&patterns) {
            Ok(Template { patterns })
        } else {
            Err((MatchError::BadTuple, patterns))
        }
    }

    /// The patterns, first to last.
    pub fn patterns(&self) -> &[Pattern]
        ensures value { patterns_value result.now ≡ self.now }
        ensures limits { IsTemplate self.now }
    {
        &self.patterns
    }
}

fn is_template(patterns: &[Pattern]) -> bool
    ensures { IsTrue result ↔ IsTemplate (patterns_value patterns.now) }
{
    !patterns.is_empty() && patterns.len() <= MOST_FIELDS && are_within_limits(patterns)
}

fn are_within_limits(patterns: &[Pattern]) -> bool
    ensures { IsTrue result ↔ All (λ pattern. IsPattern (pattern_value pattern)) patterns.now }
{
    patterns.iter().all(|pattern| pattern.is_within_limits())
}
