//! Parses the tuples of nodes and of the incumbent.

ghost use Rattle.std.specs.Prelude.{◌≡◌, ◌≢◌, ◌↔◌, ◌<◌, ◌++◌, ◌∷◌, [], ℕ, ℤ, List, IfOk, IsTrue, MatchOption, SomeIndex, codes, map, pos, slice_index_or, string_bytes};
ghost use Rattle.number_list.specs.NumberList.{numbers_held};
ghost use Rattle.number_list.specs.Numbers.{numbers_in};
ghost use Rattle.qap_cost.specs.Bijection.{IsPerm};
ghost use Rattle.tuple_match.specs.Field.{field_value, fields_value};
ghost use Rattle.tuple_match.specs.FieldValue.{number, numbers, word};
ghost use Rattle.qap_search.specs.Tuples.DecidedTuples.{IsNoPiece, IsPart, best_of, piece_tuple};

use number_list::{NumberList, Numbers};
use qap_cost::Perm;
use std::alloc::{AllocError, Global};
use tuple_match::{Field, Tuple};

/// What was decided at a node.
#[derive(Drop)]
pub(crate) enum Decision {
    /// It is split on the facility of this number.
    Split(i128),
    /// It is closed by these duals.
    Closed { u: NumberList, v: NumberList },
}

/// A node that is decided: facility and location alternately, in the order of placing.
#[derive(Drop)]
pub(crate) struct DecidedNode {
    pub(crate) node: NumberList,
    pub(crate) decision: Decision,
}

/// The best permutation found, by its locations, and its cost.
#[derive(Drop)]
pub(crate) struct BestFound {
    pub(crate) cost: i128,
    pub(crate) locations: NumberList,
}

/// The content of a tuple of a search without open nodes.
#[derive(Drop)]
pub(crate) enum Piece {
    Best(BestFound),
    Decided(DecidedNode),
}

/// The content of the tuple; `None` if it is not a tuple of an incumbent or a decided node. Its lists are moved in
/// their stored form, unless another tuple shares them.
pub(crate) fn piece_of(tuple: Tuple) -> Result<Option<Piece>, AllocError>
    ensures { IfOk result (λ told. MatchOption told (IsNoPiece tuple) (λ piece. piece_tuple piece ≡ tuple)) }
{
    Ok(piece_in(tuple.into_fields()?))
}

/// Likewise for a tuple of these fields.
fn piece_in(mut fields: Vec<Field>) -> Option<Piece>
    ensures { MatchOption result
        (IsNoPiece (fields_value fields.items))
        (λ piece. piece_tuple piece ≡ fields_value fields.items) }
{
    match part_of(fields.pop()?) {
        Part::Number(facility) => {
            let node = node_behind("split", fields)?;
            Some(Piece::Decided(DecidedNode {
                node,
                decision: Decision::Split(facility),
            }))
        }
        Part::Numbers(last) => piece_before(fields, last),
        Part::Word => None,
    }
}

/// Likewise for a tuple that ends in this list, after these fields.
fn piece_before(mut fields: Vec<Field>, last: NumberList) -> Option<Piece>
    ensures { MatchOption result
        (IsNoPiece (fields_value fields.items ++ numbers (numbers_held last) ∷ []))
        (λ piece. piece_tuple piece ≡ fields_value fields.items ++ numbers (numbers_held last) ∷ []) }
{
    match part_of(fields.pop()?) {
        Part::Number(number) => piece_by_number(fields, number, last),
        Part::Numbers(before) => piece_by_lists(fields, before, last),
        Part::Word => None,
    }
}

/// Likewise for a tuple that ends in a number and a list.
fn piece_by_number(fields: Vec<Field>, value: i128, last: NumberList) -> Option<Piece>
    ensures { MatchOption result
        (IsNoPiece (fields_value fields.items ++ number value ∷ numbers (numbers_held last) ∷ []))
        (λ piece. piece_tuple piece ≡ fields_value fields.items ++ number value ∷ numbers (numbers_held last) ∷ []) }
{
    if !is_only_word("best", &fields) {
        return None;
    }
    Some(Piece::Best(BestFound {
        cost: value,
        locations: last,
    }))
}

/// Likewise for a tuple that ends in two lists.
fn piece_by_lists(fields: Vec<Field>, before: NumberList, last: NumberList) -> Option<Piece>
    ensures { MatchOption result
        (IsNoPiece (fields_value fields.items ++ numbers (numbers_held before) ∷ numbers (numbers_held last) ∷ []))
        (λ piece. piece_tuple piece ≡ fields_value fields.items ++ numbers (numbers_held before) ∷ numbers (numbers_held last) ∷ []) }
{
    let node = node_behind("closed", fields)?;
    Some(Piece::Decided(DecidedNode {
        node,
        decision: Decision::Closed { u: before, v: last },
    }))
}

/// What a field is, with its list as it lies.
#[derive(Drop)]
enum Part {
    Number(i128),
    Numbers(NumberList),
    Word,
}

/// What the field is.
#[tactic(auto, using(crate::proofs::TupleLemmas::Fields::number_from, crate::proofs::TupleLemmas::Fields::numbers_from, crate::proofs::TupleLemmas::Fields::word_from))]
fn part_of(field: Field) -> Part
    ensures { IsPart result (field_value field) }
{
    if let Some(number) = field.as_int() {
        return Part::Number(number);
    }
    match field.into_numbers() {
        Some(list) => Part::Numbers(list),
        None => Part::Word,
    }
}

/// The list of a row that is this word and a list.
fn node_behind(name: &str, mut fields: Vec<Field>) -> Option<NumberList>
    ensures { MatchOption result
        ((xs : List ℤ) → fields_value fields.items ≢ word name.now ∷ numbers xs ∷ [])
        (λ node. fields_value fields.items ≡ word name.now ∷ numbers (numbers_held node) ∷ []) }
{
    match part_of(fields.pop()?) {
        Part::Numbers(node) if is_only_word(name, &fields) => Some(node),
        _ => None,
    }
}

/// Whether the row is this word alone.
fn is_only_word(name: &str, fields: &[Field]) -> bool
    ensures { IsTrue result ↔ (fields_value fields.now ≡ word name.now ∷ []) }
{
    match fields {
        [field] => is_word(name, field),
        _ => false,
    }
}

/// Whether the field is this word.
pub(crate) fn is_word(name: &str, field: &Field) -> bool
    ensures { IsTrue result ↔ (field_value field.now ≡ word name.now) }
{
    match field.as_word_bytes() {
        Some(word) => *word == *name.as_bytes(),
        None => false,
    }
}

/// The list of an open node's tuple, as it lies there.
#[tactic(auto, using(crate::proofs::TupleLemmas::Fields::numbers_from))]
pub(crate) fn node_numbers(tuple: &Tuple) -> Option<Numbers<'_>>
    ensures { MatchOption result
        ((xs : List ℤ) → tuple.now ≢ word (codes "node") ∷ numbers xs ∷ [])
        (λ list. tuple.now ≡ word (codes "node") ∷ numbers (numbers_in list) ∷ []) }
{
    match tuple.fields() {
        [name, field] if is_word("node", name) => field.as_list(),
        _ => None,
    }
}

/// The cost and the locations of a tuple of a best permutation.
pub(crate) fn best_fields(tuple: &Tuple) -> Option<(i128, Numbers<'_>)>
    ensures { MatchOption result
        ((c : ℤ) (ps : List ℤ) → tuple.now ≢ best_of c ps)
        (λ told. tuple.now ≡ best_of told.0 (numbers_in told.1)) }
{
    match tuple.fields() {
        [name, Field::Int(cost), list] if is_word("best", name) => {
            list.as_list().map(|locations| (*cost, locations))
        }
        _ => None,
    }
}

/// The permutation of these locations; `None` if they are none.
pub(crate) fn permutation_of(
    alloc: Global,
    locations: &Numbers<'_>,
) -> Result<Option<Perm>, AllocError>
    ensures { IfOk result (λ found. MatchOption found
        ((p : List ℕ) → IsPerm p → map pos p ≢ numbers_in locations.now)
        (λ p. IsPerm p × (map pos p ≡ numbers_in locations.now))) }
{
    let Some(locations) = small_numbers(alloc, locations)? else {
        return Ok(None);
    };
    match Perm::new(locations) {
        Ok(perm) => Ok(Some(perm)),
        Err(_) => Ok(None),
    }
}

/// The same numbers in 16 bits; `None` if one of them doesn't fit.
fn small_numbers(alloc: Global, numbers: &Numbers<'_>) -> Result<Option<Vec<u16>>, AllocError>
    ensures { IfOk result (λ found. MatchOption found
        (SomeIndex (numbers_in numbers.now) (λ i. (k : ℕ) → k < 65536 → slice_index_or (numbers_in numbers.now) i (pos 0) ≢ pos k))
        (λ v. map pos v.items ≡ numbers_in numbers.now)) }
{
    let mut small = Vec::with_capacity(alloc, numbers.len())?;
    for place in 0..numbers.len() {
        let Ok(number) = u16::try_from(numbers.at(place)) else {
            return Ok(None);
        };
        small.push(number)?;
    }
    Ok(Some(small))
}
