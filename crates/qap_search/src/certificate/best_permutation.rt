//! The incumbent among the tuples of a search.

ghost use Rattle.std.specs.Prelude.{◌≡◌, ◌≢◌, All, Contains, IfOk, List, MatchOption, ℕ, ℤ};
ghost use Rattle.qap_search.specs.Law.CutTree.{IsCutTree};
ghost use Rattle.qap_search.specs.Tuples.DecidedTuples.{best_of};
ghost use Rattle.qap_search.specs.Law.Search.{Search};
ghost use Rattle.tuple_match.specs.FieldValue.{FieldValue};
ghost use Rattle.number_list.specs.Numbers.{numbers_in};

use crate::tuples::parsing::{best_fields, permutation_of};
use number_list::Numbers;
use qap_cost::Perm;
use std::alloc::{AllocError, Global};
use tuple_match::Tuple;

/// The incumbent of tuples that are a cut tree, and its cost.
pub(crate) fn best_of(alloc: Global, tuples: &[Tuple]) -> Result<(Perm, i128), AllocError>
    requires { (S : Search) × (commits : ℕ) × IsCutTree S tuples.now commits }
    ensures { IfOk result (λ best. (S : Search) (commits : ℕ) (tree : IsCutTree S tuples.now commits) →
        (tree.permutation ≡ best.0) × (tree.cost ≡ best.1)) }
{
    let Some((cost, locations)) = first_best(tuples) else {
        unreachable!()
    };
    let Some(permutation) = permutation_of(alloc, &locations)? else {
        unreachable!()
    };
    Ok((permutation, cost))
}

/// The cost and the locations of the first tuple of a best permutation.
fn first_best(tuples: &[Tuple]) -> Option<(i128, Numbers<'_>)>
    ensures { MatchOption result
        (All (λ (tuple : List FieldValue). (c : ℤ) (ps : List ℤ) → tuple ≢ best_of c ps) tuples.now)
        (λ told. Contains tuples.now (best_of told.0 (numbers_in told.1))) }
{
    for tuple in tuples {
        if let Some(told) = best_fields(tuple) {
            return Some(told);
        }
    }
    None
}
