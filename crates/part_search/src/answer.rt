//! What a search yields, finished or stopped.

ghost use Rattle.std.specs.Prelude.{◌≡◌, ◌<◌, ◌≤ℤ◌, IfOk, IfSome, None, Some};
ghost use Rattle.space_txn.specs.Content.{content_of};
ghost use Rattle.part_search.specs.Answer.{IsAnswer, IsLesser, Surveys};
ghost use Rattle.part_search.specs.Law.{IsSearched, Part};
ghost use Rattle.part_search.specs.Ran.{IsReadFrom};
ghost use Rattle.part_search.specs.Tuples.{OpenNode, node_tuple};

use crate::law::{best_law, bound_law};
use crate::tuples::{node_template, read_best};
use qap_cost::Instance;
use space_txn::TxnSpace;
use std::alloc::{AllocError, Global};
use subtree_search::Incumbent;
use tuple_match::{Tuple, matches};

/// What a search yields.
#[derive(Drop)]
pub struct Answer {
    /// The best permutation known, with its cost.
    pub best: Incumbent,
    /// No completion of the root costs less.
    pub bound: i128,
    /// How many nodes were taken and tried, and committed.
    pub nodes: u64,
    /// The number of open nodes: 0 if the search was finished, and then the bound is the cost.
    pub open_nodes: u64,
}

/// The best permutation among tuples, the least value of the open nodes among them, and their number.
#[derive(Drop)]
pub(crate) struct Survey {
    best: Option<Incumbent>,
    least: Option<i128>,
    open_nodes: u64,
}

/// What the space of a search proves, at its end or when it was stopped, including the nodes that workers hold. The
/// only error is out of memory.
pub fn answer_of(alloc: Global, instance: &Instance, space: TxnSpace) -> Result<Answer, AllocError>
    ensures answer { IfOk result (λ a. (S : Part) → S.instance ≡ instance.now → IsSearched S (content_of space) → IsAnswer S a) }
    ensures nodes { IfOk result (λ a. a.nodes ≡ space.commits) }
    ensures read { IfOk result (IsReadFrom (content_of space)) }
{
    best_law();
    bound_law();
    let nodes = space.commits();
    let Ok(tuples) = space.into_tuples() else {
        return Err(AllocError);
    };
    let Survey {
        best,
        least,
        open_nodes,
    } = surveyed(alloc, instance, &tuples)?;
    let Some(best) = best else {
        return Err(AllocError);
    };
    let bound = lesser(least, &best);
    Ok(Answer {
        best,
        bound,
        nodes,
        open_nodes,
    })
}

/// The smaller of the minimum value, if there is one, and the cost.
fn lesser(least: Option<i128>, best: &Incumbent) -> i128
    ensures below { result ≤ℤ best.now.cost }
    ensures least { IfSome least (λ l. result ≤ℤ l) }
    ensures none { least ≡ None → result ≡ best.now.cost }
{
    let cost = best.cost();
    match least {
        Some(least) => least.min(cost),
        None => cost,
    }
}

/// What the tuples say.
fn surveyed(alloc: Global, instance: &Instance, tuples: &[Tuple]) -> Result<Survey, AllocError>
    ensures { IfOk result (Surveys instance.now tuples.now) }
{
    let template = node_template(alloc)?;
    let mut all = Survey {
        best: None,
        least: None,
        open_nodes: 0,
    };
    for i in 0..tuples.len() {
        if matches(&template, &tuples[i]) {
            all = all.with_value(value_of(&tuples[i]));
        } else if let Some(best) = read_best(alloc, instance, &tuples[i])? {
            all = all.with_best(best);
        }
    }
    Ok(all)
}

impl Survey {
    /// With one open node more, of this value.
    fn with_value(self, value: i128) -> Survey
        ensures best { result.best ≡ self.best }
        ensures least { IsLesser self.least value result.least }
        ensures some { (0 < result.open_nodes) }
    {
        let least = match self.least {
            Some(least) => least.min(value),
            None => value,
        };
        Survey {
            best: self.best,
            least: Some(least),
            open_nodes: self.open_nodes.saturating_add(1),
        }
    }

    /// With the best permutation.
    fn with_best(self, best: Incumbent) -> Survey
        ensures { result ≡ record self { best = Some best } }
    {
        Survey {
            best: Some(best),
            ..self
        }
    }
}

/// The value in the tuple of an open node; the least number where the tuple is of another kind.
fn value_of(tuple: &Tuple) -> i128
    ensures { (o : OpenNode) → tuple.now ≡ node_tuple o → result ≡ o.value }
{
    match tuple.fields() {
        [_, _, _, value] => value.as_int().unwrap_or(i128::MIN),
        _ => i128::MIN,
    }
}
