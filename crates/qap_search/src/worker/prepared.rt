//! A worker's writes, prepared before it has read the incumbent's cost.

ghost use Rattle.std.specs.Prelude.{◌≡◌, ◌↔◌, Bool, IfSome, IsTrue, None, OnErr, Some};
ghost use Rattle.qap_cost.specs.Instance.{Problem};
ghost use Rattle.qap_search.specs.Node.Decision.{IsOn};
ghost use Rattle.qap_search.specs.Worker.Hand.{thought_of};
ghost use Rattle.qap_search.specs.Worker.Prepared.{HasPrepared, IsPrepared};
ghost use Rattle.qap_search.specs.Worker.Standing.{IsLastThought};
ghost use Rattle.qap_search.specs.Node.Thought.{IsThought};

use crate::node::decision::decide;
use crate::worker::forever_writes::push_forever;
use crate::worker::stage::LastThought;
use std::alloc::{AllocError, Global};
use tuple_space::Writes;

/// The writes of the last evaluation if the incumbent stays and has this cost, if they have been computed.
#[derive(Drop)]
pub(crate) struct Prepared {
    cost: Option<i128>,
    pub(crate) writes: Writes,
}

impl Prepared {
    /// Nothing has been computed. Allocates nothing.
    pub(crate) fn new(alloc: Global) -> Prepared
        ensures { result.cost ≡ None }
    {
        Prepared {
            cost: None,
            writes: Writes::new(alloc),
        }
    }

    /// Whether these are the writes for an incumbent of this cost.
    pub(crate) fn is_for(&self, cost: i128) -> bool
        ensures { IsTrue result ↔ (self.now.cost ≡ Some cost) }
    {
        self.cost == Some(cost)
    }

    /// Forgets what was computed.
    pub(crate) fn forget(&mut self)
        ensures { self.new.cost ≡ None }
    {
        self.cost = None;
    }

    /// Computes the writes of the evaluation if the incumbent stays and has this cost. At an error, and if nothing can
    /// be written, nothing has been computed.
    pub(crate) fn prepare(
        &mut self,
        alloc: Global,
        last: &LastThought,
        cost: i128,
    ) -> Result<(), AllocError>
        requires { IsOn last.now.node last.now.thought }
        ensures right { (I : Problem) → IsThought I last.now.node last.now.thought → IsPrepared I (thought_of last.now) self.new }
        ensures err { OnErr result (self.new.cost ≡ None) }
    {
        self.cost = None;
        let Some(tuples) = decide(alloc, &last.node, &last.thought, cost)? else {
            return Ok(());
        };
        self.writes.clear();
        push_forever(&mut self.writes, tuples)?;
        self.cost = Some(cost);
        Ok(())
    }
}

/// Likewise for the remembered cost, if there is one and a last evaluation. If memory runs out, nothing has been
/// computed.
pub(crate) fn prepare_at(
    alloc: Global,
    prepared: &mut Prepared,
    last: &Option<LastThought>,
    best: Option<i128>,
)
    requires { (I : Problem) × IfSome last.now (IsLastThought I) }
    ensures { (I : Problem) → IfSome last.now (IsLastThought I) → HasPrepared I last.now prepared.new }
{
    prepared.forget();
    let Some(last) = last else {
        return;
    };
    let Some(cost) = best else {
        return;
    };
    // Without memory the step that reads works it out.
    let _ = prepared.prepare(alloc, last, cost);
}
