//! Closes the nodes that a stopped search has left open, by the calling thread or by several.

ghost use denote.Param.Send.{IsSync};
ghost use Rattle.std.specs.Prelude.{◌≡◌, ◌⊎◌, ◌++◌, IfOk, MatchResult};
ghost use Rattle.space_txn.specs.Content.{SameItems};
ghost use Rattle.qap_search.specs.Certificate.ClosedTuples.{AreClosed, HasNoNode};
ghost use Rattle.qap_search.specs.declared.certificate.error.AssembleError.TheVariants.{NotATree, OutOfMemory};

use crate::certificate::closing_open_nodes::close_open;
use crate::certificate::error::AssembleError;
use gilmore_lawler::RankedInstance;
use std::alloc::{AllocError, Global};
use std::mem::swap;
use std::thread;
use std::thread::Threads;
use tuple_match::Tuple;

/// Those who close open nodes.
pub(crate) trait Closers {
    /// What they need.
    ghost ready: { Type 0 };

    /// The tuples, in any order, where each open node is closed by the duals of a least assignment of its
    /// Gilmore-Lawler matrix.
    fn close_open(
        &self,
        alloc: Global,
        instance: &RankedInstance,
        tuples: Vec<Tuple>,
    ) -> Result<Vec<Tuple>, AssembleError>
        requires { ready }
        ensures { MatchResult result
            (λ closed. AreClosed instance.now tuples.items closed.items)
            (λ e. (e ≡ OutOfMemory) ⊎ ((e ≡ NotATree) × HasNoNode instance.now.size tuples.items)) };
}

/// The calling thread alone.
#[derive(Drop)]
pub(crate) struct One;

impl Closers for One {
    ghost ready = { Unit {0} };

    fn close_open(
        &self,
        alloc: Global,
        instance: &RankedInstance,
        tuples: Vec<Tuple>,
    ) -> Result<Vec<Tuple>, AssembleError> {
        close_open(alloc, instance, tuples)
    }
}

/// Many threads, twice as many with each halving of the tuples.
#[derive(Drop)]
pub(crate) struct Many<'a, R: Threads> {
    pub(crate) rt: &'a R,
    pub(crate) halvings: u32,
}

impl<'a, R: Threads + Sync> Many<'a, R> {
    /// This many threads, or up to twice as many.
    pub(crate) fn new(rt: &'a R, threads: u16) -> Many<'a, R> {
        let halvings = u16::BITS - threads.saturating_sub(1).leading_zeros();
        Many { rt, halvings }
    }
}

impl<'a, R: Threads + Sync> Closers for Many<'a, R> {
    ghost use denote.Param.Send.{IsSync};

    ghost ready = { IsSync R.row };

    fn close_open(
        &self,
        alloc: Global,
        instance: &RankedInstance,
        tuples: Vec<Tuple>,
    ) -> Result<Vec<Tuple>, AssembleError> {
        close_halves(self.rt, alloc, instance, self.halvings, tuples)
    }
}

/// Closes them by as many threads as halving so often gives lists.
#[cycle(halves)]
fn close_halves<R: Threads + Sync>(
    rt: &R,
    alloc: Global,
    instance: &RankedInstance,
    halvings: u32,
    tuples: Vec<Tuple>,
) -> Result<Vec<Tuple>, AssembleError>
    ensures { MatchResult result
        (λ closed. AreClosed instance.now tuples.items closed.items)
        (λ e. (e ≡ OutOfMemory) ⊎ ((e ≡ NotATree) × HasNoNode instance.now.size tuples.items)) }
{
    if halvings == 0 {
        return close_open(alloc, instance, tuples);
    }
    let (front, back) = dealt(alloc, tuples)?;
    let fewer = halvings - 1;
    let first = move || -> Result<Vec<Tuple>, AssembleError>
        requires { IsSync R.row }
        ensures { MatchResult result
            (λ closed. AreClosed instance.entry.now front.items closed.items)
            (λ e. (e ≡ OutOfMemory) ⊎ ((e ≡ NotATree) × HasNoNode instance.entry.now.size front.items)) }
    { close_halves(rt, alloc, instance, fewer, front) };
    let second = move || -> Result<Vec<Tuple>, AssembleError>
        requires { IsSync R.row }
        ensures { MatchResult result
            (λ closed. AreClosed instance.entry.now back.items closed.items)
            (λ e. (e ≡ OutOfMemory) ⊎ ((e ≡ NotATree) × HasNoNode instance.entry.now.size back.items)) }
    { close_halves(rt, alloc, instance, fewer, back) };
    let (left, right) = thread::join(rt, first, second);
    both(left?, right?)
}

/// The tuples of both lists.
fn both(mut front: Vec<Tuple>, mut back: Vec<Tuple>) -> Result<Vec<Tuple>, AssembleError>
    ensures { MatchResult result (λ all. all.items ≡ front.items ++ back.items) (λ e. e ≡ OutOfMemory) }
{
    match front.append(&mut back) {
        Ok(()) => Ok(front),
        Err(_) => Err(AssembleError::OutOfMemory),
    }
}

/// The tuples in two lists, dealt out alternately, so that both get as many open nodes: these are together at the end.
fn dealt(alloc: Global, mut tuples: Vec<Tuple>) -> Result<(Vec<Tuple>, Vec<Tuple>), AllocError>
    ensures { IfOk result (λ dealt. SameItems tuples.items (dealt.0.items ++ dealt.1.items)) }
{
    let half = tuples.len().div_ceil(2);
    let mut first = Vec::with_capacity(alloc, half)?;
    let mut second = Vec::with_capacity(alloc, half)?;
    while let Some(tuple) = tuples.pop() {
        first.push(tuple)?;
        swap(&mut first, &mut second);
    }
    Ok((first, second))
}
