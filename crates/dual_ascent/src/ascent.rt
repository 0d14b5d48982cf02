//! Finds pair duals for a node.

ghost use Rattle.std.specs.Prelude.{◌≡◌, IfOk, IsTrue};
ghost use Rattle.std.specs.Option.{IfSome};
ghost use Rattle.pair_duals.specs.PairDuals.{AreOf, Fit};
ghost use Rattle.dual_ascent.specs.AscentRange.{HasRange};

use crate::costs::{Free, fill_left};
use crate::effort::Effort;
use crate::inherited::inherit;
use crate::rounds::run_rounds;
use crate::softening::soften;
use crate::state::{State, Workspace};
use crate::trivial::trivial;
use pair_duals::{PairDuals, fits};
use qap_cost::{Instance, Partial};
use std::alloc::{AllocError, Global};

/// Pair duals of a node, which fit: those found by this many rounds, at least one, starting from those of the node
/// itself or of an ancestor.
///
/// The result fits regardless of `start`, which is ignored if its scale differs, or if a free facility or location of
/// the node is not among its own. The only error is out of memory.
pub fn ascend(
    alloc: Global,
    instance: &Instance,
    node: &Partial,
    start: Option<&PairDuals<i64>>,
    rounds: u32,
    scale: u32,
) -> Result<PairDuals<i64>, AllocError>
    requires size { instance.now.size ≡ node.now.size }
    requires range { HasRange instance.now scale }
    ensures of_node { IfOk result (AreOf node.now) }
    ensures scale { IfOk result (λ D. D.scale ≡ scale) }
    ensures fits { IfOk result (Fit instance.now) }
{
    let effort = Effort::hard(rounds);
    ascend_softly(alloc, instance, node, start, &effort, scale)
}

/// The same by soft sweeps, and hard rounds after them.
pub fn ascend_softly(
    alloc: Global,
    instance: &Instance,
    node: &Partial,
    start: Option<&PairDuals<i64>>,
    effort: &Effort,
    scale: u32,
) -> Result<PairDuals<i64>, AllocError>
    requires size { instance.now.size ≡ node.now.size }
    requires range { HasRange instance.now scale }
    ensures of_node { IfOk result (AreOf node.now) }
    ensures scale { IfOk result (λ D. D.scale ≡ scale) }
    ensures fits { IfOk result (Fit instance.now) }
{
    match find(alloc, instance, node, start, effort, scale)? {
        Some(duals) if do_fit(instance, node, &duals, scale) => Ok(duals),
        _ => trivial(alloc, node, scale),
    }
}

/// Whether the pair duals of a node fit.
fn do_fit(instance: &Instance, node: &Partial, duals: &PairDuals<i64>, scale: u32) -> bool
    requires size { instance.now.size ≡ node.now.size }
    requires range { HasRange instance.now scale }
    requires of_node { AreOf node.now duals.now }
    requires scale { duals.now.scale ≡ scale }
    ensures { IsTrue result → Fit instance.now duals.now }
{
    fits(instance, duals)
}

/// Pair duals of a node that may fit.
fn find(
    alloc: Global,
    instance: &Instance,
    node: &Partial,
    start: Option<&PairDuals<i64>>,
    effort: &Effort,
    scale: u32,
) -> Result<Option<PairDuals<i64>>, AllocError>
    requires size { instance.now.size ≡ node.now.size }
    ensures of_node { IfOk result (λ found. IfSome found (AreOf node.now)) }
    ensures scale { IfOk result (λ found. IfSome found (λ D. D.scale ≡ scale)) }
{
    let facilities = node.free_facilities()?;
    let locations = node.free_locations()?;
    let free = Free {
        facilities: &facilities,
        locations: &locations,
        scale: i64::from(scale),
    };
    let (alpha, beta) = search(alloc, instance, node, &free, start, effort)?;
    Ok(PairDuals::new(node.size(), facilities, locations, scale, alpha, beta))
}

/// The duals that sweeps and rounds yield.
fn search(
    alloc: Global,
    instance: &Instance,
    node: &Partial,
    free: &Free<'_>,
    start: Option<&PairDuals<i64>>,
    effort: &Effort,
) -> Result<(Vec<i64>, Vec<i64>), AllocError>
    requires size { instance.now.size ≡ node.now.size }
{
    let m = free.facilities.len();
    let mut state = State::with_size(alloc, m)?;
    if let Some(duals) = start
        && i64::from(duals.scale()) == free.scale
    {
        inherit(alloc, duals, free, &mut state)?;
    }
    fill_left(alloc, instance, node, free, &mut state)?;
    if m > 1 {
        let mut workspace = Workspace::with_size(alloc, m)?;
        if effort.sweeps > 0 {
            soften(
                alloc,
                instance,
                node,
                free,
                effort,
                &mut state,
                &mut workspace,
            )?;
        }
        run_rounds(&mut state, &mut workspace, effort.rounds.max(1));
    }
    Ok(state.into_duals())
}
