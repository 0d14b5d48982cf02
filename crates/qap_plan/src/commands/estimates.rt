//! Estimates of the parts of a search, as they are printed.

ghost use Rattle.std.specs.Prelude.{◌≡◌, ◌<◌, ℕ, true, IfErr, List, OnOk, length};
ghost use Rattle.qap_cost.specs.Objective.{Permutes};
ghost use Rattle.plan_files.specs.Outputs.{IsFailure};
ghost use Rattle.qap_plan.specs.Estimates.{AreOfSize, PrintsEstimates};

use crate::output::estimate_lines::{Total, part_line, total_line};
use crate::search::splitting::Skeleton;
use plan_files::{PlannerError, Sink};
use plan_search::{Keeper, estimate_below};
use qap_cost::Instance;
use qap_io::Status;
use std::alloc::{AllocError, Global};
use subtree_search::Estimate;

/// Estimates how many nodes the search of each part evaluates, and prints a line on each as soon as it is found, and one on
/// all of them; none if no part is left. Failures are reported of this folder.
pub fn tell_estimates<S: Sink, K: Keeper>(
    alloc: Global,
    sink: &mut S,
    folder: &str,
    instance: &Instance,
    skeleton: &Skeleton,
    keeper: &K,
) -> Result<(), Status>
    requires permutes { Permutes instance.now skeleton.now.proof.permutation }
    requires sizes { AreOfSize instance.now.size skeleton.now.parts.items }
    ensures printed { OnOk result (PrintsEstimates S.prints true (length skeleton.now.parts.items) sink.old sink.new) }
    ensures failed { IfErr result IsFailure }
{
    let count = skeleton.parts.len();
    if count == 0 {
        return Ok(());
    }
    let mut total = Total::new();
    for k in 0..count {
        let found = estimate_part(alloc, sink, folder, instance, skeleton, k, keeper)?;
        total.add(found);
        let line = part_line(alloc, k + 1, found);
        print_line(alloc, sink, folder, line)?;
    }
    let line = total_line(alloc, total);
    print_line(alloc, sink, folder, line)?;
    Ok(())
}

/// The estimate of part `k`, if there is one.
fn estimate_part<S: Sink, K: Keeper>(
    alloc: Global,
    sink: &S,
    folder: &str,
    instance: &Instance,
    skeleton: &Skeleton,
    k: usize,
    keeper: &K,
) -> Result<Option<Estimate>, Status>
    requires k_in { k < length skeleton.now.parts.items }
    requires permutes { Permutes instance.now skeleton.now.proof.permutation }
    requires sizes { AreOfSize instance.now.size skeleton.now.parts.items }
    ensures { IfErr result IsFailure }
{
    let node = &skeleton.parts[k].node;
    match estimate_below(alloc, instance, node, skeleton.proof.perm(), keeper) {
        Ok(found) => Ok(found),
        Err(_) => Err(sink.refuse(folder, PlannerError::OutOfMemory)),
    }
}

/// Prints a line, for which memory may be missing.
fn print_line<S: Sink>(
    alloc: Global,
    sink: &mut S,
    folder: &str,
    line: Result<String, AllocError>,
) -> Result<(), Status>
    ensures printed { OnOk result ((text : List ℕ) × S.prints sink.old text sink.new) }
    ensures failed { IfErr result IsFailure }
{
    let Ok(line) = line else {
        return Err(sink.refuse(folder, PlannerError::OutOfMemory));
    };
    match sink.print(alloc, line.as_bytes()) {
        Status::Done => Ok(()),
        failed => Err(failed),
    }
}
