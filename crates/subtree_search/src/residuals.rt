//! The residuals of pairs that a search keeps in a table.

ghost use Rattle.std.specs.Prelude.{◌≡◌, IfSome};
ghost use Rattle.pair_duals.specs.Range.{IsInScale};
ghost use Rattle.subtree_search.specs.Premises.{limits_of_64};

use pair_duals::{KeptResiduals, PairDuals, ResidualMemory};
use qap_cost::Instance;
use std::alloc::Global;
use std::mem::replace;

/// The most free facilities whose residuals are kept: their table takes 30 MB.
const MOST: usize = 44;

/// Fills a table of residuals, in the memory of the last one, for a search that evaluates at most `limit` nodes. `None`
/// if so few do not pay for it, if it would be too large, or if there is no memory for it.
pub(crate) fn keep<'a>(
    alloc: Global,
    memory: &mut ResidualMemory<i64>,
    instance: &'a Instance,
    duals: &'a PairDuals<i64>,
    limit: u64,
) -> Option<KeptResiduals<'a, i64>>
    requires size { instance.now.size ≡ duals.now.size }
    requires in_scale { IsInScale limits_of_64 instance.now duals.now.scale }
    ensures { IfSome result (λ kept. kept ≡ record { problem = instance.now; duals = duals.now }) }
{
    if !pays(duals.free(), limit) {
        return None;
    }
    let memory = replace(memory, ResidualMemory::empty(alloc));
    KeptResiduals::fill(memory, instance, duals).ok()
}

/// Whether a table for `m` free facilities pays in a search of that many nodes: it takes as long to fill as some `m^2` children, and
/// saves half the time of each.
fn pays(m: usize, limit: u64) -> bool {
    m <= MOST && limit / 4 >= (m * m) as u64
}

/// Takes the memory of a table back.
pub(crate) fn take_back(memory: &mut ResidualMemory<i64>, kept: Option<KeptResiduals<'_, i64>>) {
    if let Some(kept) = kept {
        *memory = kept.into_memory();
    }
}
