//! Pair duals in memory, from the rows that list them.

ghost use Rattle.std.specs.Prelude.{◌≡◌, ◌+◌, ◌-◌, ◌*◌, ◌<◌, ◌≤◌, ◌^◌, All, length, IfOk, IfSome, MatchOption, ⊤};
ghost use Rattle.qap_cost.specs.Placement.{IsPlacement};
ghost use Rattle.pair_duals.specs.PairDuals.{Duals, Fit};
ghost use Rattle.pair_duals.specs.Range.{IsInScale};
ghost use Rattle.proof_tree.specs.Shape.{ArePairRows, AreLimited};
ghost use Rattle.proof_tree.specs.Valid.{AreListed};
ghost use Rattle.proof_check.specs.Judge.{wide};
ghost use Rattle.proof_check.specs.Rows.{IsLayers, lists_of, number_of, rows_of};

use pair_duals::{PairDuals, fits, is_in_scale};
use qap_cost::{Instance, Partial};
use std::alloc::{AllocError, Global};

/// The pair duals of a node that rows list, if they fit.
pub(crate) fn listed(
    alloc: Global,
    instance: &Instance,
    node: &Partial,
    scale: u32,
    rows: &[Vec<i128>],
) -> Result<Option<PairDuals<i128>>, AllocError>
    requires size { instance.now.size ≡ node.now.size }
    requires rows { ArePairRows (node.now.size - length node.now.facilities) (rows_of scale (lists_of rows.now)) }
    ensures found { IfOk result (λ o. IfSome o (λ D. AreListed node.now (rows_of scale (lists_of rows.now)) D × Fit instance.now D × IsInScale wide instance.now scale)) }
    ensures none { IfOk result (λ o. MatchOption o ((D : Duals) → AreListed node.now (rows_of scale (lists_of rows.now)) D → Fit instance.now D → ⊥) (λ _. ⊤)) }
{
    instance.instance_law();
    let facilities = node.free_facilities()?;
    let locations = node.free_locations()?;
    let m = facilities.len();
    let alpha = alphas(alloc, rows, m)?;
    let beta = betas(alloc, rows, m)?;
    let Some(duals) = PairDuals::new(node.size(), facilities, locations, scale, alpha, beta) else {
        return Ok(None);
    };
    if !is_in_scale::<i128>(instance, scale) {
        return Ok(None);
    }
    if !fits(instance, &duals) {
        return Ok(None);
    }
    Ok(Some(duals))
}

/// The duals for facilities, listed by the other facility, then the facility, then the location.
fn alphas(alloc: Global, rows: &[Vec<i128>], m: usize) -> Result<Vec<i128>, AllocError>
    requires small { m ≤ 256 }
    requires count { length rows.now ≡ m * m }
    requires each { All (AreLimited (2 * (m - 1))) (lists_of rows.now) }
    ensures { IfOk result (λ list. IsLayers m (λ j i k. number_of (lists_of rows.now) i j (i * m + k) 0) list.items) }
{
    let mut list = Vec::with_capacity(alloc, m * m * m)?;
    for place in 0..m * m * m {
        let k = place % m;
        let i = place / m % m;
        let j = place / m / m;
        list.push(number_at(rows, m, i, j, i * m + k, 0))?;
    }
    Ok(list)
}

/// The duals for locations, listed by the other location, then the facility, then the location.
fn betas(alloc: Global, rows: &[Vec<i128>], m: usize) -> Result<Vec<i128>, AllocError>
    requires small { m ≤ 256 }
    requires count { length rows.now ≡ m * m }
    requires each { All (AreLimited (2 * (m - 1))) (lists_of rows.now) }
    ensures { IfOk result (λ list. IsLayers m (λ l i k. number_of (lists_of rows.now) k l (i * m + k) (m - 1)) list.items) }
{
    let mut list = Vec::with_capacity(alloc, m * m * m)?;
    for place in 0..m * m * m {
        let k = place % m;
        let i = place / m % m;
        let l = place / m / m;
        list.push(number_at(rows, m, k, l, i * m + k, m - 1))?;
    }
    Ok(list)
}

/// The number for `other` in a row, where those for all but `own` are from `start` on; 0 for `own` itself.
fn number_at(
    rows: &[Vec<i128>],
    m: usize,
    own: usize,
    other: usize,
    row: usize,
    start: usize,
) -> i128
    requires small { m ≤ 256 }
    requires count { length rows.now ≡ m * m }
    requires each { All (AreLimited (2 * (m - 1))) (lists_of rows.now) }
    requires own_in { own < m }
    requires other_in { other < m }
    requires row_in { row < m * m }
    requires start_in { start ≤ m - 1 }
    ensures { result ≡ number_of (lists_of rows.now) own other row start }
{
    if other == own {
        return 0;
    }
    let place = if other < own { other } else { other - 1 };
    let numbers = &rows[row];
    numbers[start + place]
}
