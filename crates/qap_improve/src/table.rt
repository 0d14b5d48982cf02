//! The cost change of each exchange of two facilities, kept from one exchange to the next (Taillard 1991).

ghost use Rattle.std.specs.Prelude.{◌≡◌, ◌≢◌, ◌+◌, ◌*◌, ◌<◌, length, map, pos, slice_index_or, slice_set, IfOk};
ghost use Rattle.qap_improve.specs.Arrangement.{HasEntriesWithin, IsArrangement};
ghost use Rattle.qap_improve.specs.Exchange.{exchanging};
ghost use Rattle.qap_improve.specs.Table.{AreContrasts, AreDifferences, AreKept, HasFilled, HasMoved, HasSettled, IsDifference, Settles};
ghost use Rattle.qap_cost.specs.Instance.{IsInstance};

use crate::arrangement::{Arrangement, change_at};
use crate::contrast::{Contrast, NO_CONTRAST, fill_contrasts};
use crate::number::Number;
use qap_cost::Instance;
use std::alloc::{AllocError, Global};

/// For each two facilities `r < s` of `n` what the cost changes by when they exchange their locations: at `r * n + s`.
#[derive(Drop)]
pub(crate) struct Differences<N> {
    pub entries: Vec<N>,
    /// Those of each facility with the two that were exchanged last.
    contrasts: Vec<Contrast>,
}

/// Those of the permutation with these locations, each computed separately, in time O(n^3).
pub(crate) fn all_differences<N: Number>(
    alloc: Global,
    instance: &Instance,
    arrangement: &Arrangement,
) -> Result<Differences<N>, AllocError>
    requires instance { IsInstance instance.now }
    requires arrangement { IsArrangement instance.now arrangement.now }
    requires small { HasEntriesWithin N.limit instance.now }
    ensures { IfOk result (AreKept N.value instance.now arrangement.now.locations.items) }
{
    let n = instance.size();
    let entries = N::zeros(alloc, n * n)?;
    let contrasts = vec![in alloc; NO_CONTRAST; n]?;
    Ok(Differences {
        entries: filled(instance, arrangement, entries),
        contrasts,
    })
}

/// Makes them those of the permutation with these locations, where they were those of the one that it came from when the
/// facilities `u` and `v` exchanged theirs.
///
/// Takes time in n^2: the pairs that share a facility with the exchange are computed again, the others in constant time
/// each.
pub(crate) fn update<N: Number>(
    instance: &Instance,
    arrangement: &Arrangement,
    differences: &mut Differences<N>,
    u: usize,
    v: usize,
)
    requires instance { IsInstance instance.now }
    requires arrangement { IsArrangement instance.now arrangement.now }
    requires small { HasEntriesWithin N.limit instance.now }
    requires first { u < instance.now.size }
    requires second { v < instance.now.size }
    requires two { u ≢ v }
    requires before { AreKept N.value instance.now (exchanging arrangement.now.locations.items u v) differences.old }
    ensures { AreKept N.value instance.now arrangement.now.locations.items differences.new }
{
    fill_contrasts(instance, arrangement, u, v, &mut differences.contrasts);
    bring_up(
        instance,
        arrangement,
        (u, v),
        &differences.contrasts,
        &mut differences.entries,
    );
}

/// Brings all differences up to the exchange of two facilities.
fn bring_up<N: Number>(
    instance: &Instance,
    arrangement: &Arrangement,
    exchanged: (usize, usize),
    contrasts: &[Contrast],
    entries: &mut [N],
)
    requires instance { IsInstance instance.now }
    requires arrangement { IsArrangement instance.now arrangement.now }
    requires small { HasEntriesWithin N.limit instance.now }
    requires first { exchanged.0 < instance.now.size }
    requires second { exchanged.1 < instance.now.size }
    requires two { exchanged.0 ≢ exchanged.1 }
    requires contrasts { AreContrasts instance.now arrangement.now.locations.items exchanged.0 exchanged.1 contrasts.now }
    requires before { AreDifferences instance.now (exchanging arrangement.now.locations.items exchanged.0 exchanged.1) (map N.value entries.old) }
    ensures { AreDifferences instance.now arrangement.now.locations.items (map N.value entries.new) }
{
    update_rows(instance, arrangement, exchanged, contrasts, entries);
    settle_all(instance, arrangement, exchanged, entries);
}

/// The list with all differences written to it.
fn filled<N: Number>(instance: &Instance, arrangement: &Arrangement, mut entries: Vec<N>) -> Vec<N>
    requires instance { IsInstance instance.now }
    requires arrangement { IsArrangement instance.now arrangement.now }
    requires small { HasEntriesWithin N.limit instance.now }
    requires count { length entries.items ≡ instance.now.size * instance.now.size }
    ensures { AreDifferences instance.now arrangement.now.locations.items (map N.value result.items) }
{
    fill_rows(instance, arrangement, &mut entries);
    entries
}

/// Writes all differences.
fn fill_rows<N: Number>(instance: &Instance, arrangement: &Arrangement, entries: &mut [N])
    requires instance { IsInstance instance.now }
    requires arrangement { IsArrangement instance.now arrangement.now }
    requires small { HasEntriesWithin N.limit instance.now }
    requires count { length entries.old ≡ instance.now.size * instance.now.size }
    ensures { AreDifferences instance.now arrangement.now.locations.items (map N.value entries.new) }
{
    for r in 0..instance.size() {
        fill_row(instance, arrangement, r, entries);
    }
}

/// Writes the differences of row `r`, where those of the rows above are written.
fn fill_row<N: Number>(instance: &Instance, arrangement: &Arrangement, r: usize, entries: &mut [N])
    requires instance { IsInstance instance.now }
    requires arrangement { IsArrangement instance.now arrangement.now }
    requires small { HasEntriesWithin N.limit instance.now }
    requires row { r < instance.now.size }
    requires above { HasFilled instance.now arrangement.now.locations.items (map N.value entries.old) (r * instance.now.size) }
    ensures { HasFilled instance.now arrangement.now.locations.items (map N.value entries.new) ((r + 1) * instance.now.size) }
{
    let n = instance.size();
    for s in r + 1..n {
        let difference = difference_of(instance, arrangement, r, s);
        put(entries, r * n + s, difference);
    }
}

/// What the cost changes by when facilities `r` and `s` exchange their locations, in this width. Takes time in n.
fn difference_of<N: Number>(instance: &Instance, arrangement: &Arrangement, r: usize, s: usize) -> N
    requires instance { IsInstance instance.now }
    requires arrangement { IsArrangement instance.now arrangement.now }
    requires small { HasEntriesWithin N.limit instance.now }
    requires first { r < instance.now.size }
    requires second { s < instance.now.size }
    requires two { r ≢ s }
    ensures { IsDifference instance.now arrangement.now.locations.items r s (N.value result) }
{
    N::narrow(change_at(instance, arrangement, r, s))
}

/// Brings the pairs that share no facility with the exchange of `u` and `v` up to it.
fn update_rows<N: Number>(
    instance: &Instance,
    arrangement: &Arrangement,
    exchanged: (usize, usize),
    contrasts: &[Contrast],
    entries: &mut [N],
)
    requires instance { IsInstance instance.now }
    requires arrangement { IsArrangement instance.now arrangement.now }
    requires small { HasEntriesWithin N.limit instance.now }
    requires first { exchanged.0 < instance.now.size }
    requires second { exchanged.1 < instance.now.size }
    requires two { exchanged.0 ≢ exchanged.1 }
    requires contrasts { AreContrasts instance.now arrangement.now.locations.items exchanged.0 exchanged.1 contrasts.now }
    requires before { AreDifferences instance.now (exchanging arrangement.now.locations.items exchanged.0 exchanged.1) (map N.value entries.old) }
    ensures { HasSettled instance.now arrangement.now.locations.items exchanged.0 exchanged.1 0 (map N.value entries.new) }
{
    for r in 0..instance.size() {
        update_row(instance, arrangement, exchanged, r, contrasts, entries);
    }
}

/// Brings those of row `r` up to it, where those of the rows above are.
fn update_row<N: Number>(
    instance: &Instance,
    arrangement: &Arrangement,
    exchanged: (usize, usize),
    r: usize,
    contrasts: &[Contrast],
    entries: &mut [N],
)
    requires instance { IsInstance instance.now }
    requires arrangement { IsArrangement instance.now arrangement.now }
    requires small { HasEntriesWithin N.limit instance.now }
    requires first { exchanged.0 < instance.now.size }
    requires second { exchanged.1 < instance.now.size }
    requires two { exchanged.0 ≢ exchanged.1 }
    requires row { r < instance.now.size }
    requires contrasts { AreContrasts instance.now arrangement.now.locations.items exchanged.0 exchanged.1 contrasts.now }
    requires above { HasMoved instance.now arrangement.now.locations.items exchanged.0 exchanged.1 (map N.value entries.old) (r * instance.now.size) }
    ensures { HasMoved instance.now arrangement.now.locations.items exchanged.0 exchanged.1 (map N.value entries.new) ((r + 1) * instance.now.size) }
{
    let start = r * instance.size();
    let with_r = contrasts[r];
    for s in r + 1..instance.size() {
        let old = number_at(entries, start + s);
        put(
            entries,
            start + s,
            old.after_exchange(&with_r, &contrasts[s]),
        );
    }
}

/// Computes all pairs that share a facility with the exchange of `u` and `v` again.
fn settle_all<N: Number>(
    instance: &Instance,
    arrangement: &Arrangement,
    exchanged: (usize, usize),
    entries: &mut [N],
)
    requires instance { IsInstance instance.now }
    requires arrangement { IsArrangement instance.now arrangement.now }
    requires small { HasEntriesWithin N.limit instance.now }
    requires first { exchanged.0 < instance.now.size }
    requires second { exchanged.1 < instance.now.size }
    requires before { HasSettled instance.now arrangement.now.locations.items exchanged.0 exchanged.1 0 (map N.value entries.old) }
    ensures { AreDifferences instance.now arrangement.now.locations.items (map N.value entries.new) }
{
    for k in 0..instance.size() {
        settle(instance, arrangement, k, exchanged.0, entries);
        settle(instance, arrangement, k, exchanged.1, entries);
    }
}

/// Computes the difference of two facilities again, if they are two.
fn settle<N: Number>(
    instance: &Instance,
    arrangement: &Arrangement,
    k: usize,
    w: usize,
    entries: &mut [N],
)
    requires instance { IsInstance instance.now }
    requires arrangement { IsArrangement instance.now arrangement.now }
    requires small { HasEntriesWithin N.limit instance.now }
    requires first { k < instance.now.size }
    requires second { w < instance.now.size }
    requires count { length entries.old ≡ instance.now.size * instance.now.size }
    ensures { Settles instance.now arrangement.now.locations.items k w (map N.value entries.old) (map N.value entries.new) }
{
    if k < w {
        write(instance, arrangement, k, w, entries);
    } else if w < k {
        write(instance, arrangement, w, k, entries);
    }
}

/// Writes the difference of facilities `r < s`.
fn write<N: Number>(
    instance: &Instance,
    arrangement: &Arrangement,
    r: usize,
    s: usize,
    entries: &mut [N],
)
    requires instance { IsInstance instance.now }
    requires arrangement { IsArrangement instance.now arrangement.now }
    requires small { HasEntriesWithin N.limit instance.now }
    requires order { r < s }
    requires second { s < instance.now.size }
    requires count { length entries.old ≡ instance.now.size * instance.now.size }
    ensures { Settles instance.now arrangement.now.locations.items r s (map N.value entries.old) (map N.value entries.new) }
{
    let difference = difference_of(instance, arrangement, r, s);
    put(entries, r * instance.size() + s, difference);
}

/// The number at this position.
pub(crate) fn number_at<N: Number>(numbers: &[N], place: usize) -> N
    requires { place < length numbers.now }
    ensures { N.value result ≡ slice_index_or (map N.value numbers.now) place (pos 0) }
{
    numbers[place]
}

/// Writes a number to a place.
fn put<N: Number>(numbers: &mut [N], place: usize, number: N)
    requires { place < length numbers.old }
    ensures { map N.value numbers.new ≡ slice_set (map N.value numbers.old) place (N.value number) }
{
    numbers[place] = number;
}
