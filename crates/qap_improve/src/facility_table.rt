//! Tables of the flows and the distances between facilities, n by n by rows, in 32 bits.

ghost use Rattle.std.specs.Prelude.{◌≡◌, ◌≢◌, ◌+◌, ◌*◌, ◌<◌, ◌≤◌, IfOk, length};
ghost use Rattle.qap_cost.specs.Instance.{entry};
ghost use Rattle.qap_cost.specs.Objective.{Permutes};
ghost use Rattle.qap_cost.specs.Range.{InRange};
ghost use Rattle.qap_improve.specs.Arrangement.{AreExchanged, IsTable, IsTableBefore, content};
ghost use Rattle.qap_improve.specs.Difference.{distance};
ghost use Rattle.qap_improve.specs.Exchange.{partner};

use qap_cost::Instance;
use std::alloc::{AllocError, Global};

/// What a table has in row `i`, column `j`.
#[derive(Clone, Copy)]
pub(crate) enum Content {
    /// The flow from `i` to `j`.
    Flows,
    /// The flow from `j` to `i`.
    FlowsBack,
    /// The distance from the location of `i` to that of `j`.
    Distances,
    /// The distance from the location of `j` to that of `i`.
    DistancesBack,
}

/// The table with this content, where the facilities are at these locations.
pub(crate) fn new_table(
    alloc: Global,
    instance: &Instance,
    locations: &[u16],
    kind: Content,
) -> Result<Vec<i32>, AllocError>
    requires { Permutes instance.now locations.now }
    ensures { IfOk result (λ table. IsTable instance.now.size (content instance.now locations.now kind) table.items) }
{
    let n = instance.size();
    let entries = vec![in alloc; 0; n * n]?;
    Ok(filled(instance, locations, kind, entries))
}

/// The list with all entries written to it.
fn filled(instance: &Instance, locations: &[u16], kind: Content, mut entries: Vec<i32>) -> Vec<i32>
    requires permutation { Permutes instance.now locations.now }
    requires count { length entries.items ≡ instance.now.size * instance.now.size }
    ensures { IsTable instance.now.size (content instance.now locations.now kind) result.items }
{
    fill_rows(instance, locations, kind, &mut entries);
    entries
}

/// Writes all entries.
fn fill_rows(instance: &Instance, locations: &[u16], kind: Content, entries: &mut [i32])
    requires permutation { Permutes instance.now locations.now }
    requires count { length entries.old ≡ instance.now.size * instance.now.size }
    ensures { IsTable instance.now.size (content instance.now locations.now kind) entries.new }
{
    for i in 0..instance.size() {
        fill_row(instance, locations, kind, i, entries);
    }
}

/// Writes the entries of row `i`, where those of the rows above are written.
fn fill_row(instance: &Instance, locations: &[u16], kind: Content, i: usize, entries: &mut [i32])
    requires permutation { Permutes instance.now locations.now }
    requires row { i < instance.now.size }
    requires above { IsTableBefore (i * instance.now.size) instance.now.size (content instance.now locations.now kind) entries.old }
    ensures { IsTableBefore ((i + 1) * instance.now.size) instance.now.size (content instance.now locations.now kind) entries.new }
{
    let n = instance.size();
    for j in 0..n {
        entries[i * n + j] = narrow(entry_of(instance, locations, kind, i, j));
    }
}

/// The entry that belongs in row `i`, column `j`.
fn entry_of(instance: &Instance, locations: &[u16], kind: Content, i: usize, j: usize) -> i64
    requires permutation { Permutes instance.now locations.now }
    requires row { i < instance.now.size }
    requires column { j < instance.now.size }
    ensures value { result ≡ content instance.now locations.now kind i j }
    ensures range { InRange result }
{
    match kind {
        Content::Flows => instance.a(i, j),
        Content::FlowsBack => instance.a(j, i),
        Content::Distances => distance_at(instance, locations, i, j),
        Content::DistancesBack => distance_at(instance, locations, j, i),
    }
}

/// The distance from where facility `i` is to where `j` does.
fn distance_at(instance: &Instance, locations: &[u16], i: usize, j: usize) -> i64
    requires permutation { Permutes instance.now locations.now }
    requires row { i < instance.now.size }
    requires column { j < instance.now.size }
    ensures value { result ≡ distance instance.now locations.now i j }
    ensures range { InRange result }
{
    instance.b(usize::from(locations[i]), usize::from(locations[j]))
}

/// An entry in 32 bits, which hold it.
fn narrow(entry: i64) -> i32
    requires { InRange entry }
    ensures { result ≡ entry }
{
    entry as i32
}

/// Rows `r` and `s` of an n by n table at each other's place, and columns `r` and `s` too.
pub(crate) fn exchange_in(n: usize, table: &mut Vec<i32>, r: usize, s: usize)
    requires count { length table.old.items ≡ n * n }
    requires first { r < n }
    requires second { s < n }
    requires two { r ≢ s }
    ensures { AreExchanged n r s table.old.items table.new.items }
{
    exchange_in_slice(n, table, r, s);
}

/// Likewise for a slice.
fn exchange_in_slice(n: usize, table: &mut [i32], r: usize, s: usize)
    requires count { length table.old ≡ n * n }
    requires first { r < n }
    requires second { s < n }
    requires two { r ≢ s }
    ensures { AreExchanged n r s table.old table.new }
{
    exchange_rows(n, table, r, s);
    exchange_columns(n, table, r, s);
}

/// Rows `r` and `s` at each other's place.
fn exchange_rows(n: usize, table: &mut [i32], r: usize, s: usize)
    requires count { length table.old ≡ n * n }
    requires first { r < n }
    requires second { s < n }
    requires two { r ≢ s }
    ensures { IsTable n (λ i j. entry n table.old (partner r s i) j) table.new }
{
    for k in 0..n {
        table.swap(r * n + k, s * n + k);
    }
}

/// Columns `r` and `s` at each other's place.
fn exchange_columns(n: usize, table: &mut [i32], r: usize, s: usize)
    requires count { length table.old ≡ n * n }
    requires first { r < n }
    requires second { s < n }
    requires two { r ≢ s }
    ensures { IsTable n (λ i j. entry n table.old i (partner r s j)) table.new }
{
    for k in 0..n {
        table.swap(k * n + r, k * n + s);
    }
}
