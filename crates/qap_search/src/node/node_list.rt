//! Reads a node from its list.

ghost use Rattle.std.specs.Prelude.{◌≡◌, ◌≢◌, ◌<◌, ◌≤◌, ℕ, IfOk, MatchBool, MatchOption, pos};
ghost use Rattle.number_list.specs.Numbers.{numbers_in};
ghost use Rattle.qap_cost.specs.Placement.{IsFreeFacility, IsFreeLocation, IsPlacement, Placement};
ghost use Rattle.qap_search.specs.Node.NodeList.{IsNextOf, IsReadFrom};
ghost use Rattle.qap_search.specs.Tuples.Piece.{node_list};

use number_list::Numbers;
use qap_cost::Partial;
use std::alloc::{AllocError, Global};

/// The node of size `n` with this list: facilities and locations alternately, in the order of placement. `None` if the
/// list is that of no node of this size.
pub fn read_node(alloc: Global, n: usize, list: &[i128]) -> Result<Option<Partial>, AllocError>
    requires positive { 0 < n }
    requires small { n ≤ 256 }
    ensures { IfOk result (λ found. MatchOption found
        ((x : Placement) → IsPlacement x → x.size ≡ n → node_list x ≢ list.now)
        (IsReadFrom n list.now)) }
{
    let mut node = Partial::root(alloc, n)?;
    if read_into(n, &Numbers::Wide(list), &mut node)? {
        Ok(Some(node))
    } else {
        Ok(None)
    }
}

/// Makes this the node of size `n` with this list, in its own memory if that suffices; returns whether the list is that
/// of a node of this size, and otherwise it may be any node.
pub(crate) fn read_into(
    n: usize,
    list: &Numbers<'_>,
    node: &mut Partial,
) -> Result<bool, AllocError>
    requires positive { 0 < n }
    requires small { n ≤ 256 }
    ensures { IfOk result (λ read. MatchBool read
        (IsReadFrom n (numbers_in list.now) node.new)
        ((x : Placement) → IsPlacement x → x.size ≡ n → node_list x ≢ numbers_in list.now)) }
{
    let count = list.len();
    if count % 2 != 0 {
        return Ok(false);
    }
    node.reset(n);
    for t in 0..count / 2 {
        let facility = list.at(2 * t);
        let location = list.at(2 * t + 1);
        if !put_next(node, facility, location)? {
            return Ok(false);
        }
    }
    Ok(true)
}

/// Puts the facility of this number at the location of that number too; answers whether both are free.
fn put_next(node: &mut Partial, facility: i128, location: i128) -> Result<bool, AllocError>
    ensures { IfOk result (λ put. MatchBool put
        (IsNextOf node.old facility location node.new)
        ((f k : ℕ) → IsFreeFacility node.old f → IsFreeLocation node.old k → facility ≡ pos f → location ≢ pos k)) }
{
    let Some(f) = free_facility(node, facility) else {
        return Ok(false);
    };
    let Some(k) = free_location(node, location) else {
        return Ok(false);
    };
    node.put(f, k)?;
    Ok(true)
}

/// The free facility of this number.
pub(crate) fn free_facility(node: &Partial, number: i128) -> Option<u16>
    ensures { MatchOption result
        ((f : ℕ) → IsFreeFacility node.now f → number ≢ pos f)
        (λ f. IsFreeFacility node.now f × (number ≡ pos f)) }
{
    let size = node.size();
    let Ok(facility) = u16::try_from(number) else {
        return None;
    };
    if usize::from(facility) < size && !node.is_placed(facility) {
        Some(facility)
    } else {
        None
    }
}

/// The free location of this number.
fn free_location(node: &Partial, number: i128) -> Option<u16>
    ensures { MatchOption result
        ((k : ℕ) → IsFreeLocation node.now k → number ≢ pos k)
        (λ k. IsFreeLocation node.now k × (number ≡ pos k)) }
{
    node.placement_law();
    let Ok(location) = u16::try_from(number) else {
        return None;
    };
    if node.is_free(location) {
        Some(location)
    } else {
        None
    }
}
