//! Decided nodes in the order of their lists.

ghost use Rattle.std.specs.Prelude.{reverse};
ghost use Rattle.std.specs.List.Sorted.{IsPermutation};
ghost use Rattle.qap_search.specs.Certificate.InOrder.{AreInOrder};

use crate::tuples::parsing::DecidedNode;
use number_list::Numbers;

/// How many of a list's numbers its key has.
const MOST_NUMBERS: usize = 25;

/// Puts the nodes in the order of their lists, the last first, so that each is taken from the end before those below it.
///
/// Keys, which are compared at once, put them in order where lists have at most 25 numbers, all from 0 to 30: then the lists are compared
/// in one pass. Where there is no memory for keys the lists do it all.
pub(crate) fn put_in_order(nodes: &mut Vec<DecidedNode>)
    ensures moved { IsPermutation nodes.old.items nodes.new.items }
    ensures ordered { AreInOrder (reverse nodes.new.items) }
{
    let _ = nodes.sort_by_cached_key(|node| path_key(&node.node.numbers()));
    nodes.sort_unstable_by(|a, b| a.node.numbers().compare(&b.node.numbers()));
    nodes.reverse();
}

/// The first 25 numbers of a list, each by its digit in 5 bits, from the highest bits down; the digit 0 where the list has ended.
fn path_key(list: &Numbers<'_>) -> u128 {
    let count = list.len().min(MOST_NUMBERS);
    let mut key = 0;
    for place in 0..count {
        key = (key << 5) | path_digit(list.at(place));
    }
    key << (5 * (MOST_NUMBERS - count))
}

/// A number from 0 to 30 as one more than it is, and any other as 31.
fn path_digit(number: i128) -> u128 {
    match u8::try_from(number) {
        Ok(number) => u128::from(number.min(30)) + 1,
        Err(_) => 31,
    }
}
