//! Permutations found elsewhere, which workers may take up: advice, which no proof relies on.

ghost use Rattle.std.specs.Prelude.{◌≡◌, ◌⊎◌, ◌≤ℤ◌, ◌↔◌, IsTrue, length};
ghost use Rattle.qap_cost.specs.Objective.{Permutes, cost_of};
ghost use Rattle.qap_cost.specs.Placement.{Completes};
ghost use Rattle.subtree_search.specs.Best.{IsIncumbent};

use crate::steps::keep_better;
use qap_cost::{Instance, Partial, Perm};
use subtree_search::{Incumbent, Never};

/// Offers permutations that are found elsewhere while a search goes on.
pub trait Offers {
    /// A permutation found elsewhere, if there is one that costs less than this. Each worker asks for one between its
    /// rounds, outside the lock of the space, with the cost of its incumbent, and goes on once it has the answer.
    fn offered(&self, cost: i128) -> Option<Perm>;
}

impl Offers for Never {
    fn offered(&self, _cost: i128) -> Option<Perm> {
        None
    }
}

/// Takes up a permutation found elsewhere if it is one of the instance, completes the root, and costs less than the
/// incumbent.
pub(crate) fn take_up(instance: &Instance, root: &Partial, incumbent: &mut Incumbent, offered: Perm)
    requires incumbent { IsIncumbent instance.now incumbent.old }
    ensures incumbent { IsIncumbent instance.now incumbent.new }
    ensures no_worse { incumbent.new.cost ≤ℤ incumbent.old.cost }
    ensures only { (incumbent.new ≡ incumbent.old) ⊎ Completes root.now incumbent.new.permutation }
    ensures taken { Permutes instance.now offered → Completes root.now offered → incumbent.new.cost ≤ℤ cost_of instance.now offered }
{
    if offered.len() != instance.size() || offered.len() != root.size() {
        return;
    }
    if !completes(root, &offered) {
        return;
    }
    keep_better(incumbent, Incumbent::new(instance, offered));
}

/// Whether a permutation of the root's size puts each facility that the root places at its location.
fn completes(root: &Partial, permutation: &Perm) -> bool
    requires { length permutation.now ≡ root.now.size }
    ensures { IsTrue result ↔ Completes root.now permutation.now }
{
    let facilities = root.facilities();
    let places = root.places();
    let locations = permutation.locations();
    for t in 0..facilities.len() {
        if locations[usize::from(facilities[t])] != places[t] {
            return false;
        }
    }
    true
}
