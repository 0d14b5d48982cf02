//! The bound that a search has shown.

ghost use Rattle.std.specs.Prelude.{◌≡◌, ◌↔◌, ◌≤ℤ◌};

/// A lower bound, and how many leaves do not reach the incumbent's cost.
#[derive(Clone, Copy)]
pub(crate) struct BoundShown {
    pub(crate) bound: i128,
    pub(crate) open_nodes: u64,
}

/// The least of the cost and these values, and how many of them are below the cost.
pub(crate) fn bound_shown(cost: i128, values: &[i128]) -> BoundShown
    ensures at_most { result.bound ≤ℤ cost }
    ensures open { (result.open_nodes ≡ 0) ↔ (result.bound ≡ cost) }
{
    let mut bound = cost;
    let mut open_nodes = 0u64;
    for value in values {
        if *value < cost {
            open_nodes += 1;
            bound = bound.min(*value);
        }
    }
    BoundShown { bound, open_nodes }
}
