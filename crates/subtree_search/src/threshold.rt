//! The value above which a node is closed, and the bound that a value reaches.

ghost use Rattle.std.specs.Prelude.{◌≡◌, ◌*◌, ◌^◌, ◌<◌, ◌≤◌, unsigned_abs};
ghost use Rattle.proof_tree.specs.Leaves.{IsGreatest};
ghost use Rattle.proof_tree.specs.Valid.{ReachesBound};
ghost use Rattle.subtree_search.specs.Closed.{threshold_of};

/// The threshold that the value of a node must exceed so that none of its completions costs less than `cost`: a
/// completion that costs less costs at least one step less, since every cost is a multiple of the step.
pub fn threshold(scale: u32, step: u64, cost: i128) -> i128
    requires scale { scale ≤ 2 ^ 20 }
    requires cost { unsigned_abs cost ≤ 65536 * 10 ^ 18 }
    requires step { step < 2 ^ 64 }
    ensures { result ≡ threshold_of scale step cost }
{
    i128::from(scale) * (cost - i128::from(step))
}

/// The greatest bound that a value reaches, under pair duals of this scale.
pub fn greatest_reached(step: u64, scale: u32, value: i128) -> i128
    requires step { 0 < step }
    requires scale { 0 < scale }
    requires small { unsigned_abs value ≤ 10 ^ 37 }
    ensures { IsGreatest (λ g. ReachesBound step g scale value) result }
{
    let step = i128::from(step);
    let times = (value - 1).div_euclid(i128::from(scale) * step);
    step * times + step
}
