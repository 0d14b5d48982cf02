//! Laws about the nodes of a search: which permutations complete a node and its children, and what they cost.

ghost use Rattle.std.specs.Prelude.{◌≡◌, List, ℕ, length, slice_index};
ghost use Rattle.qap_cost.specs.Bijection.{AreDifferent, IsBijection};
ghost use Rattle.qap_cost.specs.Instance.{Problem};
ghost use Rattle.qap_cost.specs.Objective.{cost_of};
ghost use Rattle.qap_cost.specs.Placement.{Completes, IsFreeFacility, IsFreeLocation, IsPlacement, ListsFree, Placement, fixed_cost_of, free_below, placing, root_of};

/// Every permutation completes the node that places nothing.
pub fn root_law()
    ensures { (n : ℕ) (p : List ℕ) → IsBijection p → length p ≡ n → Completes (root_of n) p }
{}

/// The numbers below n that are not among different ones are those that `free_below` lists.
pub fn free_law()
    ensures { (n : ℕ) (taken : List ℕ) → AreDifferent n taken → ListsFree n taken (free_below n taken) }
{}

/// If a free facility is placed at each free location in turn, each completion of the node completes exactly one of the
/// resulting nodes, and these have no other completions.
pub fn children_law()
    ensures node { (x : Placement) (f k : ℕ) → IsPlacement x → IsFreeFacility x f → IsFreeLocation x k → IsPlacement (placing x f k) }
    ensures child { (x : Placement) (f : ℕ) (p : List ℕ) → IsPlacement x → IsFreeFacility x f → Completes x p
        → IsFreeLocation x (slice_index p f) × Completes (placing x f (slice_index p f)) p }
    ensures only { (x : Placement) (f k : ℕ) (p : List ℕ) → IsPlacement x → Completes (placing x f k) p → slice_index p f ≡ k }
    ensures parent { (x : Placement) (f k : ℕ) (p : List ℕ) → IsPlacement x → Completes (placing x f k) p → Completes x p }
{}

/// A node that places all facilities is completed by one permutation, and its fixed cost is the cost of that.
pub fn whole_node_law()
    ensures completed { (x : Placement) → IsPlacement x → length x.facilities ≡ x.size → (p : List ℕ) × Completes x p }
    ensures only { (x : Placement) (p q : List ℕ) → IsPlacement x → length x.facilities ≡ x.size → Completes x p → Completes x q → p ≡ q }
    ensures cost { (I : Problem) (x : Placement) (p : List ℕ) → IsPlacement x → I.size ≡ x.size → length x.facilities ≡ x.size → Completes x p
        → cost_of I p ≡ fixed_cost_of I x }
{}
