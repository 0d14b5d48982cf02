//! Why pair duals bound the cost of every completion (Adams and Johnson 1994).

ghost use Rattle.std.specs.Prelude.{◌≡◌, ◌<◌, ℕ, ℤ, pos, ◌+ℤ◌, ◌*ℤ◌, ◌≤ℤ◌, List, length, slice_index, slice_index_or};
ghost use Rattle.qap_cost.specs.Instance.{Problem};
ghost use Rattle.qap_cost.specs.Objective.{cost_of};
ghost use Rattle.qap_cost.specs.Placement.{Placement, IsPlacement, Completes, fixed_cost_of};
ghost use Rattle.qap_cost.specs.Sum.{sum_to};
ghost use Rattle.pair_duals.specs.PairDuals.{Duals, Fit};
ghost use Rattle.pair_duals.specs.Reduced.{Form, AreNumbers, AreUnder, IsChild, IsFormOf, IsNonNegative, at, count_of, dual_entry};
ghost use Rattle.pair_duals.specs.Seats.{Seats};

/// In a completion of a node each free facility has a seat.
pub fn seats_law()
    ensures { (y : Placement) (p : List ℕ) → IsPlacement y → Completes y p → (seat : List ℕ) × Seats y p seat }
{}

/// If pair duals fit, each completion of a node below theirs costs, scaled, at least the fixed cost of that node and
/// the entries of their matrix at its seats.
pub fn pair_duals_law()
    ensures { (I : Problem) (D : Duals) (y : Placement) (rows columns p seat : List ℕ) → IsPlacement y → I.size ≡ y.size → Fit I D → AreNumbers D y rows columns → Completes y p → Seats y p seat
        → (pos D.scale *ℤ fixed_cost_of I y +ℤ sum_to (λ r. dual_entry I D y rows columns r (slice_index seat r)) (length rows)) ≤ℤ (pos D.scale *ℤ cost_of I p) }
{}

/// If they fit and no entry of a node's form is negative, each completion costs, scaled, at least the form's value.
pub fn form_bound_law()
    ensures { (I : Problem) (D : Duals) (y : Placement) (R : Form) (p : List ℕ) → IsPlacement y → Fit I D → IsFormOf I D y R → IsNonNegative R → Completes y p → R.value ≤ℤ (pos D.scale *ℤ cost_of I p) }
{}

/// If they fit, and numbers for rows and columns are together no more than any entry, each completion costs, scaled, at
/// least the form's value and all these numbers.
pub fn closing_law()
    ensures { (I : Problem) (D : Duals) (y : Placement) (R : Form) (u v : List ℤ) (p : List ℕ) → IsPlacement y → Fit I D → IsFormOf I D y R → AreUnder R u v → Completes y p
        → (R.value +ℤ (sum_to (λ r. slice_index_or u r (pos 0)) (count_of R) +ℤ sum_to (λ c. slice_index_or v c (pos 0)) (count_of R))) ≤ℤ (pos D.scale *ℤ cost_of I p) }
{}

/// If they fit and no entry of a node's form is negative, no entry of a child's is, and the child's value is not below
/// the node's.
pub fn child_law()
    ensures entries { (I : Problem) (D : Duals) (y : Placement) (old new : Form) (h g : ℕ) → IsPlacement y → h < count_of old → g < length old.columns → Fit I D → AreNumbers D y old.rows old.columns → IsNonNegative old → IsChild I D old h g new → IsNonNegative new }
    ensures value { (I : Problem) (D : Duals) (old new : Form) (h g : ℕ) → h < count_of old → g < count_of old → IsNonNegative old → IsChild I D old h g new → old.value ≤ℤ new.value }
{}
