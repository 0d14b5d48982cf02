//! Why duals that fit a Gilmore-Lawler matrix bound the cost of every completion.

ghost use Rattle.std.specs.Prelude.{◌≡◌, ◌+ℤ◌, ◌≤ℤ◌, List, ℕ, ℤ};
ghost use Rattle.qap_cost.specs.Instance.{Problem};
ghost use Rattle.qap_cost.specs.Matrix.{Square, IsMatrix, DualsFit, dual_value};
ghost use Rattle.qap_cost.specs.Objective.{cost_of};
ghost use Rattle.qap_cost.specs.Placement.{Placement, IsPlacement, Completes, fixed_cost_of};
ghost use Rattle.gilmore_lawler.specs.ReducedMatrix.{IsReduced};

/// If `(u, v)` fits the Gilmore-Lawler matrix of a node, each permutation that completes the node costs at least what
/// the placed facilities cost among themselves and the sum of `u` and `v`.
pub fn node_bound_law()
    ensures { (I : Problem) (x : Placement) (M : Square) (u v : List ℤ) (p : List ℕ) → IsPlacement x → I.size ≡ x.size → IsReduced I x M → DualsFit M u v → Completes x p → (fixed_cost_of I x +ℤ dual_value u v) ≤ℤ cost_of I p }
{}

/// A node has exactly one Gilmore-Lawler matrix, so the fit of duals does not depend on the choice of it.
pub fn one_reduced_matrix_law()
    ensures { (I : Problem) (x : Placement) (M N : Square) → IsMatrix M → IsMatrix N → IsReduced I x M → IsReduced I x N → M ≡ N }
{}
