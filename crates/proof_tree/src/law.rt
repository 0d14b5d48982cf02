//! Why a valid tree establishes that no completion of its root costs less than the bound.

ghost use Rattle.std.specs.Prelude.{◌≡◌, ◌↔◌, ℕ, ℤ, pos, ◌+ℤ◌, ◌*ℤ◌, ◌<ℤ◌, ◌≤ℤ◌, List, Option, Some, None};
ghost use Rattle.qap_cost.specs.Instance.{Problem};
ghost use Rattle.qap_cost.specs.Objective.{IsLeast, NoneCostsLess};
ghost use Rattle.qap_cost.specs.Placement.{IsPlacement, Placement, root_of};
ghost use Rattle.pair_duals.specs.PairDuals.{Duals, Fit};
ghost use Rattle.pair_duals.specs.Reduced.{Form, IsFormOf};
ghost use Rattle.qap_proof.specs.Claim.{NoneCompletesForLess};
ghost use Rattle.qap_proof.specs.Cover.{IsCovering, cover_of};
ghost use Rattle.qap_proof.specs.declared.leaf.Leaf.{Leaf};
ghost use Rattle.pair_duals.specs.CostStep.{DividesCosts, step_of};
ghost use Rattle.proof_tree.specs.Claim.{IsPairProof, PairClaim, PairProves};
ghost use Rattle.proof_tree.specs.Leaves.{HasLeaves};
ghost use Rattle.proof_tree.specs.Tree.{Tree};
ghost use Rattle.proof_tree.specs.Valid.{ReachesBound, Under, Valid, under};

/// If pair duals fit and a form is that of a node, no completion of the node of a tree that is valid under them costs
/// less than the bound.
pub fn valid_law()
    ensures { (I : Problem) (step : ℕ) (bound : ℤ) (y : Placement) (D : Duals) (R : Form) (t : Tree) → IsPlacement y → I.size ≡ y.size → DividesCosts I step
        → Fit I D → IsFormOf I D y R → Valid I step bound y (Some (under D R)) t → NoneCompletesForLess I y bound }
{}

/// No completion of the root of a valid tree costs less than the bound; where nothing is placed at the root, no permutation does.
pub fn tree_law()
    ensures root { (I : Problem) (step : ℕ) (bound : ℤ) (x : Placement) (t : Tree) → IsPlacement x → I.size ≡ x.size → DividesCosts I step
        → Valid I step bound x None t → NoneCompletesForLess I x bound }
    ensures whole { (I : Problem) (step : ℕ) (bound : ℤ) (t : Tree) → IsPlacement (root_of I.size) → DividesCosts I step
        → Valid I step bound (root_of I.size) None t → NoneCostsLess I bound }
{}

/// A tree that is valid for a bound is valid for each smaller one.
pub fn monotone_law()
    ensures { (I : Problem) (step : ℕ) (bound smaller : ℤ) (y : Placement) (above : Option Under) (t : Tree) → smaller ≤ℤ bound
        → Valid I step bound y above t → Valid I step smaller y above t }
{}

/// A value reaches a bound exactly when it is above the greatest multiple of the step that is below the bound, scaled: that is one
/// step below the least multiple which is at least the bound.
pub fn reaching_law()
    ensures { (step scale : ℕ) (bound value k : ℤ) → (pos step *ℤ k) <ℤ bound → bound ≤ℤ (pos step *ℤ k +ℤ pos step)
        → (ReachesBound step bound scale value ↔ ((pos scale *ℤ (pos step *ℤ k)) <ℤ value)) }
{}

/// No completion of the root of a valid proof costs less than its bound; and if the root is empty and the bound is the
/// cost, that is the least cost, which the permutation has.
pub fn proof_law()
    ensures bound { (I : Problem) (C : PairClaim) → IsPairProof C → DividesCosts I (step_of I) → PairProves I C → NoneCompletesForLess I C.root C.bound }
    ensures least { (I : Problem) (C : PairClaim) → IsPairProof C → DividesCosts I (step_of I) → PairProves I C → C.root ≡ root_of I.size → C.bound ≡ C.cost → IsLeast I C.cost }
{}

/// A tree that has leaves below a cost is valid. Each value of a leaf is valid, and up to the cost, the leaves of a proof
/// that proves its bound cover its root.
pub fn leaves_law()
    ensures valid { (I : Problem) (step : ℕ) (bound cost : ℤ) (y : Placement) (above : Option Under) (t : Tree) (ls : List Leaf)
        → HasLeaves I step bound cost y above t ls → Valid I step bound y above t }
    ensures covers { (I : Problem) (C : PairClaim) (ls : List Leaf) → IsPairProof C → DividesCosts I (step_of I) → PairProves I C
        → HasLeaves I (step_of I) C.bound C.cost C.root None C.tree ls → IsCovering (cover_of I C.root C.cost ls) }
{}
