//! The cost of an extended instance.

ghost use Rattle.std.specs.Prelude.{◌≡◌, List, ℕ, length, take};
ghost use Rattle.qap_cost.specs.Bijection.{IsPerm};
ghost use Rattle.qap_cost.specs.Instance.{Problem};
ghost use Rattle.qap_cost.specs.Objective.{Permutes, cost_of};
ghost use Rattle.qap_cost.specs.Placement.{Completes, IsPlacement, Placement};
ghost use Rattle.plan_charge.specs.Charges.{AreCharges, cost_with};
ghost use Rattle.plan_charge.specs.Extended.{IsExtended, IsExtendedNode, extended_list};
ghost use Rattle.plan_charge.specs.declared.charges.Charges.{Charges};

/// The permutations that complete a node with extra facilities are those that complete it without them, and each costs
/// the same with them as without, the charges included.
pub fn charges_law()
    ensures shorter { (count : ℕ) (x y : Placement) (q : List ℕ) → IsPlacement x → IsExtendedNode count x y → Completes y q → Completes x (take x.size q) × (q ≡ extended_list count (take x.size q)) }
    ensures longer { (count : ℕ) (x y : Placement) (p : List ℕ) → IsPlacement x → IsExtendedNode count x y → Completes x p → Completes y (extended_list count p) }
    ensures cost { (I J : Problem) (c : Charges) (p : List ℕ) → AreCharges I.size c → IsExtended I c J → Permutes I p → cost_of J (extended_list c.count p) ≡ cost_with I c p }
{}
