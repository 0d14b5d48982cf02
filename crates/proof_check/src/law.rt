//! Why what a text with pair duals establishes is true.

ghost use Rattle.std.specs.Prelude.{◌≡◌, ℕ, ℤ, List, ◌<ℤ◌};
ghost use Rattle.qap_cost.specs.Instance.{Problem};
ghost use Rattle.qap_cost.specs.Objective.{IsLeast, NoneCostsLess, Permutes, cost_of};
ghost use Rattle.pair_duals.specs.CostStep.{DividesCosts, step_of};
ghost use Rattle.qap_proof.specs.Claim.{NoneCompletesForLess};
ghost use Rattle.qap_proof.specs.declared.acceptance.Verdict.TheVariants.{Gap, Optimal, Part};
ghost use Rattle.proof_check.specs.Acceptance.{ShowsPairVerdict};

/// A verdict on a text is true: the cost is the least; or some permutation has the cost, and none costs less than the
/// bound, which is below it; or none that completes the root costs less than the bound.
pub fn verdict_law()
    ensures optimal { (I : Problem) (text : List ℕ) (c : ℤ) → DividesCosts I (step_of I) → ShowsPairVerdict I text (Optimal c) → IsLeast I c }
    ensures gap { (I : Problem) (text : List ℕ) (g c : ℤ) → DividesCosts I (step_of I) → ShowsPairVerdict I text (Gap g c) → ((p : List ℕ) × Permutes I p × (cost_of I p ≡ c)) × NoneCostsLess I g × (g <ℤ c) }
    ensures part { (I : Problem) (text : List ℕ) (g : ℤ) → DividesCosts I (step_of I) → (h : ShowsPairVerdict I text (Part g)) → NoneCompletesForLess I h.proof.root g }
{}
