//! What a refusal implies about a text, and what a text that states an answer is.

ghost use Rattle.std.specs.Prelude.{◌≡◌, ◌≢◌, ℕ, ℤ, List};
ghost use Rattle.plan_check.specs.Answer.{IsAnswerToInstance, IsAnswerToPlan, StatesFound, StatesPlanned};
ghost use Rattle.plan_check.specs.Refusal.{IsRefusedByInstance, IsRefusedByPlan};
ghost use Rattle.plan_check.specs.declared.error.AnswerError.TheVariants.{OutOfMemory};
ghost use Rattle.plan_check.specs.declared.error.AnswerError.{AnswerError};
ghost use Rattle.plan_file.specs.declared.tables.NamedProblem.{NamedProblem};
ghost use Rattle.qap_cost.specs.Instance.{Problem};
ghost use Rattle.qap_cost.specs.Objective.{Permutes, cost_of};
ghost use Rattle.qap_cost.specs.Placement.{Completes};

/// A text that is refused for any reason other than out of memory is not an answer.
pub fn refusal_law()
    ensures plan { (P : NamedProblem) (text : List ℕ) (e : AnswerError) → IsRefusedByPlan P text e → e ≢ OutOfMemory
        → (p : List ℕ) (c g : ℤ) → ¬ IsAnswerToPlan P text p c g }
    ensures instance { (I : Problem) (text : List ℕ) (e : AnswerError) → IsRefusedByInstance I text e → e ≢ OutOfMemory
        → (p : List ℕ) (c g : ℤ) → ¬ IsAnswerToInstance I text p c g }
{}

/// A text that states a permutation, what it costs and a bound is an answer with these, so that it is never refused but
/// for want of memory.
pub fn stated_law()
    ensures plan { (P : NamedProblem) (text p : List ℕ) (c g : ℤ) → StatesPlanned P text p c g → Permutes P.instance p → Completes P.fixed p
        → cost_of P.instance p ≡ c → IsAnswerToPlan P text p c g }
    ensures instance { (I : Problem) (text p : List ℕ) (c g : ℤ) → StatesFound text p c g → Permutes I p
        → cost_of I p ≡ c → IsAnswerToInstance I text p c g }
{}
