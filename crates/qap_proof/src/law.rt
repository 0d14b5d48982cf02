//! Why a valid tree, and a valid proof, establish that no permutation which completes their root costs less than their
//! bound, why a fault prevents that, and why a text is that of one proof.

ghost use Rattle.std.specs.Prelude.{◌≡◌, List, ℕ, ℤ};
ghost use Rattle.qap_cost.specs.Instance.{Problem, IsInstance};
ghost use Rattle.qap_cost.specs.Objective.{IsLeast};
ghost use Rattle.qap_cost.specs.Placement.{IsPlacement, Placement, root_of};
ghost use Rattle.qap_proof.specs.Claim.{Claim, IsProof, Proves, NoneCompletesForLess};
ghost use Rattle.qap_proof.specs.Fault.{IsClaimFault, IsFault};
ghost use Rattle.qap_proof.specs.Text.{IsProofText};
ghost use Rattle.qap_proof.specs.TextFault.{IsTextFault};
ghost use Rattle.qap_proof.specs.Tree.{Node, whole};
ghost use Rattle.qap_proof.specs.Valid.{Valid};
ghost use Rattle.qap_proof.specs.declared.error.ProofError.{ProofError};

/// No permutation that completes the root of a valid tree costs less than the tree's bound.
pub fn tree_law()
    ensures { (I : Problem) (x : Placement) (g : ℤ) (t : Node) → IsPlacement x → x.size ≡ I.size → Valid I g (whole x) t → NoneCompletesForLess I x g }
{}

/// No permutation that completes the root of a valid proof costs less than its bound; and if the root is empty and the
/// bound is the cost, that is the least cost, which the permutation has.
pub fn proof_law()
    ensures bound { (I : Problem) (C : Claim) → IsInstance I → IsProof C → Proves I C → NoneCompletesForLess I C.root C.bound }
    ensures least { (I : Problem) (C : Claim) → IsInstance I → IsProof C → Proves I C → C.root ≡ root_of I.size → C.bound ≡ C.cost → IsLeast I C.cost }
{}

/// What has a first fault of shape is not a proof, and a proof that has a fault for an instance does not prove its
/// bound; and the first fault is unique.
pub fn fault_law()
    ensures proof { (C : Claim) (e : ProofError) → IsClaimFault C e → IsProof C → ⊥ }
    ensures proved { (I : Problem) (C : Claim) (e : ProofError) → IsProof C → IsFault I C e → Proves I C → ⊥ }
    ensures one_of_shape { (C : Claim) (e f : ProofError) → IsClaimFault C e → IsClaimFault C f → e ≡ f }
    ensures one { (I : Problem) (C : Claim) (e f : ProofError) → IsProof C → IsFault I C e → IsFault I C f → e ≡ f }
{}

/// A text is that of one proof at most, the text of a proof has no fault, and a text has one first fault at most.
pub fn proof_text_law()
    ensures one { (text : List ℕ) (C D : Claim) → IsProofText text C → IsProofText text D → C ≡ D }
    ensures faultless { (text : List ℕ) (C : Claim) (e : ProofError) → IsProofText text C → IsTextFault text e → ⊥ }
    ensures one_fault { (text : List ℕ) (d e : ProofError) → IsTextFault text d → IsTextFault text e → d ≡ e }
{}
