//! Why a certificate that certifies its bound establishes that no permutation costs less, why a fault prevents that,
//! and why a text is that of one certificate.

ghost use Rattle.std.specs.Prelude.{◌≡◌, List, ℕ};
ghost use Rattle.qap_cost.specs.Instance.{Problem, IsInstance};
ghost use Rattle.qap_cost.specs.Objective.{IsLeast, NoneCostsLess};
ghost use Rattle.qap_cert.specs.Certificate.{Claim, IsCertificate, Certifies};
ghost use Rattle.qap_cert.specs.Fault.{IsClaimFault, IsFault};
ghost use Rattle.qap_cert.specs.Text.{IsCertificateText};
ghost use Rattle.qap_cert.specs.TextFault.{IsTextFault};
ghost use Rattle.qap_cert.specs.declared.error.CertError.{CertError};

/// No permutation of the instance costs less than the certified bound; and if that is the cost, it is the least cost,
/// which the permutation has.
pub fn certified_law()
    ensures bound { (I : Problem) (C : Claim) → IsInstance I → Certifies I C → NoneCostsLess I C.bound }
    ensures least { (I : Problem) (C : Claim) → IsInstance I → IsCertificate C → Certifies I C → C.bound ≡ C.cost → IsLeast I C.cost }
{}

/// What has a first fault of shape is not a certificate, and a certificate that has a fault for an instance does not
/// certify its bound; and the first fault is unique.
pub fn fault_law()
    ensures certificate { (C : Claim) (e : CertError) → IsClaimFault C e → IsCertificate C → ⊥ }
    ensures certified { (I : Problem) (C : Claim) (e : CertError) → IsFault I C e → Certifies I C → ⊥ }
    ensures one_of_shape { (C : Claim) (e f : CertError) → IsClaimFault C e → IsClaimFault C f → e ≡ f }
    ensures one { (I : Problem) (C : Claim) (e f : CertError) → IsFault I C e → IsFault I C f → e ≡ f }
{}

/// A text is that of one certificate at most, the text of a certificate has no fault, and a text has one first fault at most.
pub fn certificate_text_law()
    ensures one { (text : List ℕ) (C D : Claim) → IsCertificateText text C → IsCertificateText text D → C ≡ D }
    ensures faultless { (text : List ℕ) (C : Claim) (e : CertError) → IsCertificateText text C → IsTextFault text e → ⊥ }
    ensures one_fault { (text : List ℕ) (d e : CertError) → IsTextFault text d → IsTextFault text e → d ≡ e }
{}
