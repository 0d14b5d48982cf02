//! Why the tuples of a search remain a cut tree, and why those of a finished or a stopped one yield a certificate.

ghost use Rattle.std.specs.Prelude.{◌≡◌, ◌≤ℤ◌, ◌+◌, ◌++◌, ◌∷◌, [], ℕ, ℤ, List, Contains, true};
ghost use Rattle.qap_cost.specs.Instance.{Problem, IsInstance};
ghost use Rattle.qap_cost.specs.Placement.{IsPlacement, Placement, root_of};
ghost use Rattle.qap_cert.specs.Acceptance.{IsRefused, ShowsVerdict};
ghost use Rattle.qap_cert.specs.Certificate.{Claim, Certifies};
ghost use Rattle.qap_cert.specs.Text.{certificate_text};
ghost use Rattle.qap_cert.specs.Tree.{node_count};
ghost use Rattle.qap_cert.specs.Valid.{ClosesPart};
ghost use Rattle.qap_cert.specs.declared.acceptance.Verdict.{Verdict};
ghost use Rattle.qap_cert.specs.declared.acceptance.Verdict.TheVariants.{Optimal};
ghost use Rattle.qap_cert.specs.declared.error.CertError.{CertError};
ghost use Rattle.qap_cert.specs.declared.version.Version.TheVariants.{Second};
ghost use Rattle.space_txn.specs.Content.{SameItems};
ghost use Rattle.tuple_match.specs.FieldValue.{FieldValue};
ghost use Rattle.qap_search.specs.Certificate.OpenNodes.{undecided_count};
ghost use Rattle.qap_search.specs.Law.CutTree.{IsCutTree};
ghost use Rattle.qap_search.specs.Node.Decision.{Decides};
ghost use Rattle.qap_search.specs.Certificate.Finished.{IsAssembled};
ghost use Rattle.qap_search.specs.Tuples.Found.{IsBestFound, IsOpenNode, is_best};
ghost use Rattle.qap_search.specs.Tuples.Piece.{node_tuple, is_open, open_count};
ghost use Rattle.qap_search.specs.Law.Replacement.{Best, IsAsGood, MayReplace, tuple_of};
ghost use Rattle.qap_search.specs.Law.Search.{Search, IsSearch, NoneBelow, from_root};
ghost use Rattle.qap_search.specs.Law.SearchTree.{IsTree, decided_count};
ghost use Rattle.qap_search.specs.Certificate.Stopped.{IsNotStopped, IsStopped};

/// The open root and the known permutation are a cut tree, before any commit.
pub fn opening_law()
    ensures { (S : Search) → IsSearch S → IsCutTree S (node_tuple S.root ∷ tuple_of S.known ∷ []) 0 }
{}

/// Being a cut tree does not depend on the order of tuples.
pub fn order_law()
    ensures { (S : Search) (content other : List (List FieldValue)) (commits : ℕ) →
        SameItems content other → IsCutTree S content commits → IsCutTree S other commits }
{}

/// A cut tree in which an open node is replaced by a decided one is a cut tree, of one more commit.
pub fn replacement_law()
    ensures { (S : Search) (gone kept added rest content : List (List FieldValue)) (commits : ℕ) →
        MayReplace S.instance gone kept added → SameItems content (gone ++ (kept ++ rest)) → IsCutTree S content commits →
        IsCutTree S (added ++ (kept ++ rest)) (commits + 1) }
{}

/// In a cut tree, whatever matches an open node's template is a node of the instance's size; and whatever matches the
/// incumbent's template is a permutation of the instance, with its cost.
pub fn found_law()
    ensures node { (S : Search) (content : List (List FieldValue)) (commits : ℕ) (tuple : List FieldValue) →
        IsCutTree S content commits → Contains content tuple → is_open tuple ≡ true → IsOpenNode S.instance.size tuple }
    ensures best { (S : Search) (content : List (List FieldValue)) (commits : ℕ) (tuple : List FieldValue) →
        IsCutTree S content commits → Contains content tuple → is_best tuple ≡ true → IsBestFound S.instance tuple }
{}

/// A decided node may take the place of an open one: beside the best permutation that was read, or with one that is as good in
/// the place of the one that was taken.
pub fn replacing_law()
    ensures read { (I : Problem) (x : Placement) (b : Best) (gone kept added tuples : List (List FieldValue)) →
        IsPlacement x → x.size ≡ I.size → Decides I b.cost x tuples →
        SameItems gone (node_tuple x ∷ []) → SameItems kept (tuple_of b ∷ []) → SameItems added tuples →
        MayReplace I gone kept added }
    ensures taken { (I : Problem) (x : Placement) (old new : Best) (gone kept added tuples : List (List FieldValue)) →
        IsPlacement x → x.size ≡ I.size → Decides I new.cost x tuples → IsAsGood I old new →
        SameItems gone (node_tuple x ∷ tuple_of old ∷ []) → SameItems kept [] → SameItems added (tuple_of new ∷ tuples) →
        MayReplace I gone kept added }
{}

/// A cut tree of all permutations without open nodes is that of a certificate; and a certificate whose tuples are such
/// a tree certifies its cost, with a node for each commit.
pub fn certificate_law()
    ensures there { (I : Problem) (known : Best) (content : List (List FieldValue)) (commits : ℕ) → IsInstance I →
        IsCutTree (from_root I known) content commits → open_count content ≡ 0 → (C : Claim) × IsAssembled I.size content C }
    ensures certifies { (I : Problem) (known : Best) (content : List (List FieldValue)) (commits : ℕ) (C : Claim) →
        IsCutTree (from_root I known) content commits → IsAssembled I.size content C → Certifies I C }
    ensures counted { (I : Problem) (known : Best) (content : List (List FieldValue)) (commits : ℕ) (C : Claim) →
        IsCutTree (from_root I known) content commits → IsAssembled I.size content C → node_count C.tree ≡ commits }
{}

/// If a search of all permutations has been completed, as by one worker on its own space, the text of the certificate
/// that `assemble` builds from its tuples, which `write` writes, has no fault, and establishes that its cost is the
/// least one, and nothing else. So `accept` reports that its cost is optimal.
pub fn accepted_law()
    ensures shown { (I : Problem) (known : Best) (content : List (List FieldValue)) (commits : ℕ) (C : Claim) →
        IsCutTree (from_root I known) content commits → IsAssembled I.size content C → ShowsVerdict I (certificate_text Second C) (Optimal C.cost) }
    ensures only { (I : Problem) (known : Best) (content : List (List FieldValue)) (commits : ℕ) (C : Claim) (v : Verdict) →
        IsCutTree (from_root I known) content commits → IsAssembled I.size content C → ShowsVerdict I (certificate_text Second C) v → v ≡ Optimal C.cost }
    ensures not_refused { (I : Problem) (known : Best) (content : List (List FieldValue)) (commits : ℕ) (C : Claim) (e : CertError) →
        IsCutTree (from_root I known) content commits → IsAssembled I.size content C → IsRefused I (certificate_text Second C) e → ⊥ }
{}

/// A certificate from a cut tree of all permutations with its open nodes closed certifies its bound, and costs no more
/// than the known permutation; the cut tree has a decided node for each commit, and the certificate's tree one for each
/// of these and for each open node. The leaves that were closed before close their parts for the certificate's cost. No
/// cut tree is refused.
pub fn stopped_law()
    ensures certifies { (I : Problem) (known : Best) (content : List (List FieldValue)) (commits : ℕ) (C : Claim) →
        IsCutTree (from_root I known) content commits → IsStopped I content C → Certifies I C }
    ensures no_dearer { (I : Problem) (known : Best) (content : List (List FieldValue)) (commits : ℕ) (C : Claim) →
        IsCutTree (from_root I known) content commits → IsStopped I content C → C.cost ≤ℤ known.cost }
    ensures closed_before { (I : Problem) (known : Best) (content : List (List FieldValue)) (commits : ℕ) (C : Claim) →
        IsCutTree (from_root I known) content commits → (s : IsStopped I content C) → IsTree (ClosesPart I C.cost) (root_of I.size) s.tree }
    ensures counted { (I : Problem) (known : Best) (content : List (List FieldValue)) (commits : ℕ) (C : Claim) →
        IsCutTree (from_root I known) content commits → (s : IsStopped I content C) →
        (decided_count s.tree ≡ commits) × (undecided_count s.tree ≡ open_count content)
        × (node_count C.tree ≡ commits + open_count content) }
    ensures not_refused { (I : Problem) (known : Best) (content : List (List FieldValue)) (commits : ℕ) → IsInstance I →
        IsCutTree (from_root I known) content commits → IsNotStopped I content → ⊥ }
{}
