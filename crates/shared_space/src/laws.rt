//! How a transaction's commit changes the content, and what runs of a space result in.

ghost use Rattle.std.specs.Prelude.{◌≡◌, ◌+◌, ℕ, List, [], ◌∷◌, ◌++◌, true, false, Bool, None, Option, count_by};
ghost use Rattle.tuple_match.specs.FieldValue.{FieldValue};
ghost use Rattle.tuple_space.specs.declared.lease.Lease.TheVariants.{Forever};
ghost use Rattle.tuple_space.specs.declared.write.Write.{Write};
ghost use Rattle.space_txn.specs.Content.{SameItems, added_of, content_of, gone_of, kept_of};
ghost use Rattle.space_txn.specs.Finding.{IsUntaken};
ghost use Rattle.space_txn.specs.Marks.{with_mark};
ghost use Rattle.space_txn.specs.declared.mark.Mark.{Mark};
ghost use Rattle.shared_space.specs.Event.{Did, Event, Reply};
ghost use Rattle.shared_space.specs.Limit.{DidWithin};
ghost use Rattle.shared_space.specs.Place.{Place};
ghost use Rattle.shared_space.specs.Run.{Act, ChangesBy, LeadTo, Run, is_accepted};

use crate::law::Law;

/// If a transaction took one permanent entry and found another one, what it took is removed, and what it read stays,
/// whatever has been renewed since.
pub fn two_marks_law()
    ensures taken { (m b : Mark) (renewed : Mark → Bool) →
        m.taken ≡ true → m.permanent ≡ true → b.taken ≡ true → b.permanent ≡ true → IsUntaken b.entry (m ∷ []) →
        SameItems (gone_of renewed (with_mark b (m ∷ []))) (m.tuple ∷ b.tuple ∷ []) × SameItems (kept_of (with_mark b (m ∷ []))) [] }
    ensures read { (m b : Mark) (renewed : Mark → Bool) →
        m.taken ≡ true → m.permanent ≡ true → b.taken ≡ false → b.permanent ≡ true → IsUntaken b.entry (m ∷ []) →
        SameItems (gone_of renewed (with_mark b (m ∷ []))) (m.tuple ∷ []) × SameItems (kept_of (with_mark b (m ∷ []))) (b.tuple ∷ []) }
{}

/// A tuple that is written permanently is added.
pub fn writing_law()
    ensures { (writes : List Write) (tuple : List FieldValue) →
        added_of (writes ++ record { tuple = tuple; lease = Forever; taken = false } ∷ []) ≡ added_of writes ++ tuple ∷ [] }
{}

/// The accepted commits among the acts of a run are what its last place counts more than its first.
pub fn run_law()
    ensures { (limit : Option ℕ) (old new : Place) (acts : List Act) → LeadTo limit old acts new →
        new.world.commits ≡ old.world.commits + count_by is_accepted acts }
{}

/// Where calls outside all transactions may not change the space, a run ends at the content that it began with, changed by as many
/// allowed commits as were accepted, one after the other, and by nothing else: with none, at that content.
pub fn content_run_law<L: Law>()
    requires { L.changes → ⊥ }
    ensures content { (old new : Place) (run : Run L.allowed L.begins L.changes L.limit old new) →
        ChangesBy L.allowed (count_by is_accepted run.acts) (content_of old.world) (content_of new.world) }
    ensures unchanged { (old new : Place) → Run L.allowed L.begins L.changes L.limit old new → new.world.commits ≡ old.world.commits →
        SameItems (content_of new.world) (content_of old.world) }
{}

/// Without a limit, each step of a space under its law is one of the machine, and the other way round.
pub fn no_limit_law()
    ensures machine { (old new : Place) (event : Event) (reply : Reply) → DidWithin None old event reply new → Did old event reply new }
    ensures within { (old new : Place) (event : Event) (reply : Reply) → Did old event reply new → DidWithin None old event reply new }
{}
