//! Laws of the machine, with which a reader can check its definition.

ghost use Rattle.std.specs.Prelude.{◌≡◌, ◌≢◌, ◌<◌, ◌≤◌, ℕ, true, false, nat_lt, filter, [], List, All, Contains, Result, Ok};
ghost use Rattle.tuple_match.specs.PatternValue.{PatternValue};
ghost use Rattle.tuple_space.specs.Lease.{granted, is_live, is_permanent};
ghost use Rattle.tuple_space.specs.Entry.{can_be_read, is_held_by, is_open, is_taken};
ghost use Rattle.tuple_space.specs.Rows.{with_end};
ghost use Rattle.tuple_space.specs.Space.{IsSpace, stays_without};
ghost use Rattle.tuple_space.specs.Step.{NothingHad};
ghost use Rattle.tuple_space.specs.declared.entry.Claim.TheVariants.{Read, Take, TakeBy};
ghost use Rattle.tuple_space.specs.declared.lease.LeaseEnd.{LeaseEnd};
ghost use Rattle.tuple_space.specs.declared.entry.Entry.{Entry};
ghost use Rattle.tuple_space.specs.declared.hold.Hold.{Hold};
ghost use Rattle.tuple_space.specs.declared.lease.Lease.TheVariants.{Forever, Ms};
ghost use Rattle.tuple_space.specs.Step.{done_reply};
ghost use Rattle.tuple_space.specs.declared.error.SpaceError.{SpaceError};
ghost use Rattle.space_txn.specs.declared.error.TxnError.{TxnError};
ghost use Rattle.space_txn.specs.Content.{KeepsContent, LeavesContent};
ghost use Rattle.space_txn.specs.Machine.{AdvanceStep, Answer, BeginStep, Call, IsAccepted, NoOpenWrite, Step, commit_at, found, inp_in, nothing, rdp_in};
ghost use Rattle.space_txn.specs.Granting.{granted_entries};
ghost use Rattle.space_txn.specs.Live.{is_live_in};
ghost use Rattle.space_txn.specs.declared.live.Live.{Live};
ghost use Rattle.space_txn.specs.declared.txn.Found.TheVariants.{Own};
ghost use Rattle.space_txn.specs.Txn.{TxnValue};
ghost use Rattle.space_txn.specs.World.{IsWorld, World, abort_at, advance_at, is_live_transaction};

/// No call on a transaction but an accepted commit changes the permanent content or the count of commits, and neither does
/// a transaction's begin, nor the moment's moving on.
pub fn content_law()
    ensures steps { (old : World) (t : TxnValue) (call : Call) (answer : Answer) (new : World) (t' : TxnValue) →
        Step old t call answer new t' → LeavesContent call answer → KeepsContent old new }
    ensures begins { (old : World) (asked : ℕ) (result : Result TxnValue TxnError) (new : World) →
        BeginStep old asked result new → KeepsContent old new }
    ensures advances { (old : World) (moment : ℕ) (result : Result (Unit {0}) SpaceError) (new : World) →
        AdvanceStep old moment (done_reply result) new → KeepsContent old new }
{}

/// A transaction that is not live changes nothing.
pub fn expired_law()
    ensures { (old : World) (t : TxnValue) (call : Call) (answer : Answer) (new : World) (t' : TxnValue) →
        is_live_transaction old t.number ≡ false → Step old t call answer new t' → new ≡ old }
{}

/// Only `advance` moves the moment, which never goes back: an earlier moment changes nothing.
pub fn moment_law()
    ensures steps { (old : World) (t : TxnValue) (call : Call) (answer : Answer) (new : World) (t' : TxnValue) →
        Step old t call answer new t' → new.space.moment ≡ old.space.moment }
    ensures advances { (old : World) (moment : ℕ) (result : Result (Unit {0}) SpaceError) (new : World) →
        AdvanceStep old moment (done_reply result) new → old.space.moment ≤ new.space.moment }
    ensures earlier { (old : World) (moment : ℕ) → moment < old.space.moment → advance_at old moment ≡ old }
{}

/// What somebody took cannot be read, and what somebody else took or read cannot be taken.
pub fn holding_law()
    ensures taken { (moment : ℕ) (e : Entry) → is_taken e ≡ true → can_be_read moment e ≡ false }
    ensures held { (moment holder : ℕ) (e : Entry) (other : Hold) →
        Contains e.holds other → other.by ≢ holder → is_open (TakeBy holder) moment e ≡ false }
{}

/// A transaction that was just begun, with a lease above 0, is accepted.
pub fn begun_law()
    ensures { (old : World) (asked : ℕ) (t : TxnValue) (new : World) →
        IsWorld old → BeginStep old asked (Ok t) new → 0 < asked → IsAccepted new t }
{}

/// Abort and commit leave no mark of the transaction. Where the moment moves on, no mark is left of the transactions whose lease
/// has ended by then, and each that is left is that of a transaction which is live. So an entry with a live lease that only ended
/// transactions had taken or read is held by nobody, and anybody can take it.
pub fn ending_law()
    ensures aborts { (old : World) (number : ℕ) →
        All (λ e. is_held_by number e ≡ false) (abort_at old number).space.entries }
    ensures commits { (old : World) (t : TxnValue) →
        All (λ e. is_held_by t.number e ≡ false) (commit_at old t).space.entries }
    ensures ended { (old : World) (moment : ℕ) (t : Live) →
        old.space.moment ≤ moment → Contains old.live t → t.end ≤ moment →
        All (λ e. is_held_by t.number e ≡ false) (advance_at old moment).space.entries }
    ensures live { (old : World) (moment : ℕ) → IsWorld old → old.space.moment ≤ moment →
        All (λ e. All (λ h. is_live_transaction (advance_at old moment) h.by ≡ true) e.holds) (advance_at old moment).space.entries }
    ensures freed { (old : World) (moment : ℕ) (e : Entry) → IsWorld old → old.space.moment ≤ moment →
        Contains old.space.entries e → is_live moment e.end ≡ true → All (λ h. is_live_in moment h.by old.live ≡ false) e.holds →
        Contains (advance_at old moment).space.entries (record e { holds = [] })
        × (is_open Take moment (record e { holds = [] }) ≡ true) }
{}

/// A lease of 0 is not live when it is granted.
pub fn lease_law()
    ensures { (moment : ℕ) → is_live moment (granted moment (Ms 0)) ≡ false }
{}

/// Renewing moves a lease's end only later, and to the new lease's own end at least; a permanent tuple stays permanent, and
/// forever makes one permanent.
pub fn renewal_law()
    ensures old { (moment : ℕ) (end : LeaseEnd) (e : Entry) →
        is_live moment e.end ≡ true → is_live moment (with_end end e).end ≡ true }
    ensures new { (moment : ℕ) (end : LeaseEnd) (e : Entry) →
        is_live moment end ≡ true → is_live moment (with_end end e).end ≡ true }
    ensures stays { (end : LeaseEnd) (e : Entry) → is_permanent e.end ≡ true → is_permanent (with_end end e).end ≡ true }
    ensures forever { (moment : ℕ) (e : Entry) → is_permanent (with_end (granted moment Forever) e).end ≡ true }
{}

/// A call under a transaction finds nothing only if nothing is available, in the space or among its own writes, and it
/// finds a write of its own only if nothing in the space is available.
pub fn finding_law()
    ensures nothing_taken { (old : World) (t : TxnValue) (template : List PatternValue) (new : World) (t' : TxnValue) →
        Step old t (inp_in template) nothing new t' →
        NothingHad old.space (TakeBy t.number) template × NoOpenWrite template t.writes }
    ensures nothing_read { (old : World) (t : TxnValue) (template : List PatternValue) (new : World) (t' : TxnValue) →
        Step old t (rdp_in template) nothing new t' →
        NothingHad old.space Read template × NoOpenWrite template t.writes }
    ensures own_taken { (old : World) (t : TxnValue) (template : List PatternValue) (place : ℕ) (new : World) (t' : TxnValue) →
        Step old t (inp_in template) (found (Own place)) new t' → NothingHad old.space (TakeBy t.number) template }
    ensures own_read { (old : World) (t : TxnValue) (template : List PatternValue) (place : ℕ) (new : World) (t' : TxnValue) →
        Step old t (rdp_in template) (found (Own place)) new t' → NothingHad old.space Read template }
{}

/// If a holder's hold ends, an entry whose lease has ended leaves if nobody else holds it, and stays if somebody does.
pub fn leaving_law()
    ensures leaves { (holder moment : ℕ) (e : Entry) → is_held_by holder e ≡ true → is_live moment e.end ≡ false →
        All (λ h. h.by ≡ holder) e.holds → stays_without holder moment e ≡ false }
    ensures stays { (holder moment : ℕ) (e : Entry) (other : Hold) →
        Contains e.holds other → other.by ≢ holder → stays_without holder moment e ≡ true }
{}

/// A commit adds exactly what the transaction wrote: the entries with new numbers are those of the writes that were not
/// taken again, in order, each with the write's tuple and lease, granted at the moment of the commit.
pub fn granting_law()
    ensures { (old : World) (t : TxnValue) → IsSpace old.space →
        filter (λ e. nat_lt old.space.last e.number) (commit_at old t).space.entries
        ≡ granted_entries old.space.moment old.space.last t.writes }
{}
