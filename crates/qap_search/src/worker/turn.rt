//! The steps of a worker's turn that write nothing: each makes one call on the room, and returns the state in which
//! its answer leaves the worker.

ghost use Rattle.std.specs.Prelude.{◌≡◌, ◌+◌, ◌<◌, ◌≤◌, [], ℕ, ℤ, Bool, true, false, Ok, Option, IfErr, IfOk, OnErr, OnOk};
ghost use Rattle.qap_cost.specs.Instance.{IsInstance, Problem};
ghost use Rattle.shared_space.specs.Law.{MayCommit};
ghost use Rattle.space_txn.specs.Machine.{end_answer, find_answer, found, refused};
ghost use Rattle.space_txn.specs.Txn.{TxnValue};
ghost use Rattle.qap_search.specs.Worker.Hand.{hand_of, is_due, is_hopeful, last_of};
ghost use Rattle.qap_search.specs.Tuples.Piece.{node_template};
ghost use Rattle.qap_search.specs.Law.Replacement.{MayReplace};
ghost use Rattle.qap_search.specs.Law.SearchLaw.{IsSearchLaw};
ghost use Rattle.qap_search.specs.Worker.Standing.{IsAtWork, IsFoundNode, IsSearchHand, IsStage};
ghost use Rattle.qap_search.specs.Node.Thought.{ThoughtValue};
ghost use Rattle.qap_search.specs.Worker.Turn.{AfterAbort, AfterBegin, AfterCommit, AfterNoCommit, AfterNode, AfterRefusal, TurnsInto};
ghost use Rattle.qap_search.specs.declared.worker.stage.Stage.{Stage};
ghost use Rattle.qap_search.specs.declared.worker.stage.Stage.TheVariants.{Begun, Considered, GivingUp, Idle, Ready};

use crate::worker::best_steps::seek_best;
use crate::worker::prepared::Prepared;
use crate::worker::stage::{LastThought, Outcome, Stage, Standing, Tally, Tools};
use shared_space::{CommitError, Law, Room, Share};
use space_txn::{Found, Spare, Txn, TxnError};
use std::alloc::AllocError;
use tuple_match::{Template, does_match_law};

/// Makes the next step of a worker at this stage, and begins a transaction in spare memory, if there is some.
pub(crate) fn turn<L: Law, M: Room<L>>(
    tools: &Tools,
    room: &mut M,
    share: &mut Share<L>,
    last: &Option<LastThought>,
    standing: Standing,
    prepared: &mut Prepared,
    spare: &mut Option<Spare>,
) -> Outcome
    requires hand { IsSearchHand L.lawful L.allowed tools.now last.now standing.stage }
    requires lease { L.begins tools.now.lease_ms }
    requires not_due { is_due standing.stage ≡ false }
    requires counted { standing.tally.accepted ≤ share.old }
    ensures turn { (I : Problem) → IsAtWork I L.lawful L.allowed tools.now last.now prepared.old standing.stage →
        TurnsInto M.did I tools.now.lease_ms (last_of last.now) standing.stage standing.tally room.old result room.new }
    ensures stage { (I : Problem) → IsAtWork I L.lawful L.allowed tools.now last.now prepared.old standing.stage →
        IsStage I (last_of last.now) result.stage }
    ensures counted { share.new + standing.tally.accepted ≡ share.old + result.tally.accepted }
{
    let Standing { stage, tally } = standing;
    match stage {
        Stage::Idle => begin(room, tools.lease_ms, spare, tally),
        Stage::Begun(txn) => take_node(room, &tools.node, txn, tally),
        Stage::Taken(..) => unreachable!(),
        Stage::Considered(txn) => find_best(tools, room, last, txn, prepared, tally),
        Stage::Ready(txn, cost) => commit(room, share, txn, cost, tally),
        Stage::GivingUp(txn) => abort(room, txn, tally),
    }
}

/// Takes or reads the tuple of the best permutation.
fn find_best<L: Law, M: Room<L>>(
    tools: &Tools,
    room: &mut M,
    last: &Option<LastThought>,
    txn: Txn,
    prepared: &mut Prepared,
    tally: Tally,
) -> Outcome
    requires hand { IsSearchHand L.lawful L.allowed tools.now last.now (Considered txn) }
    ensures turn { (I : Problem) → IsAtWork I L.lawful L.allowed tools.now last.now prepared.old (Considered txn) →
        TurnsInto M.did I tools.now.lease_ms (last_of last.now) (Considered txn) tally room.old result room.new }
    ensures stage { (I : Problem) → IsAtWork I L.lawful L.allowed tools.now last.now prepared.old (Considered txn) →
        IsStage I (last_of last.now) result.stage }
    ensures accepted { result.tally.accepted ≡ tally.accepted }
{
    let Some(last) = last else {
        unreachable!();
    };
    seek_best(tools.alloc, room, &tools.best, txn, last, prepared, tally)
}

/// Whether no incumbent is known, or the last evaluation's candidate costs less than that.
pub(crate) fn is_hopeful(tally: &Tally, last: &Option<LastThought>) -> bool
    ensures { result ≡ is_hopeful tally.now.best (last_of last.now) }
{
    match last {
        Some(last) => tally.is_hopeful(last),
        None => tally.best.is_none(),
    }
}

/// Begins a transaction with a lease of this many milliseconds.
fn begin<L: Law, M: Room<L>>(
    room: &mut M,
    lease_ms: u64,
    spare: &mut Option<Spare>,
    tally: Tally,
) -> Outcome
    requires { L.begins lease_ms }
    ensures turn { (I : Problem) (last : Option ThoughtValue) →
        TurnsInto M.did I lease_ms last Idle tally room.old result room.new }
    ensures stage { (I : Problem) (last : Option ThoughtValue) → IsStage I last result.stage }
    ensures accepted { result.tally.accepted ≡ tally.accepted }
{
    let begun = room.begin_in(lease_ms, spare);
    told_begin(begun, tally)
}

fn told_begin(begun: Result<Txn, TxnError>, tally: Tally) -> Outcome
    requires { IfOk begun (λ txn. (txn.marks ≡ []) × (txn.writes ≡ [])) }
    ensures turn { (I : Problem) (lease : ℕ) (last : Option ThoughtValue) →
        AfterBegin (hand_of I lease last Idle tally) begun result.told (hand_of I lease last result.stage result.tally) }
    ensures stage { (I : Problem) (last : Option ThoughtValue) → IsStage I last result.stage }
    ensures accepted { result.tally.accepted ≡ tally.accepted }
{
    match begun {
        Ok(txn) => went_on(Stage::Begun(txn), tally),
        Err(error) => refused(error, Stage::Idle, tally),
    }
}

/// Takes the tuple of an open node.
fn take_node<L: Law, M: Room<L>>(
    room: &mut M,
    template: &Template,
    mut txn: Txn,
    tally: Tally,
) -> Outcome
    requires template { template.now ≡ node_template }
    requires marks { txn.marks ≡ [] }
    requires writes { txn.writes ≡ [] }
    ensures turn { (I : Problem) (lease : ℕ) (last : Option ThoughtValue) →
        TurnsInto M.did I lease last (Begun txn) tally room.old result room.new }
    ensures stage { (I : Problem) (last : Option ThoughtValue) → IsInstance I → IsSearchLaw I L.lawful L.allowed →
        IsStage I last result.stage }
    ensures accepted { result.tally.accepted ≡ tally.accepted }
{
    does_match_law();
    let found = room.inp_in(&mut txn, template);
    told_node(found, txn, tally)
}

fn told_node(found: Result<Option<Found>, TxnError>, txn: Txn, tally: Tally) -> Outcome
    ensures turn { (I : Problem) (lease : ℕ) (last : Option ThoughtValue) (old : TxnValue) →
        AfterNode (hand_of I lease last (Begun old) tally) (find_answer found) txn result.told (hand_of I lease last result.stage result.tally) }
    ensures stage { (I : Problem) (last : Option ThoughtValue) → IsFoundNode I (find_answer found) txn → IsStage I last result.stage }
    ensures accepted { result.tally.accepted ≡ tally.accepted }
{
    match found {
        Ok(Some(found)) => took(found, txn, tally),
        Ok(None) => went_on(Stage::GivingUp(txn), tally),
        Err(error) => refused(error, Stage::Begun(txn), tally),
    }
}

/// A write of the transaction itself is not one of an open node.
fn took(what: Found, txn: Txn, tally: Tally) -> Outcome
    ensures turn { (I : Problem) (lease : ℕ) (last : Option ThoughtValue) (old : TxnValue) →
        AfterNode (hand_of I lease last (Begun old) tally) (found what) txn result.told (hand_of I lease last result.stage result.tally) }
    ensures stage { (I : Problem) (last : Option ThoughtValue) → IsFoundNode I (found what) txn → IsStage I last result.stage }
    ensures accepted { result.tally.accepted ≡ tally.accepted }
{
    match what {
        Found::Entry(id) => went_on(Stage::Taken(txn, id), tally),
        Found::Own(_) => went_on(Stage::GivingUp(txn), tally),
    }
}

/// Commits a transaction, after which the incumbent has this cost.
fn commit<L: Law, M: Room<L>>(
    room: &mut M,
    share: &mut Share<L>,
    txn: Txn,
    cost: i128,
    tally: Tally,
) -> Outcome
    requires allowed { MayCommit L.allowed txn }
    requires counted { tally.accepted ≤ share.old }
    ensures turn { (I : Problem) (lease : ℕ) (last : Option ThoughtValue) →
        TurnsInto M.did I lease last (Ready txn cost) tally room.old result room.new }
    ensures stage { (I : Problem) (last : Option ThoughtValue) → MayCommit (MayReplace I) txn → IsStage I last result.stage }
    ensures counted { share.new + tally.accepted ≡ share.old + result.tally.accepted }
{
    let committed = room.commit(share, txn);
    let shared = share.commits();
    told_commit(committed, shared, cost, tally)
}

/// A commit that is accepted is counted; `shared` is the share's count then. If the limit of commits is reached, the
/// transaction is given up.
fn told_commit(
    committed: Result<(), (CommitError, Txn)>,
    shared: u64,
    cost: i128,
    tally: Tally,
) -> Outcome
    requires { OnOk committed (tally.accepted < shared) }
    ensures turn { (I : Problem) (lease : ℕ) (last : Option ThoughtValue) (txn : TxnValue) → IfErr committed (λ back. back.1 ≡ txn) →
        AfterCommit (hand_of I lease last (Ready txn cost) tally) txn cost committed result.told (hand_of I lease last result.stage result.tally) }
    ensures stage { (I : Problem) (last : Option ThoughtValue) → IfErr committed (λ back. MayCommit (MayReplace I) back.1) → IsStage I last result.stage }
    ensures accepted { OnOk committed (result.tally.accepted ≡ tally.accepted + 1) }
    ensures uncounted { OnErr committed (result.tally.accepted ≡ tally.accepted) }
{
    match committed {
        Ok(()) => went_on(Stage::Idle, tally.with_commit(cost)),
        Err((CommitError::Limit, txn)) => Outcome {
            stage: Stage::GivingUp(txn),
            tally,
            told: Ok(false),
        },
        Err((CommitError::Txn(error), txn)) => not_committed(error, Stage::Ready(txn, cost), tally),
    }
}

/// A commit that was refused since its transaction has ended is counted.
fn not_committed(error: TxnError, stage: Stage, tally: Tally) -> Outcome
    ensures turn { (I : Problem) (lease : ℕ) (last : Option ThoughtValue) (old : Stage) (txn : TxnValue) (cost : ℤ) → stage ≡ Ready txn cost →
        AfterNoCommit (hand_of I lease last old tally) txn cost (CommitError.Txn error) result.told (hand_of I lease last result.stage result.tally) }
    ensures stage { (I : Problem) (last : Option ThoughtValue) → IsStage I last stage → IsStage I last result.stage }
    ensures accepted { result.tally.accepted ≡ tally.accepted }
{
    match error {
        TxnError::Expired => Outcome {
            stage: Stage::Idle,
            tally: tally.with_refusal(),
            told: Ok(false),
        },
        TxnError::Foreign | TxnError::Exhausted | TxnError::OutOfMemory => {
            refused(error, stage, tally)
        }
    }
}

/// Ends a transaction without a commit.
fn abort<L: Law, M: Room<L>>(room: &mut M, txn: Txn, tally: Tally) -> Outcome
    ensures turn { (I : Problem) (lease : ℕ) (last : Option ThoughtValue) →
        TurnsInto M.did I lease last (GivingUp txn) tally room.old result room.new }
    ensures stage { (I : Problem) (last : Option ThoughtValue) → IsStage I last result.stage }
    ensures accepted { result.tally.accepted ≡ tally.accepted }
{
    let ended = room.abort(txn);
    told_abort(ended, tally)
}

fn told_abort(ended: Result<(), (TxnError, Txn)>, tally: Tally) -> Outcome
    ensures turn { (I : Problem) (lease : ℕ) (last : Option ThoughtValue) (txn : TxnValue) → IfErr ended (λ back. back.1 ≡ txn) →
        AfterAbort (hand_of I lease last (GivingUp txn) tally) txn (end_answer ended) result.told (hand_of I lease last result.stage result.tally) }
    ensures stage { (I : Problem) (last : Option ThoughtValue) → IsStage I last result.stage }
    ensures accepted { result.tally.accepted ≡ tally.accepted }
{
    match ended {
        Ok(()) => went_on(Stage::Idle, tally),
        Err((error, txn)) => refused(error, Stage::GivingUp(txn), tally),
    }
}

/// A step that met no refusal.
pub(crate) fn went_on(stage: Stage, tally: Tally) -> Outcome
    ensures stage { result.stage ≡ stage }
    ensures tally { result.tally ≡ tally }
    ensures told { result.told ≡ Ok true }
{
    Outcome {
        stage,
        tally,
        told: Ok(true),
    }
}

/// A step that met this refusal: where the transaction has ended the worker is idle, and else it is where it was.
pub(crate) fn refused(error: TxnError, stage: Stage, tally: Tally) -> Outcome
    ensures turn { (I : Problem) (lease : ℕ) (last : Option ThoughtValue) (old : Stage) →
        AfterRefusal (hand_of I lease last old tally) stage error result.told (hand_of I lease last result.stage result.tally) }
    ensures stage { (I : Problem) (last : Option ThoughtValue) → IsStage I last stage → IsStage I last result.stage }
    ensures tally { result.tally ≡ tally }
{
    match error {
        TxnError::Expired => Outcome {
            stage: Stage::Idle,
            tally,
            told: Ok(false),
        },
        TxnError::Foreign | TxnError::Exhausted => Outcome {
            stage,
            tally,
            told: Ok(false),
        },
        TxnError::OutOfMemory => Outcome {
            stage,
            tally,
            told: Err(AllocError),
        },
    }
}
