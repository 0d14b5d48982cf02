//! The place of one worker in a run by a schedule.

ghost use Rattle.std.specs.Prelude.{◌≡◌, ◌+◌, ◌≤◌, false, IfOk, None, OnOk};
ghost use Rattle.std.specs.Arc.{arc_value};
ghost use Rattle.qap_search.specs.Worker.Hand.{is_due};
ghost use Rattle.qap_search.specs.Worker.Turn.{Turn};
ghost use Rattle.shared_space.specs.Event.{Did};
ghost use Rattle.qap_search.specs.Runs.Interleaving.{TakesTurn, after_loss, beginner, report_of};
ghost use Rattle.qap_search.specs.Law.SearchLaw.{IsSearchLaw};

use crate::worker::gate::Always;
use crate::worker::hand::Hand;
use crate::worker::report::{Ended, Report};
use gilmore_lawler::RankedInstance;
use shared_space::{Alone, Law, Share, no_limit_law};
use std::alloc::{AllocError, Global};
use std::marker::Model;
use std::sync::Arc;

/// The state of one worker, with the share of its place, and the counts of those that were lost there.
#[derive(Drop)]
pub(crate) struct Post<L: Law> {
    worker: u16,
    hand: Hand,
    share: Share<L>,
    accepted: u64,
    refused: u64,
}

impl<L: Law> Model for Post<L> {
    ghost use Rattle.std.specs.Prelude.{◌≡◌, ◌+◌, None};
    ghost use Rattle.qap_search.specs.Runs.Interleaving.{PostValue};
    ghost use Rattle.qap_search.specs.Law.SearchLaw.{IsSearchLaw};

    ghost Value = { PostValue };

    ghost view = { λ p. record { hand = p.hand; accepted = p.accepted; refused = p.refused } };

    ghost invariant = { λ p. IsSearchLaw p.hand.instance L.lawful L.allowed × L.begins p.hand.lease × (L.limit ≡ None) × (p.accepted + p.hand.accepted ≡ p.share) };
}

impl<L: Law> Post<L> {
    /// The place of a worker who has done nothing yet, and of a share that has counted nothing.
    pub(crate) fn new(
        alloc: Global,
        worker: u16,
        rows: &Arc<RankedInstance>,
        lease_ms: u64,
        share: Share<L>,
    ) -> Result<Post<L>, AllocError>
        requires law { IsSearchLaw (arc_value rows.now) L.lawful L.allowed }
        requires lease { L.begins lease_ms }
        requires limit { L.limit ≡ None }
        requires fresh { share ≡ 0 }
        ensures { IfOk result (λ post. post ≡ beginner (arc_value rows.now) lease_ms) }
    {
        let hand = Hand::new(alloc, worker, rows.clone()?, lease_ms)?;
        Ok(Post {
            worker,
            hand,
            share,
            accepted: 0,
            refused: 0,
        })
    }

    /// The worker's next step, and the evaluation that it calls for.
    pub(crate) fn turn(&mut self, room: &mut Alone<L>) -> Result<(), AllocError>
        requires { is_due self.old.hand.stage ≡ false }
        ensures turn { OnOk result (TakesTurn self.old.hand room.old self.new.hand room.new) }
        ensures rest { OnOk result (self.new ≡ record self.old { hand = self.new.hand }) }
        ensures ready { OnOk result (is_due self.new.hand.stage ≡ false) }
    {
        take_turn(&mut self.hand, &mut self.share, room)
    }

    /// Puts a worker who has done nothing yet in the place of the one who is there, who is lost with its transaction.
    pub(crate) fn lose(
        &mut self,
        alloc: Global,
        rows: &Arc<RankedInstance>,
        lease_ms: u64,
    ) -> Result<(), AllocError>
        requires law { IsSearchLaw (arc_value rows.now) L.lawful L.allowed }
        requires lease { L.begins lease_ms }
        ensures { OnOk result (self.new ≡ after_loss (arc_value rows.now) lease_ms self.old) }
    {
        let hand = Hand::new(alloc, self.worker, rows.clone()?, lease_ms)?;
        self.accepted = self.share.commits();
        self.refused = self.refused.saturating_add(self.hand.report().refused);
        self.hand = hand;
        Ok(())
    }

    /// What the workers did who stood there.
    pub(crate) fn report(&self) -> Report
        ensures { result ≡ report_of self.now }
    {
        Report {
            accepted: self.share.commits(),
            refused: self.refused.saturating_add(self.hand.report().refused),
            ended: Ended::Done,
        }
    }
}

/// The worker's next step, and the evaluation that it calls for.
fn take_turn<L: Law>(
    hand: &mut Hand,
    share: &mut Share<L>,
    room: &mut Alone<L>,
) -> Result<(), AllocError>
    requires law { IsSearchLaw hand.old.instance L.lawful L.allowed }
    requires lease { L.begins hand.old.lease }
    requires limit { L.limit ≡ None }
    requires not_due { is_due hand.old.stage ≡ false }
    requires counted { hand.old.accepted ≤ share.old }
    ensures turn { OnOk result (TakesTurn hand.old room.old hand.new room.new) }
    ensures ready { OnOk result (is_due hand.new.stage ≡ false) }
    ensures counted { share.new + hand.old.accepted ≡ share.old + hand.new.accepted }
    ensures instance { hand.new.instance ≡ hand.old.instance }
    ensures lease { hand.new.lease ≡ hand.old.lease }
{
    step(hand, share, room)?;
    if hand.thinks() {
        hand.think(&Always)?;
    }
    Ok(())
}

/// The worker's next step, as one of the machine.
fn step<L: Law>(
    hand: &mut Hand,
    share: &mut Share<L>,
    room: &mut Alone<L>,
) -> Result<bool, AllocError>
    requires law { IsSearchLaw hand.old.instance L.lawful L.allowed }
    requires lease { L.begins hand.old.lease }
    requires limit { L.limit ≡ None }
    requires not_due { is_due hand.old.stage ≡ false }
    requires counted { hand.old.accepted ≤ share.old }
    ensures turn { Turn Did hand.old room.old result hand.new room.new }
    ensures counted { share.new + hand.old.accepted ≡ share.old + hand.new.accepted }
    ensures instance { hand.new.instance ≡ hand.old.instance }
    ensures lease { hand.new.lease ≡ hand.old.lease }
{
    no_limit_law();
    hand.step(room, share)
}
