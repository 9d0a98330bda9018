// The turns of a session.
ghost use Rattle.std.specs.Prelude.{◌≡◌, [], IfOk, IfErr, OnErr};
ghost use Rattle.agreement.specs.Turns.{turn_of};
ghost use Rattle.exchange.specs.Views.{turn_in, brief_of};
ghost use Rattle.play.specs.Stories.{turns_from};
ghost use Rattle.play.specs.Views.{pair_at, left_at, left_of, telling_at, telling_of};

use crate::printing::{tell_refused, tell_turn};
use crate::scene::Scene;
use crate::stage::{Short, Stage, Turn};
use air::airs::Air;
use check32::Check;
use exchange::pair::{Transfer, Turned};
use fragment::carrier::Carrier;
use sender::states::Refusal;
use std::ops::ControlFlow;

impl<F: Air> Scene<F> {
    // One turn of a session, with what the scene lends.
    fn turn<C: Carrier, K: Check>(
        &mut self,
        transfer: Transfer<C, K>,
        message: &[u8],
    ) -> Result<Turned<C, K>, Refusal<Transfer<C, K>>>
        ensures value { turn_in result self.new.store.items (F.Air.fates self.new.air) ≡ brief_of (turn_of C.Carrier.terms K.Check.number (pair_at F.Air.fates self.old transfer) transfer.sender.session message.now) }
        ensures back { IfErr result (λ y. y.kept ≡ transfer) }
        ensures untouched { OnErr result ((self.new.store.items ≡ self.old.store.items) × (self.new.air ≡ self.old.air)) }
        ensures text { self.new.text ≡ self.old.text }
    {
        transfer.turn(message, &mut self.store, &mut self.panel, &mut self.air)
    }

    // One turn of a session, told.
    fn take_turn<C: Carrier, K: Check>(
        &mut self,
        line: usize,
        transfer: Transfer<C, K>,
        message: &[u8],
    ) -> Result<Turn<C, K>, Short<C, K>>
        ensures { IfOk result (λ turn. left_at F.Air.fates self.new turn ≡ left_of C.Carrier.terms line self.old.text.items (pair_at F.Air.fates self.old transfer) transfer.sender.session (turn_of C.Carrier.terms K.Check.number (pair_at F.Air.fates self.old transfer) transfer.sender.session message.now)) }
    {
        match self.turn(transfer, message) {
            Ok(turned) => tell_turn(&mut self.text, turned),
            Err(Refusal { kept, fault }) => {
                let stage = tell_refused(&mut self.text, line, fault, Stage::Within(kept))?;
                Ok(ControlFlow::Break(stage))
            }
        }
    }

    // The turns of a session, until it is over; at most so many.
    pub(crate) fn take_turns<C: Carrier, K: Check>(
        &mut self,
        most: u16,
        line: usize,
        transfer: Transfer<C, K>,
        message: &[u8],
    ) -> Result<Stage<C, K>, Short<C, K>>
        ensures { IfOk result (λ stage. telling_at F.Air.fates self.new stage ≡ telling_of self.old.text.items (turns_from C.Carrier.terms K.Check.number most line message.now (pair_at F.Air.fates self.old transfer) transfer.sender.session [])) }
    {
        let mut transfer = transfer;
        // At most so many, and no index.
        for _past in 0..most {
            match self.take_turn(line, transfer, message)? {
                ControlFlow::Continue(next) => transfer = next,
                ControlFlow::Break(stage) => return Ok(stage),
            }
        }
        Ok(Stage::Within(transfer))
    }
}
