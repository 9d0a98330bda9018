// The messages of a drill, one after another.
ghost use Rattle.std.specs.Prelude.{◌≡◌, [], length, replicate, IfOk};
ghost use Rattle.sender.specs.Steps.{start_of};
ghost use Rattle.agreement.specs.Histories.{between};
ghost use Rattle.play.specs.Stories.{story, on_started, send_from, sends_from};
ghost use Rattle.play.specs.Views.{rest_at, stand_at, world_with, telling_at, telling_of};

use crate::printing::tell_refused;
use crate::scene::Scene;
use crate::stage::{Short, Stage};
use air::airs::Air;
use check32::Check;
use exchange::pair::Exchange;
use fragment::carrier::Carrier;
use script::values::Message;
use sender::states::Refusal;
use std::alloc::{AllocError, Global};

// No session has more turns: R + 1 for each fragment, at most 16 and 512.
const MOST_TURNS: u16 = 8192;

// So many octets of one value.
pub(crate) fn octets_of(heap: Global, count: usize, value: u8) -> Result<Vec<u8>, AllocError>
    ensures { IfOk result (λ octets. octets.items ≡ replicate count value) }
{
    vec![in heap; value; count]
}

impl<F: Air> Scene<F> {
    // One message: its session, or why there is none. Line and message stay two: a struct that borrows the message
    // would have each clause name its state at entry.
    fn send_message<C: Carrier, K: Check>(
        &mut self,
        line: usize,
        exchange: Exchange<C, K>,
        message: &[u8],
    ) -> Result<Stage<C, K>, Short<C, K>>
        ensures { IfOk result (λ stage. telling_at F.Air.fates self.new stage ≡ telling_of self.old.text.items (on_started C.Carrier.terms K.Check.number line message.now (rest_at F.Air.fates self.old exchange) [] (start_of C.Carrier.terms exchange.sender.base (length message.now)))) }
    {
        match exchange.start(message) {
            Ok(transfer) => self.take_turns(MOST_TURNS, line, transfer, message),
            Err(Refusal { kept, fault }) => tell_refused(
                &mut self.text,
                line,
                fault,
                Stage::Between(kept),
            ),
        }
    }

    // One message of a drill. Within a session none is sent.
    fn send<C: Carrier, K: Check>(
        &mut self,
        message: Message,
        stage: Stage<C, K>,
    ) -> Result<Stage<C, K>, Short<C, K>>
        ensures { IfOk result (λ y. telling_at F.Air.fates self.new y ≡ telling_of self.old.text.items (send_from C.Carrier.terms K.Check.number message [] (world_with (stand_at F.Air.fates self.old stage)))) }
    {
        let heap = *self.text.allocator();
        match stage {
            Stage::Between(exchange) => match octets_of(heap, message.count, message.value) {
                Ok(octets) => self.send_message(message.line, exchange, &octets),
                Err(error) => Err(Short {
                    stage: Stage::Between(exchange),
                    error,
                }),
            },
            Stage::Within(transfer) => Ok(Stage::Within(transfer)),
        }
    }

    // All messages of a drill, in their order.
    pub(crate) fn send_all<C: Carrier, K: Check>(
        &mut self,
        messages: &[Message],
        exchange: Exchange<C, K>,
    ) -> Result<Stage<C, K>, Short<C, K>>
        ensures { IfOk result (λ y. telling_at F.Air.fates self.new y ≡ telling_of self.old.text.items (sends_from C.Carrier.terms K.Check.number messages.now (story (between (rest_at F.Air.fates self.old exchange)) []))) }
    {
        let mut stage = Stage::Between(exchange);
        for message in messages {
            stage = self.send(*message, stage)?;
        }
        Ok(stage)
    }
}
