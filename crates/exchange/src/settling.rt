// What the response to a packet makes of a pair.
ghost use Rattle.std.specs.Prelude.{◌≡◌};
ghost use Rattle.sender.specs.Steps.{step_of};
ghost use Rattle.sender.specs.Views.{next_in, next_base};
ghost use Rattle.agreement.specs.Turns.{reached_by};
ghost use Rattle.exchange.specs.Views.{joined_in, join_of};

use crate::hearing::RESPONSE;
use crate::pair::{Ends, Exchange, Transfer};
use check32::Check;
use fragment::carrier::Carrier;
use receiver::receiver::Receiver;
use sender::states::{Awaiting, Ready, Refusal, Sending};
use sender::values::Next;

// The sender hears a response or none. One that it refuses is as none.
pub(crate) fn settle<C: Carrier, K: Check>(
    sender: Awaiting<C, K>,
    response: Option<[u8; RESPONSE]>,
) -> Next<Sending<C, K>, Ready<C, K>>
    ensures value { next_in result ≡ step_of sender.base sender.session (reached_by C.Carrier.terms sender.base sender.session response) }
    ensures kept { next_base result ≡ sender.base }
{
    let Some(octets) = response else {
        return sender.wait_over();
    };
    match sender.hear(&octets) {
        Ok(next) => next,
        Err(Refusal { kept, fault: _ }) => kept.wait_over(),
    }
}

// Both ends, within the session or after it.
pub(crate) fn join<C: Carrier, K: Check>(
    next: Next<Sending<C, K>, Ready<C, K>>,
    receiver: Receiver<C, K>,
) -> Next<Transfer<C, K>, Exchange<C, K>>
    ensures { joined_in result ≡ join_of next receiver }
{
    match next {
        Next::On(sender) => Next::On(Ends { sender, receiver }),
        Next::Ended(report, sender) => Next::Ended(report, Ends { sender, receiver }),
    }
}
