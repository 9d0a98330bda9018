// What the hearings of a packet bring to the receiver and to the panel behind it.
ghost use Rattle.std.specs.Prelude.{◌≡◌, ℕ, ◌+◌, ◌<◌, ◌≤◌, [], ◌++◌, length, None};
ghost use Rattle.receiver.specs.Calls.{called, call_of};
ghost use Rattle.damage.specs.Damage.{damaged};
ghost use Rattle.air.specs.Few.{listed};
ghost use Rattle.agreement.specs.Turns.{handed_in, heard_once, all_heard, waited};
ghost use Rattle.exchange.specs.Views.{ups_in, ups_of, shown_of, begun, seen, seen_of, behind};

use crate::pair::Up;
use air::fate::{Fate, Hearing};
use air::few::UpToThree;
use check32::Check;
use damage::marks::damage;
use fault::EndFault;
use fragment::carrier::Carrier;
use packet::write::{HEADER_OCTETS, LONGEST_PACKET};
use receiver::calls::message_in;
use receiver::receiver::Receiver;
use receiver::state::{HandUp, Heard};

// The octets of a response.
pub(crate) const RESPONSE: usize = HEADER_OCTETS;

// What the hearings of a turn have brought so far: what was handed up, and the first response heard.
#[derive(Clone, Copy)]
pub(crate) struct Received {
    pub(crate) ups: UpToThree<Up>,
    pub(crate) response: Option<[u8; RESPONSE]>,
}

// A message handed up goes to the front of the panel, if it fits.
fn show(store: &[u8], up: Option<HandUp>, panel: &mut [u8], before: UpToThree<Up>) -> UpToThree<Up>
    ensures value { length (ups_in before) < 3 → ups_in result ≡ ups_of (handed_in store.now up []) ++ ups_in before }
    ensures panel { panel.new ≡ shown_of (handed_in store.now up []) panel.old }
{
    let Some(up) = up else {
        return before;
    };
    let octets = message_in(store, up);
    if octets.len() <= panel.len() {
        panel[0..octets.len()].copy_from_slice(octets);
    }
    before.and(Up {
        serial: up.serial,
        octets: octets.len(),
    })
}

// A packet that went out, as a receiver hears it.
#[derive(Drop)]
pub(crate) struct Aired<'a> {
    pub(crate) packet: &'a [u8],
    ghost short: { length packet.now ≤ 378 },
}

impl Aired<'_> {
    // The packet comes as it is heard.
    fn receive<C: Carrier, K: Check>(
        &self,
        receiver: &mut Receiver<C, K>,
        store: &mut [u8],
        hearing: Hearing,
        response: &mut [u8],
    ) -> Result<Heard, EndFault>
        ensures value { called result receiver.new.state store.new response.new ≡ call_of C.Carrier.terms K.Check.number receiver.old.route receiver.old.state store.old (damaged C.Carrier.terms.block hearing self.now.packet.now) response.old }
        ensures kept { receiver.new.route ≡ receiver.old.route }
    {
        // Fixed memory: the ends have no heap.
        let mut octets = [0; LONGEST_PACKET];
        let heard = &mut octets[0..self.packet.len()];
        heard.copy_from_slice(self.packet);
        damage::<C>(heard, hearing);
        receiver.packet(store, heard, response)
    }

    // One hearing more, of at most three. A refused packet has no response, and only the first response heard counts.
    fn hear<C: Carrier, K: Check>(
        &self,
        receiver: &mut Receiver<C, K>,
        store: &mut [u8],
        panel: &mut [u8],
        hearing: Hearing,
        before: Received,
    ) -> Received
        ensures value { length (ups_in before.ups) < 3 → seen receiver.new.state store.new (ups_in result.ups) result.response panel.new ≡ behind (ups_in before.ups) (seen_of (heard_once C.Carrier.terms K.Check.number receiver.old.route self.now.packet.now (begun receiver.old.state store.old before.response) hearing) panel.old) }
        ensures kept { receiver.new.route ≡ receiver.old.route }
    {
        let mut response = [0; RESPONSE];
        match self.receive(receiver, store, hearing, &mut response) {
            Ok(heard) => Received {
                ups: show(store, heard.up, panel, before.ups),
                response: before.response.or(hearing.reply.then_some(response)),
            },
            Err(_) => before,
        }
    }

    // What a packet with this fate brings: perhaps the wait runs out first, and then come its hearings.
    pub(crate) fn undergo<C: Carrier, K: Check>(
        &self,
        receiver: &mut Receiver<C, K>,
        store: &mut [u8],
        panel: &mut [u8],
        fate: Fate,
    ) -> Received
        ensures value { seen receiver.new.state store.new (ups_in result.ups) result.response panel.new ≡ seen_of (all_heard C.Carrier.terms K.Check.number receiver.old.route self.now.packet.now (begun (waited fate.wait receiver.old.state) store.old None) (listed fate.heard)) panel.old }
        ensures route { receiver.new.route ≡ receiver.old.route }
    {
        if fate.wait {
            receiver.wait_over();
        }
        let mut received = Received {
            ups: UpToThree::Empty,
            response: None,
        };
        for hearing in fate.heard {
            received = self.hear(receiver, store, panel, hearing, received);
        }
        received
    }
}
