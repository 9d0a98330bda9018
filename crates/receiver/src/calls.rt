// The calls of a receiver: a packet comes, the wait runs out, a message is read.
ghost use Rattle.std.specs.Prelude.{◌≡◌, ℕ, ◌+◌, ◌≤◌, true, length, IfOk};
ghost use Rattle.receiver.specs.Whole.{Admitted};
ghost use Rattle.receiver.specs.Few.{few_in};
ghost use Rattle.receiver.specs.Fill.{after, heard_of};
ghost use Rattle.receiver.specs.Calls.{made_of, called, call_of, expired, part_of};
ghost use Rattle.receiver.specs.Laws.{Rows, ExpiryRows, CallRefusals, RefusedKeeps, FillHolds, AppendsData};
ghost use Rattle.receiver.specs.Views.{made_in};

use crate::admit::admit;
use crate::receiver::Receiver;
use crate::state::{Act, BlockStore, Event, HandUp, Heard, Phase, State};
use check32::Check;
use fault::EndFault;
use fragment::carrier::Carrier;
use fragment::cutting::SERIAL_OCTETS;
use packet::packets::Packet;
use packet::response::write_response;
use packet::values::{Code, Response, Route};
use std::marker::PhantomData;

// The fewest octets of a message store: a serial and one octet.
const LEAST_STORE: usize = SERIAL_OCTETS + 1;

impl State {
    // A packet that is not refused.
    fn hear<C: Carrier, K: Check>(&mut self, store: &mut [u8], packet: &Packet) -> Heard
        requires few { few_in self.old.phase ≡ true }
        requires admitted { Admitted C.Carrier.terms packet.now.size packet.now.header packet.now.octets.now }
        ensures value { after self.new store.new result ≡ heard_of C.Carrier.terms K.Check.number self.old store.old packet.now.header packet.now.octets.now }
        ensures few { few_in self.new.phase ≡ true }
    {
        match self.meet(Event::from(packet.header)) {
            Act::Rest => Heard::only(Code::Ack),
            Act::Answer(code) => Heard::only(code),
            Act::Fill(g) => {
                self.blocks.fill(packet);
                self.finish::<C, K>(store, g)
            }
        }
    }
}

impl<C: Carrier, K: Check> Receiver<C, K> {
    // A fresh receiver at its own address for a peer, with the message store that it will be lent.
    pub fn new(own: u16, peer: u16, store: &[u8]) -> Result<Receiver<C, K>, EndFault>
        ensures state { made_in result ≡ made_of store.now }
        ensures route { IfOk result (λ y. y.route ≡ record { source = own; destination = peer }) }
    {
        if store.len() < LEAST_STORE {
            return Err(EndFault::Store);
        }
        let state = State {
            phase: Phase::Idle,
            blocks: BlockStore::new(),
            filled: 0,
            last: None,
        };
        Ok(Receiver {
            route: Route {
                source: own,
                destination: peer,
            },
            state,
            kind: PhantomData,
        })
    }

    // A packet comes: the response is written, and perhaps a message is handed up. A refusal changes nothing.
    pub fn packet(
        &mut self,
        store: &mut [u8],
        octets: &[u8],
        response: &mut [u8],
    ) -> Result<Heard, EndFault>
        ensures value { called result self.new.state store.new response.new ≡ call_of C.Carrier.terms K.Check.number self.old.route self.old.state store.old octets.now response.old }
        ensures route { self.new.route ≡ self.old.route }
        ensures rows { Rows C.Carrier.terms K.Check.number }
        ensures refusals { CallRefusals C.Carrier.terms self.old.route self.old.state.phase octets.now (length response.old) result }
        ensures refused { RefusedKeeps result self.old.state self.new.state store.old store.new response.old response.new }
        ensures fills { FillHolds C.Carrier.terms }
        ensures appends { AppendsData C.Carrier.terms K.Check.number }
    {
        let packet = admit::<C>(self.state.phase, self.route, octets, response.len())?;
        let heard = self.state.hear::<C, K>(store, &packet);
        let _ = write_response(
            Response {
                route: self.route,
                number: packet.header.number,
                code: heard.code,
            },
            response,
        );
        Ok(heard)
    }

    // The wait runs out.
    pub fn wait_over(&mut self)
        ensures value { self.new.state ≡ expired self.old.state }
        ensures route { self.new.route ≡ self.old.route }
        ensures rows { ExpiryRows self.old.state self.new.state }
    {
        let _ = self.state.meet(Event::Expiry);
    }
}

// The message that was handed up: that part of the store, or an empty one where it does not lie within.
pub fn message_in(store: &[u8], up: HandUp) -> &[u8]
    ensures { result.now ≡ part_of store.now up.place up.length }
{
    store
        .get(up.place..)
        .and_then(|rest| rest.get(..up.length))
        .unwrap_or(&[])
}
