// The calls of a pair.
ghost use Rattle.std.specs.Prelude.{◌≡◌, length, IfOk, IfErr, OnErr};
ghost use Rattle.sender.specs.Steps.{start_of};
ghost use Rattle.agreement.specs.Turns.{turn_of};
ghost use Rattle.exchange.specs.Claims.{FreshReached, StartAgrees, TurnAgrees};
ghost use Rattle.exchange.specs.Views.{fresh_pair_of, fresh_pair_in, start_in, pair_of, turn_in, brief_of, panel_of};

use crate::hearing::Aired;
use crate::pair::{Ends, Exchange, Transfer, Turned, let_go};
use crate::settling::{join, settle};
use air::airs::Air;
use check32::Check;
use fault::EndFault;
use fragment::carrier::Carrier;
use packet::write::LONGEST_PACKET;
use receiver::receiver::Receiver;
use sender::states::{Ready, Refusal};
use sender::values::{Base, Session};

impl<C: Carrier, K: Check> Exchange<C, K> {
    // A fresh pair: a sender at its own address, and a receiver at the peer's with the message store that it will be lent.
    pub fn new(
        own: u16,
        peer: u16,
        retries: u8,
        first: u32,
        store: &[u8],
    ) -> Result<Exchange<C, K>, EndFault>
        ensures value { fresh_pair_in result ≡ fresh_pair_of own peer retries first store.now }
        ensures fresh { FreshReached C.Carrier.terms K.Check.number retries first store.now result }
    {
        let receiver = Receiver::<C, K>::new(peer, own, store)?;
        match Ready::<C, K>::new(own, peer, retries, first) {
            Ok(sender) => Ok(Ends { sender, receiver }),
            Err(fault) => {
                let_go(receiver);
                Err(fault)
            }
        }
    }

    // Opens a session for a message, with the next serial.
    pub fn start(self, message: &[u8]) -> Result<Transfer<C, K>, Refusal<Exchange<C, K>>>
        ensures value { start_in result ≡ start_of C.Carrier.terms self.sender.base (length message.now) }
        ensures kept { IfOk result (λ y. y.receiver ≡ self.receiver) }
        ensures back { IfErr result (λ y. y.kept ≡ self) }
        ensures agrees { StartAgrees C.Carrier.terms K.Check.number self message.now result }
    {
        let Ends { sender, receiver } = self;
        match sender.start(message) {
            Ok(sender) => Ok(Ends { sender, receiver }),
            Err(Refusal { kept, fault }) => Err(Refusal {
                kept: Ends {
                    sender: kept,
                    receiver,
                },
                fault,
            }),
        }
    }

    // Puts the pair away for good, and answers what its sender held.
    pub fn retire(self) -> Base
        ensures { result ≡ self.sender.base }
    {
        let ready = self.into_sender();
        ready.retire()
    }
}

impl<C: Carrier, K: Check> Transfer<C, K> {
    // A packet goes out, the air gives it a fate, and the sender hears a response or none.
    // The octets of what is handed up go to the front of the panel, if they fit.
    pub fn turn<F: Air>(
        self,
        message: &[u8],
        store: &mut [u8],
        panel: &mut [u8],
        air: &mut F,
    ) -> Result<Turned<C, K>, Refusal<Transfer<C, K>>>
        ensures value { turn_in result store.new (F.Air.fates air.new) ≡ brief_of (turn_of C.Carrier.terms K.Check.number (pair_of self store.old (F.Air.fates air.old)) self.sender.session message.now) }
        ensures panel { panel.new ≡ panel_of (turn_of C.Carrier.terms K.Check.number (pair_of self store.old (F.Air.fates air.old)) self.sender.session message.now) panel.old }
        ensures back { IfErr result (λ y. y.kept ≡ self) }
        ensures untouched { OnErr result ((store.new ≡ store.old) × (panel.new ≡ panel.old) × (air.new ≡ air.old)) }
        ensures agrees { TurnAgrees C.Carrier.terms K.Check.number self message.now store.old (F.Air.fates air.old) result store.new (F.Air.fates air.new) }
    {
        let Ends {
            sender,
            mut receiver,
        } = self;
        let mut packet = [0; LONGEST_PACKET];
        match sender.put_out(message, &mut packet) {
            Ok((sender, octets)) => {
                let aired = Aired {
                    packet: &packet[0..octets],
                };
                let received = aired.undergo(&mut receiver, store, panel, air.ask());
                Ok(Turned {
                    ups: received.ups,
                    next: join(settle(sender, received.response), receiver),
                })
            }
            Err(Refusal { kept, fault }) => Err(Refusal {
                kept: Ends {
                    sender: kept,
                    receiver,
                },
                fault,
            }),
        }
    }

    // Puts the pair away for good, and answers what its sender held.
    pub fn retire(self) -> (Base, Session)
        ensures { result ≡ (self.sender.base, self.sender.session) }
    {
        let sending = self.into_sender();
        sending.retire()
    }
}
