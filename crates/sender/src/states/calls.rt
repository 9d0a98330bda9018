// The calls of a sender.
ghost use Rattle.std.specs.Prelude.{◌≡◌, length, IfOk, IfErr};
ghost use Rattle.std.specs.declared.option.Option.TheVariants as option;
ghost use Rattle.fragment.specs.Cutting.{count_of};
ghost use Rattle.packet.specs.Responses.{response_at};
ghost use Rattle.sender.specs.Laws.{NewRefusals, StartRefusals, TakesSerial, Sendable, PutRefusals, HearRefusals, OnSendable, Rows, Bounded};
ghost use Rattle.sender.specs.Steps.{fresh_of, start_of, put_of, step_of, hear_of};
ghost use Rattle.sender.specs.Views.{fresh_in, start_in, put_in, next_in, next_base, hear_in};

use super::{Awaiting, InSession, Ready, Refusal, Sending};
use crate::values::{Base, Course, Next, Session};
use check32::Check;
use fault::EndFault;
use fragment::carrier::Carrier;
use packet::values::{Code, Route};
use std::marker::PhantomData;

// The most retries that a fragment may have.
pub const MOST_RETRIES: u8 = 15;

impl<C: Carrier, K: Check> Ready<C, K> {
    pub fn new(own: u16, peer: u16, limit: u8, first: u32) -> Result<Ready<C, K>, EndFault>
        ensures value { fresh_in result ≡ fresh_of own peer limit first }
        ensures refusals { NewRefusals limit (fresh_in result) }
    {
        if limit > MOST_RETRIES {
            return Err(EndFault::Retries);
        }
        let route = Route {
            source: own,
            destination: peer,
        };
        Ok(Ready {
            base: Base {
                route,
                limit,
                next: Some(first),
            },
            kind: PhantomData,
        })
    }

    // Opens a session for a message, with the next serial.
    pub fn start(self, message: &[u8]) -> Result<Sending<C, K>, Refusal<Ready<C, K>>>
        ensures value { start_in result ≡ start_of C.Carrier.terms self.base (length message.now) }
        ensures back { IfErr result (λ y. y.kept ≡ self) }
        ensures refusals { StartRefusals C.Carrier.terms self.base (length message.now) (start_in result) }
        ensures serial { IfOk result (λ y. TakesSerial self.base y.session y.base) }
        ensures sendable { IfOk result (λ y. Sendable C.Carrier.terms y.session) }
        ensures bounded { IfOk result (λ y. Bounded C.Carrier.terms y.base y.session (count_of C.Carrier.terms (length message.now))) }
    {
        match self.base.begin::<C>(message.len()) {
            Err(fault) => Err(Refusal { kept: self, fault }),
            Ok((base, session)) => {
                let Ready { base: _, kind } = self;
                Ok(Sending {
                    base,
                    session,
                    kind,
                })
            }
        }
    }
}

impl<C: Carrier, K: Check> Sending<C, K> {
    // Writes the next packet into a lent buffer, straight from the lent message, and answers its length.
    pub fn put_out(
        self,
        message: &[u8],
        packet: &mut [u8],
    ) -> Result<(Awaiting<C, K>, usize), Refusal<Sending<C, K>>>
        ensures value { put_in result packet.new ≡ put_of C.Carrier.terms K.Check.number self.base self.session message.now packet.old }
        ensures kept { IfOk result (λ y. y.0.base ≡ self.base) }
        ensures back { IfErr result (λ y. y.kept ≡ self) }
        ensures refusals { Sendable C.Carrier.terms self.session → PutRefusals C.Carrier.terms self.session message.now packet.old (put_in result packet.new).answer }
        ensures sendable { IfOk result (λ y. Sendable C.Carrier.terms self.session → Sendable C.Carrier.terms y.0.session) }
    {
        match self.course().write::<C, K>(message, packet) {
            Err(fault) => Err(Refusal { kept: self, fault }),
            Ok(length) => {
                let Sending {
                    base,
                    session,
                    kind,
                } = self;
                let session = Session {
                    packets: session.packets + 1,
                    ..session
                };
                Ok((
                    Awaiting {
                        base,
                        session,
                        kind,
                    },
                    length,
                ))
            }
        }
    }
}

impl<C: Carrier, K: Check> Awaiting<C, K> {
    // Takes a response to the packet that was put out.
    pub fn hear(
        self,
        response: &[u8],
    ) -> Result<Next<Sending<C, K>, Ready<C, K>>, Refusal<Awaiting<C, K>>>
        ensures value { hear_in result ≡ hear_of C.Carrier.terms self.base self.session response.now }
        ensures kept { IfOk result (λ y. next_base y ≡ self.base) }
        ensures back { IfErr result (λ y. y.kept ≡ self) }
        ensures refusals { HearRefusals C.Carrier.terms self.base self.session response.now (hear_in result) }
        ensures sendable { IfOk result (λ y. Sendable C.Carrier.terms self.session → OnSendable C.Carrier.terms (next_in y)) }
        ensures rows { IfOk result (λ y. Rows self.base self.session (option.Some (response_at response.now).code) (next_in y)) }
    {
        match self.course().admit::<C>(response) {
            Err(fault) => Err(Refusal { kept: self, fault }),
            Ok(code) => Ok(self.learn(Some(code))),
        }
    }

    // No response was heard in time.
    pub fn wait_over(self) -> Next<Sending<C, K>, Ready<C, K>>
        ensures value { next_in result ≡ step_of self.base self.session option.None }
        ensures kept { next_base result ≡ self.base }
        ensures sendable { Sendable C.Carrier.terms self.session → OnSendable C.Carrier.terms (next_in result) }
        ensures rows { Rows self.base self.session option.None (next_in result) }
    {
        self.learn(None)
    }

    fn learn(self, heard: Option<Code>) -> Next<Sending<C, K>, Ready<C, K>>
        ensures value { next_in result ≡ step_of self.base self.session heard }
        ensures kept { next_base result ≡ self.base }
    {
        let next = self.course().step(heard);
        let Awaiting {
            base,
            session: _,
            kind,
        } = self;
        match next {
            Next::On(session) => Next::On(Sending {
                base,
                session,
                kind,
            }),
            Next::Ended(report, ()) => Next::Ended(report, Ready { base, kind }),
        }
    }
}

// A sender can't be let go by accident; these put one away for good, and answer what it held.
impl<C: Carrier, K: Check> Ready<C, K> {
    pub fn retire(self) -> Base
        ensures { result ≡ self.base }
    {
        let Ready { base, kind: _ } = self;
        base
    }
}

impl<C: Carrier, K: Check, const OUT: u8> InSession<C, K, OUT> {
    fn course(&self) -> Course
        ensures { (result.base ≡ self.now.base) × (result.session ≡ self.now.session) }
    {
        Course {
            base: self.base,
            session: self.session,
        }
    }

    pub fn retire(self) -> (Base, Session)
        ensures { result ≡ (self.base, self.session) }
    {
        let InSession {
            base,
            session,
            kind: _,
        } = self;
        (base, session)
    }
}
