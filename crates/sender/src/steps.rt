// What each call does, on plain values.
ghost use Rattle.std.specs.Prelude.{◌≡◌};
ghost use Rattle.packet.specs.Layout.{written};
ghost use Rattle.sender.specs.Steps.{start_of, sent_of, is_last, may_retry, end_of, retry_of, step_of, block_count, answerable, answer_of, admit_of};

use crate::values::{Base, Course, Next, Outcome, Report, Session};
use check32::Check;
use fault::{EndFault, PacketFault};
use fragment::carrier::Carrier;
use fragment::cutting::fragment_count;
use fragment::piece::Fragment;
use packet::response::read_response;
use packet::values::{Blocks, Code, Response};
use packet::write::write_packet;

impl Base {
    // A session for a message with so many octets, and what lasts past it.
    pub(crate) fn begin<C: Carrier>(self, length: usize) -> Result<(Base, Session), EndFault>
        ensures { result ≡ start_of C.Carrier.terms self length }
    {
        let count = fragment_count::<C>(length)?;
        let serial = self.next.ok_or(EndFault::SerialsUsed)?;
        let next = serial.checked_add(1);
        let session = Session {
            serial,
            length,
            number: (count - 1) as u16,
            blocks: Blocks::All,
            used: 0,
            packets: 0,
        };
        Ok((Base { next, ..self }, session))
    }
}

// Whether a code asks for nothing that a fragment with so many blocks hasn't.
fn is_answerable<C: Carrier>(code: Code, blocks: u8) -> bool
    ensures { result ≡ answerable C.Carrier.terms blocks code }
{
    match code {
        Code::AckSelective(set) => set.is_askable::<C>(blocks),
        _ => true,
    }
}

impl Session {
    // The blocks of the session's fragment.
    fn block_count<C: Carrier>(self) -> u8
        ensures { result ≡ block_count C.Carrier.terms self }
    {
        Fragment::<C>::cut(self.length, self.number).map_or(0, |fragment| fragment.blocks as u8)
    }

    // Whether the fragment is the last of its session.
    fn is_last(self) -> bool
        ensures { result ≡ is_last self }
    {
        self.number == 0
    }

    // The end of the session, with its report.
    fn end(self, outcome: Outcome) -> Next<Session, ()>
        ensures { result ≡ end_of self outcome }
    {
        let report = Report {
            serial: self.serial,
            outcome,
            packets: self.packets,
        };
        Next::Ended(report, ())
    }
}

impl Course {
    // Writes the session's packet.
    pub(crate) fn write<C: Carrier, K: Check>(
        self,
        message: &[u8],
        packet: &mut [u8],
    ) -> Result<usize, EndFault>
        ensures { written result packet.new ≡ sent_of C.Carrier.terms K.Check.number self.base self.session message.now packet.old }
    {
        let Course { base, session } = self;
        let fragment = Fragment::<C>::cut(session.length, session.number).ok_or(
            PacketFault::Message,
        )?;
        write_packet::<C, K>(
            base.route,
            session.serial,
            &fragment,
            session.blocks,
            message,
            packet,
        )
    }

    // The code of a response to the session's packet, or why it is refused.
    fn answer<C: Carrier>(self, response: Response) -> Result<Code, EndFault>
        ensures { result ≡ answer_of C.Carrier.terms self.base self.session response }
    {
        self.base.route.admit(response.route)?;
        if response.number != self.session.number {
            return Err(EndFault::Number);
        }
        if !is_answerable::<C>(response.code, self.session.block_count::<C>()) {
            return Err(EndFault::Blocks);
        }
        Ok(response.code)
    }

    // That code, from the octets of the response.
    pub(crate) fn admit<C: Carrier>(self, octets: &[u8]) -> Result<Code, EndFault>
        ensures { result ≡ admit_of C.Carrier.terms self.base self.session octets.now }
    {
        let response = read_response::<C>(octets)?;
        self.answer::<C>(response)
    }

    // Whether the session's fragment may be put out again.
    fn may_retry(self) -> bool
        ensures { result ≡ may_retry self.base self.session }
    {
        self.session.used < self.base.limit
    }

    // Another packet of the same fragment, or the end where no retry is left.
    fn retry(self, blocks: Blocks) -> Next<Session, ()>
        ensures { result ≡ retry_of self.base self.session blocks }
    {
        let session = self.session;
        if self.may_retry() {
            return Next::On(Session {
                blocks,
                used: session.used + 1,
                ..session
            });
        }
        let outcome = if session.is_last() {
            Outcome::Unknown
        } else {
            Outcome::NotDelivered
        };
        session.end(outcome)
    }

    // What a response's code, or no response in time, makes of the session.
    pub(crate) fn step(self, heard: Option<Code>) -> Next<Session, ()>
        ensures { result ≡ step_of self.base self.session heard }
    {
        let session = self.session;
        match heard {
            Some(Code::Ack) if session.is_last() => session.end(Outcome::Delivered),
            Some(Code::Ack) => Next::On(Session {
                number: session.number - 1,
                blocks: Blocks::All,
                used: 0,
                ..session
            }),
            Some(Code::AckSelective(set)) => self.retry(Blocks::Only(set)),
            Some(Code::FullRetry) => self.retry(Blocks::All),
            Some(Code::OutOfStep) => session.end(Outcome::NotDelivered),
            None => self.retry(session.blocks),
        }
    }
}
