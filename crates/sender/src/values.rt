// What a sender holds and reports, as plain values.
ghost use Rattle.std.specs.Prelude.{Some};
ghost use Rattle.sender.specs.Words.{outcome_word, report_words};

use packet::values::{Blocks, Route};
use std::fmt;

// What lasts from session to session.
#[derive(Clone, Copy, PartialEq, Eq, Debug)]
pub struct Base {
    // The source is this end, the destination the peer.
    pub route: Route,
    // R: the retries that each fragment has.
    pub limit: u8,
    // The serial of the next message, or none once the last was used.
    pub next: Option<u32>,
}

// A session: one message on its way.
#[derive(Clone, Copy, PartialEq, Eq, Debug)]
pub struct Session {
    pub serial: u32,
    // Octets of the message.
    pub length: usize,
    // N: how many fragments follow the current one.
    pub number: u16,
    // What the current packet carries of the fragment.
    pub blocks: Blocks,
    // Retries that the fragment has used.
    pub used: u8,
    // Packets put out so far.
    pub packets: u32,
}

// A session under way, and what lasts past it.
#[derive(Clone, Copy, PartialEq, Eq, Debug)]
pub(crate) struct Course {
    pub(crate) base: Base,
    pub(crate) session: Session,
}

#[derive(Clone, Copy, PartialEq, Eq, Debug)]
pub enum Outcome {
    Delivered,
    NotDelivered,
    // The retries of the last fragment are used, and whether it was taken isn't known.
    Unknown,
}

// How a session ended.
#[derive(Clone, Copy, PartialEq, Eq, Debug)]
pub struct Report {
    pub serial: u32,
    pub outcome: Outcome,
    // Packets put out.
    pub packets: u32,
}

// A session goes on, or has ended with a report and what is left after it.
#[derive(Clone, Copy, PartialEq, Eq, Debug)]
pub enum Next<S, R> {
    On(S),
    Ended(Report, R),
}

impl fmt::Display for Outcome {
    ghost output = { λ outcome. Some (outcome_word outcome) };

    fn fmt<W: fmt::Write>(&self, f: &mut fmt::Formatter<W>) -> fmt::Result {
        match self {
            Self::Delivered => f.write_str("delivered"),
            Self::NotDelivered => f.write_str("not-delivered"),
            Self::Unknown => f.write_str("unknown"),
        }
    }
}

impl fmt::Display for Report {
    ghost output = { λ report. Some (report_words report) };

    fn fmt<W: fmt::Write>(&self, f: &mut fmt::Formatter<W>) -> fmt::Result {
        let serial = self.serial;
        let outcome = self.outcome;
        let packets = self.packets;
        write!(f, "(report {serial} {outcome} {packets})")
    }
}
