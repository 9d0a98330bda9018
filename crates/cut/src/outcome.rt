// What cutting and joining came to.
ghost use Rattle.std.specs.Prelude.{Some};
ghost use Rattle.cut.specs.Outcomes.{words_of};

use fault::EndFault;
use std::fmt;

#[derive(Clone, Copy)]
pub(crate) enum Outcome {
    // The message is refused, which its number says.
    Refused(EndFault),
    // What was joined is not what was cut.
    NotJoined,
    // This serial, and a message of so many octets, came back.
    Joined(u32, usize),
}

impl fmt::Display for Outcome {
    ghost output = { λ o. Some (words_of o) };

    fn fmt<W: fmt::Write>(&self, f: &mut fmt::Formatter<W>) -> fmt::Result {
        match self {
            Outcome::Refused(fault) => write!(f, "(refused {})", fault.number()),
            Outcome::NotJoined => write!(f, "(not joined)"),
            Outcome::Joined(serial, octets) => write!(f, "(joined {serial} {octets})"),
        }
    }
}
