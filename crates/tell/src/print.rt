// The lines that answer a drill.
ghost use Rattle.std.specs.Prelude.{◌≡◌, ◌++◌, MatchResult, Some};
ghost use Rattle.tell.specs.Printed.{line_text, line_of};

use crate::faults::Refused;
use sender::values::Report;
use std::alloc::AllocError;
use std::fmt;

// What one line tells.
#[derive(Clone, Copy, PartialEq, Eq, Debug)]
pub enum Line {
    // A message was handed up.
    Up { serial: u32, octets: usize },
    // A session ended.
    Report(Report),
    // A line of the drill is refused.
    Refused(Refused),
}

impl fmt::Display for Line {
    ghost output = { λ line. Some (line_text line) };

    fn fmt<W: fmt::Write>(&self, f: &mut fmt::Formatter<W>) -> fmt::Result {
        match self {
            Self::Up { serial, octets } => write!(f, "(up {serial} {octets})"),
            Self::Report(report) => report.fmt(f),
            Self::Refused(Refused { line, fault }) => {
                let number = fault.number();
                write!(f, "(refused {line} {number})")
            }
        }
    }
}

// Appends a line. Where memory is short, the text stays as it was.
pub fn push_line(text: &mut Vec<u8>, line: Line) -> Result<(), AllocError>
    ensures after { MatchResult result (λ _. text.new.items ≡ text.old.items ++ line_of line) (λ _. text.new.items ≡ text.old.items) }
{
    let heap = *text.allocator();
    let line = format!(in heap; "{line}\n")?;
    text.extend_from_slice(line.as_bytes())
}
