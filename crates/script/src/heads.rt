// The first four lines of a drill, read.
ghost use Rattle.std.specs.Prelude.{◌≡◌};
ghost use Rattle.tell.specs.Faults.{wrong};
ghost use Rattle.script.specs.Words.{ReadsNamed};
ghost use Rattle.script.specs.Scripts.{carrier_of, check_of, lone_figure, retries_of, head_of};

use crate::values::Head;
use crate::words::{is_end, read_figure, read_word};
use check32::CheckName;
use fault::EndFault;
use fragment::name::CarrierName;
use sender::states::calls::MOST_RETRIES;
use std::str;
use std::str::FromStr;
use tell::faults::{DrillFault, Refused};

// What a line names that is this word, a name and the line's end.
fn read_named<T: FromStr>(line: &[u8], word: &[u8]) -> Option<T>
where
    T::Err: Drop,
    ensures { ReadsNamed T.from_str_gives word.now line.now result }
{
    let name = line.strip_prefix(word)?.strip_suffix(b")\n")?;
    str::from_utf8(name).ok()?.parse().ok()
}

fn read_carrier(line: &[u8]) -> Option<CarrierName>
    ensures { result ≡ carrier_of line.now }
{
    read_named(line, b"(carrier ")
}

fn read_check(line: &[u8]) -> Option<CheckName>
    ensures { result ≡ check_of line.now }
{
    read_named(line, b"(check ")
}

// The one figure of a line that begins with this word.
fn read_lone(line: &[u8], word: &[u8]) -> Option<u32>
    ensures { result ≡ lone_figure word.now line.now }
{
    let (value, rest) = read_figure(read_word(line, word)?)?;
    is_end(rest).then_some(value)
}

fn read_retries(line: &[u8]) -> Result<u8, DrillFault>
    ensures { result ≡ retries_of line.now }
{
    let retries = read_lone(line, b"(retries ").ok_or(DrillFault::Line)?;
    u8::try_from(retries)
        .ok()
        .filter(|retries| *retries <= MOST_RETRIES)
        .ok_or(DrillFault::from(EndFault::Retries))
}

// A line that is not in the form that is due.
pub(crate) fn wrong_line(line: usize) -> Refused
    ensures { result ≡ wrong line }
{
    Refused {
        line,
        fault: DrillFault::Line,
    }
}

pub(crate) fn read_head(one: &[u8], two: &[u8], three: &[u8], four: &[u8]) -> Result<Head, Refused>
    ensures { result ≡ head_of one.now two.now three.now four.now }
{
    let carrier = read_carrier(one).ok_or(wrong_line(1))?;
    let check = read_check(two).ok_or(wrong_line(2))?;
    let retries = read_retries(three).map_err(|fault| Refused { line: 3, fault })?;
    let serial = read_lone(four, b"(serial ").ok_or(wrong_line(4))?;
    Ok(Head {
        carrier,
        check,
        retries,
        serial,
    })
}
