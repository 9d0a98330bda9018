// Reading the whole text of a drill.
ghost use Rattle.std.specs.Prelude.{◌≡◌, IfSome};
ghost use Rattle.script.specs.Examples.{Accepted, Rejected};
ghost use Rattle.script.specs.Lines.{lines_of};
ghost use Rattle.script.specs.Scripts.{answered, plan_in, script_of};
ghost use Rattle.script.specs.Written.{ReadsBack};

use crate::forms::read_form;
use crate::heads::{read_head, wrong_line};
use crate::values::{Script, ScriptError};
use std::alloc::Global;

// The octets of the longest text.
const LONGEST: usize = 65_536;

// Reads the lines of a text.
fn read_lines(heap: Global, text: &[u8]) -> Result<Script, ScriptError>
    ensures { IfSome (answered result) (λ answer. answer ≡ plan_in (lines_of text.now)) }
{
    let mut lines = text.split_inclusive(|octet| *octet == b'\n');
    // Each by itself: of an iterator, what `read_head` promises would speak of its states, and not of four texts.
    let one = lines.next().unwrap_or_default();
    let two = lines.next().unwrap_or_default();
    let three = lines.next().unwrap_or_default();
    let four = lines.next().unwrap_or_default();
    let head = read_head(one, two, three, four)?;
    let mut script = Script {
        head,
        sends: Vec::new(heap),
        turns: Vec::new(heap),
    };
    for (index, line) in lines.enumerate() {
        let number = index + 5;
        let form = read_form(number, line).ok_or(wrong_line(number))?;
        script.keep(form)?;
    }
    Ok(script)
}

// What the text of a drill asks for, or its first wrong line. Nothing of it is done before all of it is read.
pub fn parse(heap: Global, input: &[u8]) -> Result<Script, ScriptError>
    ensures value { IfSome (answered result) (λ answer. answer ≡ script_of input.now) }
    ensures law { IfSome (answered result) (ReadsBack input.now) }
    ensures examples { Accepted × Rejected }
{
    if input.len() > LONGEST {
        return Err(ScriptError::Refused(wrong_line(0)));
    }
    read_lines(heap, input)
}
