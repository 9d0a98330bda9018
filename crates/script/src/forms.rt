// The lines of a drill behind the first four, read.
ghost use Rattle.std.specs.Prelude.{◌≡◌, ◌++◌, OnOk};
ghost use Rattle.script.specs.Scripts.{send_of, form_of, send_in, turn_in};

use crate::turns::read_turn;
use crate::values::{Message, Script};
use crate::words::{is_end, read_figure, read_next, read_word};
use air::fate::Fate;
use std::alloc::AllocError;

// What one line asks for.
#[derive(Clone, Copy, PartialEq, Eq, Debug)]
pub(crate) enum Form {
    Send(Message),
    Turn(Fate),
}

// The message that line `number` asks for.
fn read_send(number: usize, line: &[u8]) -> Option<Message>
    ensures { result ≡ send_of number line.now }
{
    let (count, rest) = read_figure(read_word(line, b"(send ")?)?;
    if count > 60_000 {
        return None;
    }
    let (value, rest) = read_next(rest, 255)?;
    is_end(rest).then_some(Message {
        line: number,
        count: count as usize,
        value,
    })
}

pub(crate) fn read_form(number: usize, line: &[u8]) -> Option<Form>
    ensures { result ≡ form_of number line.now }
{
    let message = read_send(number, line).map(Form::Send);
    message.or_else(|| read_turn(line).map(Form::Turn))
}

impl Script {
    // Keeps what a form asks for.
    pub(crate) fn keep(&mut self, form: Form) -> Result<(), AllocError>
        ensures head { self.new.head ≡ self.old.head }
        ensures sends { OnOk result (self.new.sends.items ≡ self.old.sends.items ++ send_in form) }
        ensures turns { OnOk result (self.new.turns.items ≡ self.old.turns.items ++ turn_in form) }
    {
        match form {
            Form::Send(message) => self.sends.push(message)?,
            Form::Turn(fate) => self.turns.push(fate)?,
        }
        Ok(())
    }
}
