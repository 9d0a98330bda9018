// What the text of a drill asks for, or why it isn't read.
ghost use Rattle.std.specs.Prelude.{◌≡◌};
ghost use Rattle.script.specs.declared.values.ScriptError.TheVariants as error;

use air::fate::Fate;
use check32::CheckName;
use fragment::name::CarrierName;
use std::alloc::AllocError;
use tell::faults::Refused;

// A message to send: so many octets of one value.
#[derive(Clone, Copy, PartialEq, Eq, Debug)]
pub struct Message {
    // The line that asks for it.
    pub line: usize,
    pub count: usize,
    pub value: u8,
}

// The first four lines.
#[derive(Clone, Copy, PartialEq, Eq, Debug)]
pub struct Head {
    pub carrier: CarrierName,
    pub check: CheckName,
    // R: the retries that each fragment has.
    pub retries: u8,
    // The serial of the first message.
    pub serial: u32,
}

// A whole drill. The messages use up the turns in their order.
#[derive(Drop)]
pub struct Script {
    pub head: Head,
    pub sends: Vec<Message>,
    pub turns: Vec<Fate>,
}

#[derive(Clone, Copy, PartialEq, Eq, Debug)]
pub enum ScriptError {
    // The text's first wrong line.
    Refused(Refused),
    OutOfMemory(AllocError),
}

impl From<Refused> for ScriptError {
    ghost from_gives = { λ refused e. e ≡ error.Refused refused };

    fn from(refused: Refused) -> ScriptError {
        ScriptError::Refused(refused)
    }
}

impl From<AllocError> for ScriptError {
    ghost from_gives = { λ short e. e ≡ error.OutOfMemory short };

    fn from(short: AllocError) -> ScriptError {
        ScriptError::OutOfMemory(short)
    }
}
