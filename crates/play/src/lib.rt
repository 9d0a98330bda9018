// Plays a drill over a pair: from its text to the text that is printed.
#![tactic(auto)]

ghost use Rattle.std.specs.Prelude.{◌≡◌, IfOk};
ghost use Rattle.fragment.specs.Names.{terms_of};
ghost use Rattle.check32.specs.Names.{number_by};
ghost use Rattle.play.specs.Laws.{TellsHistory};
ghost use Rattle.play.specs.Stories.{told_of, answer_of};
ghost use Rattle.play.specs.Views.{asked_by};

mod playing;
mod printing;
mod scene;
mod sending;
mod stage;
mod turning;

use check32::{CheckName, Polynomial, Sum};
use fragment::carrier::{DataCall, VoiceAlongCall};
use fragment::name::CarrierName;
use playing::play;
use script::parse::parse;
use script::values::{Script, ScriptError};
use std::alloc::{AllocError, Global};
use tell::print::{Line, push_line};

// What a drill tells, at the carrier and the check that it asks for.
fn tell_drill(heap: Global, script: &Script) -> Result<Vec<u8>, AllocError>
    ensures { IfOk result (λ text. text.items ≡ told_of (terms_of script.now.head.carrier) (number_by script.now.head.check) (asked_by script.now)) }
{
    // A match, since types are chosen here: a table of functions would list the same four.
    match (script.head.carrier, script.head.check) {
        (CarrierName::Data, CheckName::Polynomial) => play::<DataCall, Polynomial>(heap, script),
        (CarrierName::Data, CheckName::Sum) => play::<DataCall, Sum>(heap, script),
        (CarrierName::Voice, CheckName::Polynomial) => play::<VoiceAlongCall, Polynomial>(
            heap, script,
        ),
        (CarrierName::Voice, CheckName::Sum) => play::<VoiceAlongCall, Sum>(heap, script),
    }
}

// What is printed for a text: its first wrong line, or what the drill tells, which is a history of its pair.
pub fn answer(heap: Global, input: &[u8]) -> Result<Vec<u8>, AllocError>
    ensures text { IfOk result (λ text. text.items ≡ answer_of input.now) }
    ensures tells { TellsHistory input.now }
{
    match parse(heap, input) {
        Ok(script) => tell_drill(heap, &script),
        Err(ScriptError::Refused(refused)) => {
            let mut text = Vec::new(heap);
            push_line(&mut text, Line::Refused(refused))?;
            Ok(text)
        }
        Err(ScriptError::OutOfMemory(error)) => Err(error),
    }
}
