// Cuts the message on standard input into packets, prints them in hexadecimal, and joins what reading them gives.
#![tactic(auto)]

ghost use Rattle.std.specs.Prelude.{◌≡◌, ◌++◌, length, string_bytes, IfOk, OnOk};
ghost use Rattle.check32.specs.Names.{number_by};
ghost use Rattle.fragment.specs.Cutting.{fragments_of};
ghost use Rattle.fragment.specs.Names.{terms_of};
ghost use Rattle.cut.specs.Outcomes.{lines_of, outcome_of};

mod arguments;
mod cutting;
mod joining;
mod outcome;

use anyhow::anyhow;
use arguments::{Order, order_of};
use check32::{CheckName, Polynomial, Sum};
use cutting::cut;
use fragment::carrier::{DataCall, VoiceAlongCall};
use fragment::name::CarrierName;
use outcome::Outcome;
use std::alloc::AllocError;
use std::io::Read;
use std::{env, io};

fn main(rt: HostRuntime) -> anyhow::Result<()> {
    let Ok(Some(order)) = ordered(&rt) else {
        eprintln!(rt; "usage: cut data|voice poly|sum SERIAL SOURCE DESTINATION")?;
        return Err(anyhow!("wrong arguments"));
    };
    let heap = rt.alloc();
    let mut message = Vec::new(heap);
    rt.stdin().read_to_end(&mut message)?;
    let mut text = String::new(heap);
    let outcome = obey(order, &message, &mut text)?;
    rt.write_all(text.as_bytes())?;
    rt.println(outcome)?;
    Ok(())
}

// The order on the command line.
fn ordered(rt: &HostRuntime) -> io::Result<Option<Order>> {
    let words: Vec<String> = env::args(rt)?.collect(rt.alloc())?;
    Ok(order_of(&words))
}

// Cuts a message at the carrier and the check that were ordered.
fn obey(order: Order, message: &[u8], text: &mut String) -> Result<Outcome, AllocError>
    ensures lines { OnOk result (string_bytes text.new ≡ string_bytes text.old ++ lines_of (terms_of order.carrier) (number_by order.check) order message.now (fragments_of (terms_of order.carrier) (length message.now))) }
    ensures value { IfOk result (λ outcome. outcome ≡ outcome_of (terms_of order.carrier) (number_by order.check) order message.now (fragments_of (terms_of order.carrier) (length message.now))) }
{
    // A match, since types are chosen here: a table of functions would list the same four.
    match (order.carrier, order.check) {
        (CarrierName::Data, CheckName::Polynomial) => cut::<DataCall, Polynomial>(
            order, message, text,
        ),
        (CarrierName::Data, CheckName::Sum) => cut::<DataCall, Sum>(order, message, text),
        (CarrierName::Voice, CheckName::Polynomial) => cut::<VoiceAlongCall, Polynomial>(
            order, message, text,
        ),
        (CarrierName::Voice, CheckName::Sum) => cut::<VoiceAlongCall, Sum>(order, message, text),
    }
}
