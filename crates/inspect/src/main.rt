// Says in words what the packets and responses on standard input are, a line of hexadecimal digits each.
#![tactic(auto)]

mod lines;
mod listed;
mod packets;
mod responses;

use anyhow::anyhow;
use fragment::carrier::{DataCall, VoiceAlongCall};
use fragment::name::CarrierName;
use lines::push_lines;
use std::io::Read;
use std::{env, io};

fn main(rt: HostRuntime) -> anyhow::Result<()> {
    let Ok(Some(carrier)) = ordered(&rt) else {
        eprintln!(rt; "usage: inspect data|voice")?;
        return Err(anyhow!("wrong arguments"));
    };
    let heap = rt.alloc();
    let mut input = Vec::new(heap);
    rt.stdin().read_to_end(&mut input)?;
    let mut text = String::new(heap);
    // A match, since types are chosen here.
    match carrier {
        CarrierName::Data => push_lines::<DataCall>(&mut text, &input)?,
        CarrierName::Voice => push_lines::<VoiceAlongCall>(&mut text, &input)?,
    }
    rt.write_all(text.as_bytes())?;
    Ok(())
}

// The carrier on the command line.
fn ordered(rt: &HostRuntime) -> io::Result<Option<CarrierName>> {
    let words: Vec<String> = env::args(rt)?.collect(rt.alloc())?;
    Ok(carrier_of(&words))
}

// The carrier in these words, the program's name first.
fn carrier_of(words: &[String]) -> Option<CarrierName> {
    let [_, word] = words else {
        return None;
    };
    word.parse().ok()
}
