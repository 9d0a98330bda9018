// Drives receivers alone by given octets: a data-call one with the sum, and a voice-along one with the polynomial.
#![tactic(auto)]

mod bench;

use bench::{Bench, act};
use check32::{Polynomial, Sum};
use fragment::carrier::{DataCall, VoiceAlongCall};
use std::io::Read;

// Each line is `data` or `voice` and a command: `new OWN PEER STORE`, `packet DIGITS`, `short DIGITS` (with a response buffer of 9 octets) or `wait`.
fn main(rt: HostRuntime) -> anyhow::Result<()> {
    let heap = rt.alloc();
    let mut input = String::new(heap);
    rt.stdin().read_to_string(&mut input)?;
    let mut text = String::new(heap);
    let mut data: Option<Bench<DataCall, Sum>> = None;
    let mut voice: Option<Bench<VoiceAlongCall, Polynomial>> = None;
    for line in input.as_str().lines() {
        match line.split_once(' ') {
            Some(("data", command)) => act(&mut data, command, &mut text)?,
            Some(("voice", command)) => act(&mut voice, command, &mut text)?,
            _ => text.push_str("(unknown)\n")?,
        }
    }
    rt.write_all(text.as_bytes())?;
    Ok(())
}
