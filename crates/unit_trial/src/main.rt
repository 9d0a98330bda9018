// Drives senders alone by given octets: a data-call one with the sum, and a voice-along one with the polynomial.
#![tactic(auto)]

mod bench;

use bench::drive;
use check32::{Polynomial, Sum};
use fragment::carrier::{DataCall, VoiceAlongCall};
use std::io::Read;

// Each line is `data` or `voice` and a command: `new OWN PEER LIMIT FIRST`, `start DIGITS`, `put` (with room for 378 octets), `short`
// (with room for 30), `other` (with another message), `hear DIGITS` or `over`. The data-call lines are carried out first.
fn main(rt: HostRuntime) -> anyhow::Result<()> {
    let heap = rt.alloc();
    let mut input = String::new(heap);
    rt.stdin().read_to_string(&mut input)?;
    let mut text = String::new(heap);
    drive::<DataCall, Sum>("data", &input, &mut text);
    drive::<VoiceAlongCall, Polynomial>("voice", &input, &mut text);
    rt.write_all(text.as_bytes())?;
    Ok(())
}
