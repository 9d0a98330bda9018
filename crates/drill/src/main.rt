// Plays the drill on standard input, and prints what it tells.
#![tactic(auto)]

use play::answer;
use std::io::Read;

// One octet more than the longest drill: what is behind it need not be read, since no longer text is one.
const MOST: u64 = 65_537;

fn main(rt: HostRuntime) -> anyhow::Result<()> {
    let heap = rt.alloc();
    let mut input = Vec::new(heap);
    rt.stdin().take(MOST).read_to_end(&mut input)?;
    let text = answer(heap, &input)?;
    rt.write_all(&text)?;
    Ok(())
}
