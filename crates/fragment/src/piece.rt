// A fragment of a message's stream.
ghost use Rattle.std.specs.Prelude.{◌≡◌, ℕ, ◌+◌, ◌*◌, ◌<◌, ◌≤◌};

use std::marker::PhantomData;

// Where a fragment lies in its stream, and how its data, pad and check fill whole blocks.
#[derive(Drop)]
pub struct Fragment<C> {
    // Octets of the message that it was cut from.
    pub message: usize,
    // N: how many fragments follow.
    pub number: u16,
    // Whether it is the first.
    pub start: bool,
    // Octets of the stream before it.
    pub offset: usize,
    // d: its data octets.
    pub octets: usize,
    // n: its blocks.
    pub blocks: usize,
    // p: zero octets between data and check.
    pub pad: usize,
    // B: octets in a block.
    pub block: usize,
    pub carrier: PhantomData<C>,
    ghost some: { 1 ≤ blocks },
    ghost few: { blocks ≤ 16 },
    ghost image: { blocks * block ≡ octets + pad + 4 },
    ghost inside: { offset + octets ≤ message + 4 },
    ghost tight: { pad < block },
    ghost narrow: { block ≤ 20 },
}
