// The block store.
ghost use Rattle.std.specs.Prelude.{◌≡◌, ℕ, ◌+◌, ◌-◌, ◌*◌, ◌<◌, ◌≤◌, Bool, true, false, length, take, drop};
ghost use Rattle.packet.specs.Reading.{block_at};
ghost use Rattle.receiver.specs.Store.{fresh, anew, put_of, filled_by, missing_of, check_place, check_in};
ghost use Rattle.receiver.specs.Whole.{Storable};

use crate::state::BlockStore;
use fragment::carrier::{CHECK_OCTETS, Carrier};
use packet::packets::Packet;
use packet::values::BlockSet;

// An image in the block store: its data and pad, and the check that it brings.
#[derive(Drop)]
pub(crate) struct Image<'a> {
    pub(crate) octets: &'a [u8],
    pub(crate) check: u32,
}

impl BlockStore {
    pub(crate) fn new() -> BlockStore
        ensures { result ≡ fresh }
    {
        BlockStore {
            octets: [0; 320],
            held: [false; 16],
        }
    }

    // No block is held any more; the octets stay.
    pub(crate) fn renew(&mut self)
        ensures { self.new ≡ anew self.old }
    {
        self.held = [false; 16];
    }

    // A block goes in by its number.
    fn put(&mut self, number: usize, block: &[u8])
        requires there { number < 16 }
        requires narrow { length block.now ≤ 20 }
        ensures { self.new ≡ put_of (length block.now) (record { number = number; octets = block.now }) self.old }
    {
        let place = number * block.len();
        self.octets[place..place + block.len()].copy_from_slice(block);
        self.held[number] = true;
    }

    // The good blocks of a packet go in.
    pub(crate) fn fill(&mut self, packet: &Packet)
        requires { Storable packet.now.size packet.now.header packet.now.octets.now }
        ensures { self.new ≡ filled_by packet.now.size packet.now.header packet.now.octets.now self.old }
    {
        for record in packet.records() {
            if let Some(block) = record {
                self.put(usize::from(block.number), block.octets);
            }
        }
    }

    // The blocks of so many that are not held.
    pub(crate) fn missing(&self, blocks: u8) -> BlockSet
        requires { blocks ≤ 16 }
        ensures { result ≡ missing_of blocks self.now }
    {
        let mut flags: u16 = 0;
        for (j, held) in self.held[..usize::from(blocks)].iter().enumerate() {
            if !held {
                flags += 1 << j;
            }
        }
        BlockSet(flags)
    }

    // The image of so many blocks.
    pub(crate) fn image<C: Carrier>(&self, blocks: u8) -> Image<'_>
        requires { blocks ≤ 16 }
        ensures octets { result.octets.now ≡ take (check_place C.Carrier.terms.block blocks) self.now.octets }
        ensures length { length result.octets.now ≡ check_place C.Carrier.terms.block blocks }
        ensures check { result.check ≡ check_in C.Carrier.terms.block blocks self.now }
    {
        let end = (usize::from(blocks) * C::block_size()).saturating_sub(CHECK_OCTETS);
        let (octets, behind) = self.octets.split_at(end);
        Image {
            octets,
            check: u32::from_be_bytes(*behind.first_chunk().unwrap()),
        }
    }
}
