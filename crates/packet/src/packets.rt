// A packet that was read: its header, and its blocks in place.
ghost use Rattle.std.specs.Prelude.{◌≡◌, ◌<◌, length};
ghost use Rattle.std.specs.Iterator.{YieldsFirstBy, item_count};
ghost use Rattle.packet.specs.Records.{records_left, records_in};
ghost use Rattle.packet.specs.Views.{block_in, seen_by};

use crate::values::Header;
use std::ops::Range;

#[derive(Clone, Copy)]
pub struct Packet<'a> {
    pub header: Header,
    // Octets in each block.
    pub size: u8,
    pub octets: &'a [u8],
}

// A good record's block.
#[derive(Clone, Copy)]
pub struct Block<'a> {
    pub number: u8,
    pub octets: &'a [u8],
}

// A packet's records in turn: a good one's block, or none for a bad one.
#[derive(Drop)]
pub struct Records<'a> {
    pub packet: Packet<'a>,
    // Where those stand that are still to come.
    pub places: Range<u8>,
}

impl<'a> Packet<'a> {
    pub fn records(&self) -> Records<'a>
        ensures all { records_left result ≡ records_in (seen_by self.now) }
        ensures few { length (records_left result) < 256 }
    {
        Records {
            packet: *self,
            places: 0..self.header.records,
        }
    }
}

impl<'a> Iterator for Records<'a> {
    type Item = Option<Block<'a>>;

    ghost next_gives = { YieldsFirstBy block_in records_left };

    ghost remaining = { item_count records_left };

    fn next(&mut self) -> Option<Option<Block<'a>>> {
        let i = self.places.next()?;
        Some(self.packet.block(usize::from(i)))
    }
}
