// Writing packets into a lent buffer, straight from the lent message.
ghost use Rattle.std.specs.Prelude.{◌≡◌, ℕ, ◌+◌, ◌*◌, ◌^◌, ◌<◌, ◌≤◌, List, length};
ghost use Rattle.fragment.specs.Cutting.{piece_of};
ghost use Rattle.packet.specs.Octets.{over};
ghost use Rattle.packet.specs.Blocks.{carried};
ghost use Rattle.packet.specs.Images.{block_of};
ghost use Rattle.packet.specs.Sealing.{image_in};
ghost use Rattle.packet.specs.ReadBack.{ReadsAsWritten};
ghost use Rattle.packet.specs.Refusals.{WriteRefusals};
ghost use Rattle.packet.specs.Reading.{record_place};
ghost use Rattle.packet.specs.Layout.{header_octets, record_octets, records_octets, packet_length, written, written_of};

use crate::front::{Flags, Front};
use crate::image::Image;
use crate::octets::put;
use crate::values::{Blocks, Header, Kind, Quality, Route};
use check32::Check;
use fault::{EndFault, PacketFault};
use fragment::carrier::{Carrier, DataCall, MOST_BLOCKS};
use fragment::piece::Fragment;

// Octets before a packet's records, and those of a response.
pub const HEADER_OCTETS: usize = 10;

// Octets of a record before its block.
pub const RECORD_OCTETS: usize = 3;

// Octets of the longest packet of any carrier: as many records as a fragment has blocks, with the longest blocks.
pub const LONGEST_PACKET: usize = HEADER_OCTETS + MOST_BLOCKS * (DataCall::BLOCK + RECORD_OCTETS);

// Where record i of a packet with blocks of this size begins, and so the length of a packet with i records.
pub fn record_place(size: u8, i: u8) -> usize
    ensures value { result ≡ record_place size i }
    ensures bound { result < 2 ^ 17 }
{
    HEADER_OCTETS + usize::from(i) * (usize::from(size) + RECORD_OCTETS)
}

impl Header {
    fn octets(self) -> [u8; 10]
        requires { 1 ≤ self.records }
        ensures { result ≡ header_octets self }
    {
        let flags = Flags {
            start: self.start,
            selective: self.selective,
        };
        let front = Front {
            kind: Kind::Packet,
            route: self.route,
            shape: u8::from(flags),
            number: self.number,
            last: [self.records - 1, self.pad],
        };
        front.octets()
    }
}

impl<C> Image<'_, '_, C> {
    // Writes block j.
    fn write_block(&self, block: &mut [u8], j: u8)
        requires there { j < self.now.fragment.now.blocks }
        requires room { length block.old ≡ self.now.fragment.now.block }
        ensures { block.new ≡ block_of self.now.fragment.now.block (image_in self.now) j }
    {
        let from = usize::from(j) * self.fragment.block;
        for (i, octet) in block.iter_mut().enumerate() {
            *octet = self.octet(from + i);
        }
    }

    // Writes the record of block j, which `frame` records follow.
    fn write_record(&self, octets: &mut [u8], j: u8, frame: u8)
        requires there { j < self.now.fragment.now.blocks }
        requires room { length octets.old ≡ self.now.fragment.now.block + 3 }
        ensures { octets.new ≡ record_octets j frame (block_of self.now.fragment.now.block (image_in self.now) j) }
    {
        let (front, block) = octets.split_at_mut(RECORD_OCTETS);
        front.copy_from_slice(&[j, frame, u8::from(Quality::Good)]);
        self.write_block(block, j);
    }

    // Writes the records of the blocks that a packet carries, `count` of them.
    fn write_records(&self, packet: &mut [u8], blocks: Blocks, count: u8)
        requires counted { count ≡ length (carried blocks self.now.fragment.now.blocks) }
        requires room { packet_length self.now.fragment.now.block count ≤ length packet.old }
        ensures { packet.new ≡ over 10 (records_octets self.now.fragment.now.block (image_in self.now) (carried blocks self.now.fragment.now.blocks)) packet.old }
    {
        let size = self.fragment.block + RECORD_OCTETS;
        // Counted by hand: a closure in the iterator of a generic function's loop has no proof.
        let mut place = HEADER_OCTETS;
        let mut left = count;
        for j in 0..self.fragment.blocks as u8 {
            if blocks.carries(j) {
                left -= 1;
                self.write_record(&mut packet[place..place + size], j, left);
                place += size;
            }
        }
    }
}

// Writes the packet of these blocks of a fragment, and answers its length. A refusal leaves the buffer as it was.
pub fn write_packet<C: Carrier, K: Check>(
    route: Route,
    serial: u32,
    fragment: &Fragment<C>,
    blocks: Blocks,
    message: &[u8],
    packet: &mut [u8],
) -> Result<usize, EndFault>
    ensures value { written result packet.new ≡ written_of C.Carrier.terms K.Check.number route serial (piece_of fragment.now) blocks message.now packet.old }
    ensures refusals { WriteRefusals C.Carrier.terms (piece_of fragment.now) blocks message.now packet.old result }
    ensures reads { ReadsAsWritten C.Carrier.terms K.Check.number route serial (piece_of fragment.now) blocks message.now result packet.new }
{
    if message.len() != fragment.message {
        return Err(PacketFault::Message.into());
    }
    let n = fragment.blocks as u8;
    let count = blocks.count(n);
    let length = record_place(fragment.block as u8, count);
    if packet.len() < length {
        return Err(PacketFault::Buffer.into());
    }
    if !blocks.fit::<C>(n) {
        return Err(EndFault::Blocks);
    }
    let header = Header {
        route,
        start: fragment.start,
        selective: blocks.is_selective(),
        number: fragment.number,
        records: count,
        pad: fragment.pad as u8,
    };
    put(packet, 0, &header.octets());
    Image::sealed::<K>(fragment, serial, message).write_records(packet, blocks, count);
    Ok(length)
}
