// Reading packets from octets.
ghost use Rattle.std.specs.Prelude.{◌≡◌, ℕ, ◌+◌, ◌*◌, ◌<◌, ◌≤◌, length, Ok, Err, MatchResult};
ghost use Rattle.packet.specs.Reading.{header_from, record_of, records_from, record_place, read_of, block_at};
ghost use Rattle.packet.specs.Layout.{packet_length};
ghost use Rattle.packet.specs.Refusals.{PacketRefusals};
ghost use Rattle.packet.specs.Views.{block_in, header_in, seen_in, seen_of};

use crate::front::{Flags, Front};
use crate::packets::{Block, Packet};
use crate::values::{Header, Kind, Quality};
use crate::write::{RECORD_OCTETS, record_place};
use fault::PacketFault;
use fragment::carrier::Carrier;

// The header that ten octets in front give, or their lowest wrong field.
fn header_from<C: Carrier>(front: Front) -> Result<Header, PacketFault>
    ensures { result ≡ header_from C.Carrier.terms front }
{
    let Some(Flags { start, selective }) = Flags::of::<C>(front.shape) else {
        return Err(PacketFault::Field(5));
    };
    if usize::from(front.number) >= C::fragment_limit() {
        return Err(PacketFault::Field(6));
    }
    let [behind, pad] = front.last;
    if behind > 15 {
        return Err(PacketFault::Field(8));
    }
    let records = behind + 1;
    let size = C::block_size();
    if usize::from(pad) >= size {
        return Err(PacketFault::Field(9));
    }
    let least = if start { 5 } else { 1 };
    if !selective && usize::from(records) * size < usize::from(pad) + 4 + least {
        return Err(PacketFault::Field(9));
    }
    Ok(Header {
        route: front.route,
        start,
        selective,
        number: front.number,
        records,
        pad,
    })
}

// Reads a packet, or says where its lowest wrong field is.
pub fn read_packet<C: Carrier>(octets: &[u8]) -> Result<Packet<'_>, PacketFault>
    ensures value { seen_in result ≡ seen_of C.Carrier.terms octets.now }
    ensures refusals { PacketRefusals C.Carrier.terms octets.now (header_in result) }
{
    let front = Front::read(octets, Kind::Packet)?;
    let header = header_from::<C>(front)?;
    let packet = Packet {
        header,
        size: C::block_size() as u8,
        octets,
    };
    let length = octets.len();
    if length != record_place(packet.size, header.records) {
        return Err(PacketFault::Length(length));
    }
    packet.read_records()?;
    Ok(packet)
}

impl<'a> Packet<'a> {
    // Reads the front of record i, and answers the least block number of the next good one.
    fn read_record(&self, i: u8, least: u8) -> Result<u8, PacketFault>
        requires there { i < self.now.header.records }
        requires room { record_place self.now.size i + 2 < length self.now.octets.now }
        ensures { result ≡ record_of self.now.header self.now.octets.now i least (record_place self.now.size i) }
    {
        let Packet { header, octets, .. } = *self;
        let place = record_place(self.size, i);
        match Quality::try_from(octets[place + 2]) {
            Ok(Quality::Good) => {}
            Ok(Quality::Bad) => return Ok(least),
            Err(_) => return Err(PacketFault::Field(place + 2)),
        }
        let block = octets[place];
        let fits = if header.selective {
            block >= least && block < 16
        } else {
            block == i
        };
        if !fits {
            return Err(PacketFault::Field(place));
        }
        if octets[place + 1] != header.records - 1 - i {
            return Err(PacketFault::Field(place + 1));
        }
        Ok(block + 1)
    }

    fn read_records(&self) -> Result<u8, PacketFault>
        requires whole { length self.now.octets.now ≡ packet_length self.now.size self.now.header.records }
        ensures { result ≡ records_from self.now.size self.now.header self.now.octets.now self.now.header.records 0 0 }
    {
        let mut least = 0;
        // By number, since a record's number is itself tested.
        for i in 0..self.header.records {
            least = self.read_record(i, least)?;
        }
        Ok(least)
    }

    // The block of record i, or none where the record is bad or not there.
    pub fn block(&self, i: usize) -> Option<Block<'a>>
        ensures { block_in result ≡ block_at self.now.size self.now.header self.now.octets.now i }
    {
        if i >= usize::from(self.header.records) {
            return None;
        }
        let place = record_place(self.size, i as u8);
        let end = place + RECORD_OCTETS + usize::from(self.size);
        let octets = self.octets;
        let [number, _, quality, block @ ..] = octets.get(place..end)? else {
            return None;
        };
        if *quality != u8::from(Quality::Good) {
            return None;
        }
        Some(Block {
            number: *number,
            octets: block,
        })
    }
}
