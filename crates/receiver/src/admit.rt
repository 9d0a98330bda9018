// Every refusal of a packet, before anything is changed.
ghost use Rattle.std.specs.Prelude.{◌≡◌, ℕ, ◌+◌, ◌*◌, ◌<◌, ◌≤◌, length, IfOk};
ghost use Rattle.packet.specs.Views.{Seen};
ghost use Rattle.receiver.specs.Store.{past_from};
ghost use Rattle.receiver.specs.Calls.{unfit_of, admitted_of};
ghost use Rattle.receiver.specs.Views.{admitted_in};
ghost use Rattle.receiver.specs.Whole.{Admitted};

use crate::state::Phase;
use fault::{EndFault, PacketFault};
use fragment::carrier::Carrier;
use packet::packets::Packet;
use packet::read::read_packet;
use packet::values::Route;
use packet::write::{HEADER_OCTETS, RECORD_OCTETS};

// The first good record with a block past the last of so many.
fn past(packet: &Packet, blocks: u8) -> Option<usize>
    ensures { result ≡ past_from packet.now.size packet.now.header packet.now.octets.now blocks packet.now.header.records 0 }
{
    let i = packet.records().position(|record| record.is_some_and(|block| block.number >= blocks))?;
    Some(HEADER_OCTETS + i * (usize::from(packet.size) + RECORD_OCTETS))
}

// Where a selective packet does not fit the fragment that is being collected.
fn unfit(phase: Phase, packet: &Packet) -> Option<usize>
    ensures { result ≡ unfit_of packet.now.size phase packet.now.octets.now packet.now.header }
{
    let Phase::Collecting(g) = phase else {
        return None;
    };
    let header = packet.header;
    if !header.selective || header.number != g.number || header.start != g.start {
        return None;
    }
    if header.pad != g.pad {
        return Some(9);
    }
    past(packet, g.blocks)
}

// The packet, or why it is refused, with so much room for the response.
pub(crate) fn admit<'a, C: Carrier>(
    phase: Phase,
    route: Route,
    octets: &'a [u8],
    room: usize,
) -> Result<Packet<'a>, EndFault>
    ensures value { admitted_in result ≡ admitted_of C.Carrier.terms route phase octets.now room }
    ensures admitted { IfOk result (λ p. Admitted C.Carrier.terms p.size p.header p.octets.now) }
{
    if room < HEADER_OCTETS {
        return Err(PacketFault::Buffer.into());
    }
    let packet = read_packet::<C>(octets)?;
    route.admit(packet.header.route)?;
    match unfit(phase, &packet) {
        Some(place) => Err(EndFault::Unfit(place)),
        None => Ok(packet),
    }
}
