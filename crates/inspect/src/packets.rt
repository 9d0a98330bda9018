// Packets in words.
ghost use Rattle.std.specs.Prelude.{◌≡◌, ◌++◌, string_bytes, IfOk, OnOk};
ghost use Rattle.packet.specs.Views.{seen_by};
ghost use Rattle.inspect.specs.Words.{good_numbers, bad_places, extent_word, place_word, packet_words};

use crate::listed::Listed;
use packet::packets::Packet;
use std::alloc::{AllocError, Global};

// The block numbers of a packet's good records.
fn good_numbers(heap: Global, packet: &Packet) -> Result<Vec<u8>, AllocError>
    ensures { IfOk result (λ numbers. numbers.items ≡ good_numbers (seen_by packet.now)) }
{
    (0..packet.header.records)
        .filter_map(|i| packet.block(usize::from(i)).map(|block| block.number))
        .collect(heap)
}

// The indices of a packet's bad records.
fn bad_places(heap: Global, packet: &Packet) -> Result<Vec<u8>, AllocError>
    ensures { IfOk result (λ places. places.items ≡ bad_places (seen_by packet.now)) }
{
    (0..packet.header.records)
        .filter(|i| packet.block(usize::from(*i)).is_none())
        .collect(heap)
}

fn extent_word(selective: bool) -> &'static str
    ensures { result.now ≡ extent_word selective }
{
    if selective { "selective" } else { "full" }
}

fn place_word(start: bool) -> &'static str
    ensures { result.now ≡ place_word start }
{
    if start { "first" } else { "later" }
}

pub(crate) fn push_packet(text: &mut String, packet: &Packet) -> Result<(), AllocError>
    ensures { OnOk result (string_bytes text.new ≡ string_bytes text.old ++ packet_words (seen_by packet.now)) }
{
    let heap = *text.allocator();
    let good = good_numbers(heap, packet)?;
    let bad = bad_places(heap, packet)?;
    let header = &packet.header;
    let extent = extent_word(header.selective);
    let place = place_word(header.start);
    write!(
        text,
        "(packet {} {} {} {extent} {place} {} (good{}) (bad{}))\n",
        header.route.source,
        header.route.destination,
        header.number,
        header.pad,
        Listed(&good),
        Listed(&bad)
    )
}
