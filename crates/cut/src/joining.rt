// Joining: the data of packets, and the serial and message that they make.
ghost use Rattle.std.specs.Prelude.{◌≡◌, IfOk, vec_items};
ghost use Rattle.std.specs.Option.{option_map};
ghost use Rattle.fragment.specs.Streams.{split_of};
ghost use Rattle.packet.specs.Views.{seen_by};
ghost use Rattle.cut.specs.Joining.{image_of, data_of, packet_data, holding};

use check32::{Check, number_of};
use fragment::carrier::{CHECK_OCTETS, Carrier};
use fragment::stream::{Joined, split_stream};
use packet::packets::Packet;
use packet::read::read_packet;
use std::alloc::{AllocError, Global};

// The blocks of a packet's good records, joined.
fn image_of(heap: Global, packet: &Packet) -> Result<Vec<u8>, AllocError>
    ensures { IfOk result (λ image. image.items ≡ image_of (seen_by packet.now)) }
{
    let mut image = Vec::new(heap);
    // Block by block: a chain over octets would copy each by itself.
    for record in packet.records() {
        if let Some(block) = record {
            image.extend_from_slice(block.octets)?;
        }
    }
    Ok(image)
}

// The data of an image, or none where its check is wrong.
fn data_of<K: Check>(image: &[u8], pad: u8) -> Option<&[u8]>
    ensures { option_map (λ x. x.now) result ≡ data_of K.Check.number image.now pad }
{
    let (covered, check) = image.split_last_chunk::<CHECK_OCTETS>()?;
    let end = covered.len().checked_sub(usize::from(pad))?;
    if u32::from_be_bytes(*check) != number_of::<K>(covered) {
        return None;
    }
    Some(&covered[..end])
}

// The data of a packet, or none where the octets are no packet or its check is wrong.
pub(crate) fn packet_data<C: Carrier, K: Check>(
    heap: Global,
    octets: &[u8],
) -> Result<Option<Vec<u8>>, AllocError>
    ensures { IfOk result (λ joined. option_map vec_items joined ≡ packet_data C.Carrier.terms K.Check.number octets.now) }
{
    let Ok(packet) = read_packet::<C>(octets) else {
        return Ok(None);
    };
    let image = image_of(heap, &packet)?;
    match data_of::<K>(&image, packet.header.pad) {
        Some(data) => Ok(Some(data.to_vec(heap)?)),
        None => Ok(None),
    }
}

// Whether a stream holds this serial and this message.
pub(crate) fn holds(stream: &[u8], serial: u32, message: &[u8]) -> bool
    ensures { result ≡ holding (split_of stream.now) serial message.now }
{
    split_stream(stream) == Some(Joined { serial, message })
}
