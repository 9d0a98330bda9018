// Cutting a message: the line of each packet, and what joining the packets gives.
ghost use Rattle.std.specs.Prelude.{◌≡◌, ◌++◌, length, string_bytes, vec_items, IfOk, OnOk};
ghost use Rattle.std.specs.Option.{option_map};
ghost use Rattle.fragment.specs.Cutting.{fragments_of};
ghost use Rattle.cut.specs.Lines.{packet_at, line_of, data_back, both};
ghost use Rattle.cut.specs.Outcomes.{lines_of, joined_of, outcome_of};

use crate::arguments::Order;
use crate::joining::{holds, packet_data};
use crate::outcome::Outcome;
use check32::Check;
use fragment::carrier::Carrier;
use fragment::cutting::fragment_count;
use fragment::piece::Fragment;
use hex_digits::Hex;
use packet::values::Blocks;
use packet::write::{LONGEST_PACKET, write_packet};
use std::alloc::{AllocError, Global};

// The full packet of fragment `number`, or none where the message has no such fragment.
fn packet_of<C: Carrier, K: Check>(
    heap: Global,
    order: Order,
    message: &[u8],
    number: u16,
) -> Result<Option<Vec<u8>>, AllocError>
    ensures { IfOk result (λ packet. option_map vec_items packet ≡ packet_at C.Carrier.terms K.Check.number order message.now number) }
{
    let Some(fragment) = Fragment::<C>::cut(message.len(), number) else {
        return Ok(None);
    };
    let mut packet = vec![in heap; 0; LONGEST_PACKET]?;
    let Ok(length) = write_packet::<C, K>(
        order.route,
        order.serial,
        &fragment,
        Blocks::All,
        message,
        &mut packet,
    ) else {
        return Ok(None);
    };
    packet.truncate(length);
    Ok(Some(packet))
}

// Writes the line of fragment `number`, and answers the data of its packet.
fn put_fragment<C: Carrier, K: Check>(
    order: Order,
    message: &[u8],
    number: u16,
    text: &mut String,
) -> Result<Option<Vec<u8>>, AllocError>
    ensures line { OnOk result (string_bytes text.new ≡ string_bytes text.old ++ line_of (packet_at C.Carrier.terms K.Check.number order message.now number)) }
    ensures value { IfOk result (λ joined. option_map vec_items joined ≡ data_back C.Carrier.terms K.Check.number (packet_at C.Carrier.terms K.Check.number order message.now number)) }
{
    let heap = *text.allocator();
    let Some(packet) = packet_of::<C, K>(heap, order, message, number)? else {
        return Ok(None);
    };
    write!(text, "{}\n", Hex(&packet))?;
    packet_data::<C, K>(heap, &packet)
}

// One piece of a stream behind another, or none where either is missing.
fn both(front: Option<Vec<u8>>, back: Option<Vec<u8>>) -> Result<Option<Vec<u8>>, AllocError>
    ensures { IfOk result (λ stream. option_map vec_items stream ≡ both (option_map vec_items front) (option_map vec_items back)) }
{
    let (Some(mut stream), Some(back)) = (front, back) else {
        return Ok(None);
    };
    stream.extend_from_slice(&back)?;
    Ok(Some(stream))
}

// What joining comes to: the stream, if each packet had data.
fn outcome_of(serial: u32, message: &[u8], stream: Option<&[u8]>) -> Outcome
    ensures { result ≡ joined_of serial message.now (option_map (λ s. s.now) stream.entry) }
{
    match stream {
        Some(stream) if holds(stream, serial, message) => Outcome::Joined(serial, message.len()),
        _ => Outcome::NotJoined,
    }
}

// Writes the line of each packet of a message, and answers what joining the packets comes to.
pub(crate) fn cut<C: Carrier, K: Check>(
    order: Order,
    message: &[u8],
    text: &mut String,
) -> Result<Outcome, AllocError>
    ensures lines { OnOk result (string_bytes text.new ≡ string_bytes text.old ++ lines_of C.Carrier.terms K.Check.number order message.now (fragments_of C.Carrier.terms (length message.now))) }
    ensures value { IfOk result (λ outcome. outcome ≡ outcome_of C.Carrier.terms K.Check.number order message.now (fragments_of C.Carrier.terms (length message.now))) }
{
    let count = match fragment_count::<C>(message.len()) {
        Ok(count) => count,
        Err(fault) => return Ok(Outcome::Refused(fault)),
    };
    let mut stream = Some(Vec::new(*text.allocator()));
    for number in (0..count as u16).rev() {
        let data = put_fragment::<C, K>(order, message, number, text)?;
        stream = both(stream, data)?;
    }
    Ok(outcome_of(order.serial, message, stream.as_deref()))
}
