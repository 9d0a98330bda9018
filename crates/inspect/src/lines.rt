// The answer to each line.
ghost use Rattle.std.specs.Prelude.{◌≡◌, ◌<◌, ◌∷◌, ◌++◌, length, string_bytes, MatchOption, OnOk};
ghost use Rattle.inspect.specs.Lines.{refusal_words, octets_answer, line_answer, answers_from, lines_of};

use crate::packets::push_packet;
use crate::responses::push_response;
use fault::PacketFault;
use fragment::carrier::Carrier;
use hex_digits::octets_of;
use packet::read::read_packet;
use packet::response::read_response;
use packet::values::Kind;
use std::alloc::AllocError;

fn push_refusal(text: &mut String, line: usize, fault: PacketFault) -> Result<(), AllocError>
    ensures { OnOk result (string_bytes text.new ≡ string_bytes text.old ++ refusal_words line fault) }
{
    write!(text, "(refused {line} {fault})\n")
}

// Octets that begin as a response are read as one, all others as a packet.
fn push_octets<C: Carrier>(text: &mut String, line: usize, octets: &[u8]) -> Result<(), AllocError>
    ensures { OnOk result (string_bytes text.new ≡ string_bytes text.old ++ octets_answer C.Carrier.terms line octets.now) }
{
    if let [kind, ..] = octets
        && *kind == u8::from(Kind::Response)
    {
        match read_response::<C>(octets) {
            Ok(response) => push_response(text, response),
            Err(fault) => push_refusal(text, line, fault),
        }
    } else {
        match read_packet::<C>(octets) {
            Ok(packet) => push_packet(text, &packet),
            Err(fault) => push_refusal(text, line, fault),
        }
    }
}

fn push_line<C: Carrier>(text: &mut String, line: usize, digits: &[u8]) -> Result<(), AllocError>
    ensures { OnOk result (string_bytes text.new ≡ string_bytes text.old ++ line_answer C.Carrier.terms line digits.now) }
{
    match octets_of(*text.allocator(), digits)? {
        Some(octets) => push_octets::<C>(text, line, &octets),
        None => write!(text, "(unreadable {line})\n"),
    }
}

// The first line of a text, and what comes behind its line feed; none where the text is at its end.
fn first_line(text: &[u8]) -> Option<(&[u8], &[u8])>
    ensures { MatchOption result (length text.now ≡ 0) (λ parts. (lines_of text.now ≡ parts.0.now ∷ lines_of parts.1.now) × (length parts.1.now < length text.now)) }
{
    if text.is_empty() {
        return None;
    }
    match text.iter().position(|octet| *octet == b'\n') {
        Some(end) => Some((&text[..end], &text[end + 1..])),
        None => Some((text, &[])),
    }
}

// Appends the answer to each line of the input, the lines counted from 1.
pub(crate) fn push_lines<C: Carrier>(text: &mut String, input: &[u8]) -> Result<(), AllocError>
    ensures { OnOk result (string_bytes text.new ≡ string_bytes text.old ++ answers_from C.Carrier.terms 1 (lines_of input.now)) }
{
    // Over what is left: a `for` over the library's split and `enumerate` gets no proof in a generic function.
    let mut rest = input;
    let mut line = 1;
    while let Some((digits, more)) = first_line(rest) {
        push_line::<C>(text, line, digits)?;
        rest = more;
        line += 1;
    }
    Ok(())
}
