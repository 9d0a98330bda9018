// A receiver with its message store, and the commands that drive it.
use check32::Check;
use fragment::carrier::Carrier;
use hex_digits::{Hex, octets_of};
use receiver::calls::message_in;
use receiver::receiver::Receiver;
use std::alloc::AllocError;

#[derive(Drop)]
pub(crate) struct Bench<C, K> {
    receiver: Receiver<C, K>,
    store: Vec<u8>,
}

// Carries out one command, and says what it came to.
pub(crate) fn act<C: Carrier + Drop, K: Check + Drop>(
    bench: &mut Option<Bench<C, K>>,
    command: &str,
    text: &mut String,
) -> Result<(), AllocError> {
    let (word, rest) = command.split_once(' ').unwrap_or((command, ""));
    match word {
        "new" => make(bench, rest, text),
        "packet" => give(bench, rest, 12, text),
        "short" => give(bench, rest, 9, text),
        "wait" => {
            if let Some(b) = bench {
                b.receiver.wait_over();
            }
            text.push_str("(wait over)\n")
        }
        _ => text.push_str("(unknown)\n"),
    }
}

// A missing or wrong figure counts as 0.
fn figure(word: Option<&str>) -> u32 {
    word.and_then(|w| w.parse().ok()).unwrap_or(0)
}

// A receiver at these addresses, each cut to its width, with a store of so many octets.
fn make<C: Carrier + Drop, K: Check + Drop>(
    bench: &mut Option<Bench<C, K>>,
    figures: &str,
    text: &mut String,
) -> Result<(), AllocError> {
    let mut words = figures.split(' ');
    let own = (figure(words.next()) & 0xffff) as u16;
    let peer = (figure(words.next()) & 0xffff) as u16;
    let octets = figure(words.next()) as usize;
    let store = vec![in *text.allocator(); 0; octets]?;
    match Receiver::new(own, peer, &store) {
        Ok(receiver) => {
            *bench = Some(Bench { receiver, store });
            text.push_str("(made)\n")
        }
        Err(fault) => write!(text, "(refused {fault})\n"),
    }
}

// Takes a packet with so much room for the response, and tells the response and the message that was handed up.
fn give<C: Carrier + Drop, K: Check + Drop>(
    bench: &mut Option<Bench<C, K>>,
    digits: &str,
    room: usize,
    text: &mut String,
) -> Result<(), AllocError> {
    let heap = *text.allocator();
    let Some(octets) = octets_of(heap, digits.as_bytes())? else {
        return text.push_str("(unreadable)\n");
    };
    let Some(Bench { receiver, store }) = bench else {
        return text.push_str("(no receiver)\n");
    };
    let mut response = vec![in heap; 170; room]?;
    match receiver.packet(store, &octets, &mut response) {
        Ok(heard) => {
            write!(text, "(response {}", Hex(&response))?;
            if let Some(up) = heard.up {
                write!(text, ") (up {} {}", up.serial, Hex(message_in(store, up)))?;
            }
            text.push_str(")\n")
        }
        Err(fault) => write!(text, "(refused {fault})\n"),
    }
}
