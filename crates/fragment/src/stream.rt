// Streams: a serial and the message after it.
ghost use Rattle.std.specs.Prelude.{◌≡◌};
ghost use Rattle.fragment.specs.Streams.{split_of, joined_of};

use crate::cutting::SERIAL_OCTETS;

// What a joined stream holds.
#[derive(Clone, Copy, PartialEq, Eq, Debug)]
pub struct Joined<'a> {
    pub serial: u32,
    pub message: &'a [u8],
}

// The serial and the message of a stream, or none where it has no whole serial.
pub fn split_stream(stream: &[u8]) -> Option<Joined<'_>>
    ensures { joined_of result ≡ split_of stream.now }
{
    let (serial, message) = stream.split_first_chunk::<SERIAL_OCTETS>()?;
    Some(Joined {
        serial: u32::from_be_bytes(*serial),
        message,
    })
}
