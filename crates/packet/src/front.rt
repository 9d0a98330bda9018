// The ten octets that packets and responses begin with, as fields.
ghost use Rattle.std.specs.Prelude.{◌≡◌, true, false, MatchOption};
ghost use Rattle.packet.specs.Layout.{flags_of};
ghost use Rattle.packet.specs.Reading.{flags_fit, is_start, is_selective, front_of};
ghost use Rattle.packet.specs.Responses.{front_octets};

use crate::values::{Kind, Route};
use fault::PacketFault;
use fragment::carrier::Carrier;

#[derive(Clone, Copy)]
pub(crate) struct Front {
    pub kind: Kind,
    pub route: Route,
    // Octet 5: a packet's flags, a response's code.
    pub shape: u8,
    // N.
    pub number: u16,
    // Octets 8 and 9.
    pub last: [u8; 2],
}

impl Front {
    // Refuses octets that are too few or of another kind; the fields are not tested.
    pub(crate) fn read(octets: &[u8], kind: Kind) -> Result<Front, PacketFault>
        ensures { result ≡ front_of kind octets.now }
    {
        let [
            first,
            from,
            from_low,
            to,
            to_low,
            shape,
            number,
            number_low,
            eighth,
            ninth,
            ..
        ] = *octets
        else {
            return Err(PacketFault::Length(octets.len()));
        };
        if first != u8::from(kind) {
            return Err(PacketFault::Kind);
        }
        Ok(Front {
            kind,
            route: Route {
                source: u16::from_be_bytes([from, from_low]),
                destination: u16::from_be_bytes([to, to_low]),
            },
            shape,
            number: u16::from_be_bytes([number, number_low]),
            last: [eighth, ninth],
        })
    }

    pub(crate) fn octets(self) -> [u8; 10]
        ensures { result ≡ front_octets self }
    {
        let kind = u8::from(self.kind);
        let [from, from_low] = self.route.source.to_be_bytes();
        let [to, to_low] = self.route.destination.to_be_bytes();
        let [number, number_low] = self.number.to_be_bytes();
        let [eighth, ninth] = self.last;
        [
            kind, from, from_low, to, to_low, self.shape, number, number_low, eighth, ninth,
        ]
    }
}

// A packet's flags.
#[derive(Clone, Copy)]
pub(crate) struct Flags {
    // Whether the fragment is the first of its message.
    pub start: bool,
    // Whether the packet has only the blocks asked for.
    pub selective: bool,
}

impl From<Flags> for u8 {
    ghost from_gives = { λ flags octet. octet ≡ flags_of flags.start flags.selective };

    fn from(flags: Flags) -> u8 {
        u8::from(flags.start) + 4 * u8::from(flags.selective)
    }
}

impl Flags {
    // The flags that an octet stands for. Without selective retry a packet is full and its fragment the first.
    pub(crate) fn of<C: Carrier>(octet: u8) -> Option<Flags>
        ensures { MatchOption result (flags_fit C.Carrier.terms.selective octet ≡ false) (λ flags. (flags_fit C.Carrier.terms.selective octet ≡ true) × (flags.start ≡ is_start octet) × (flags.selective ≡ is_selective octet)) }
    {
        let (start, selective) = match octet {
            0 => (false, false),
            1 => (true, false),
            4 => (false, true),
            5 => (true, true),
            _ => return None,
        };
        if !C::has_selective_retry() && octet != 1 {
            return None;
        }
        Some(Flags { start, selective })
    }
}
