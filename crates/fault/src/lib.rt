// What a refusal is: the faults of the packet and the end layer, each with its number, layer and octet place.
#![tactic(auto)]

ghost use Rattle.std.specs.Prelude.{◌≡◌, Some, codes};
ghost use Rattle.fault.specs.Faults.{packet_number, packet_place, end_number, end_layer, end_place, layer_name, packet_text, end_text};
ghost use Rattle.fault.specs.declared.EndFault.TheVariants.{Packet};
ghost use Rattle.fault.specs.declared.Layer.TheVariants as layer;

use std::fmt;

// The layer that refuses: the octets of a packet or response, or an end that knows the pair and its state.
#[derive(Clone, Copy, PartialEq, Eq, Debug)]
pub enum Layer {
    Packet,
    End,
}

impl fmt::Display for Layer {
    ghost output = { λ l. Some (layer_name l) };

    fn fmt<W: fmt::Write>(&self, f: &mut fmt::Formatter<W>) -> fmt::Result {
        match self {
            Self::Packet => f.write_str("packet"),
            Self::End => f.write_str("end"),
        }
    }
}

// Why octets are no packet or response, or can't be written.
#[derive(Clone, Copy, PartialEq, Eq, Debug)]
pub enum PacketFault {
    // As many octets as these are no packet or response.
    Length(usize),
    // Octet 0 names another kind.
    Kind,
    // The lowest wrong field begins at this octet.
    Field(usize),
    // The lent buffer is too short for what is to be written.
    Buffer,
    // The lent message is not as long as the one that was started.
    Message,
}

// Why an end refuses a call.
#[derive(Clone, Copy, PartialEq, Eq, Debug)]
pub enum EndFault {
    Packet(PacketFault),
    // The message has no octet.
    Empty,
    // The message is longer than the carrier's greatest.
    TooLong,
    // The address at this octet is not of this pair.
    Address(usize),
    // The retry limit is above 15.
    Retries,
    // The message store has under 5 octets.
    Store,
    // The response is for a fragment with another number.
    Number,
    // The blocks asked for are none, not all of the fragment, or asked for on a carrier without selective retry.
    Blocks,
    // The last serial was used.
    SerialsUsed,
    // The selective packet does not fit the fragment that is being collected, from this octet on.
    Unfit(usize),
}

impl PacketFault {
    pub fn number(&self) -> u8
        ensures { result ≡ packet_number self.now }
    {
        match self {
            PacketFault::Length(_) => 3,
            PacketFault::Kind => 4,
            PacketFault::Field(_) => 5,
            PacketFault::Buffer | PacketFault::Message => 7,
        }
    }

    pub fn layer(&self) -> Layer
        ensures { result ≡ layer.Packet }
    {
        Layer::Packet
    }

    pub fn place(&self) -> usize
        ensures { result ≡ packet_place self.now }
    {
        match self {
            PacketFault::Length(length) => *length,
            PacketFault::Field(place) => *place,
            PacketFault::Kind | PacketFault::Buffer | PacketFault::Message => 0,
        }
    }
}

// As "3 packet 7": number, layer and place.
impl fmt::Display for PacketFault {
    ghost output = { λ fault. Some (packet_text fault) };

    fn fmt<W: fmt::Write>(&self, f: &mut fmt::Formatter<W>) -> fmt::Result {
        write!(f, "{} {} {}", self.number(), Layer::Packet, self.place())
    }
}

impl EndFault {
    pub fn number(&self) -> u8
        ensures { result ≡ end_number self.now }
    {
        match self {
            EndFault::Packet(inner) => inner.number(),
            EndFault::Empty => 1,
            EndFault::TooLong => 2,
            EndFault::Address(_) => 6,
            EndFault::Retries | EndFault::Store => 8,
            EndFault::Number => 10,
            EndFault::Blocks => 11,
            EndFault::SerialsUsed => 12,
            EndFault::Unfit(_) => 13,
        }
    }

    pub fn layer(&self) -> Layer
        ensures { result ≡ end_layer self.now }
    {
        match self {
            EndFault::Packet(inner) => inner.layer(),
            _ => Layer::End,
        }
    }

    pub fn place(&self) -> usize
        ensures { result ≡ end_place self.now }
    {
        match self {
            EndFault::Packet(inner) => inner.place(),
            EndFault::Address(place) | EndFault::Unfit(place) => *place,
            EndFault::Number => 6,
            EndFault::Blocks => 8,
            _ => 0,
        }
    }
}

// As "11 end 8".
impl fmt::Display for EndFault {
    ghost output = { λ fault. Some (end_text fault) };

    fn fmt<W: fmt::Write>(&self, f: &mut fmt::Formatter<W>) -> fmt::Result {
        write!(f, "{} {} {}", self.number(), self.layer(), self.place())
    }
}

impl From<PacketFault> for EndFault {
    ghost from_gives = { λ fault r. r ≡ Packet fault };

    fn from(fault: PacketFault) -> EndFault {
        EndFault::Packet(fault)
    }
}
