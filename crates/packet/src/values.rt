// What packets and responses hold, as values.
ghost use Rattle.std.specs.Prelude.{◌≡◌};
ghost use Rattle.packet.specs.Layout.{kind_number, quality_number};
ghost use Rattle.packet.specs.Numbered.{Numbered};
ghost use Rattle.packet.specs.Reading.{first_of};
ghost use Rattle.packet.specs.Routes.{route_tests};

use fault::EndFault;

// Who sends and who is meant.
#[derive(Clone, Copy, PartialEq, Eq, Debug)]
pub struct Route {
    pub source: u16,
    pub destination: u16,
}

impl Route {
    // Whether what came by a route is from the peer of the end whose own route this is, and for that end.
    pub fn admit(self, came: Route) -> Result<(), EndFault>
        ensures { result ≡ first_of (route_tests self came) tt }
    {
        if came.source != self.destination {
            return Err(EndFault::Address(1));
        }
        if came.destination != self.source {
            return Err(EndFault::Address(3));
        }
        Ok(())
    }
}

// A set of blocks of a fragment: 2^j stands for block j.
#[derive(Clone, Copy, PartialEq, Eq, Debug)]
pub struct BlockSet(pub u16);

// The blocks of a fragment that a packet carries.
#[derive(Clone, Copy, PartialEq, Eq, Debug)]
pub enum Blocks {
    // A full packet: every block.
    All,
    // A selective packet: these blocks, ascending.
    Only(BlockSet),
}

// What octet 0 says a list of octets is.
#[derive(Clone, Copy, PartialEq, Eq, Debug)]
pub enum Kind {
    Packet,
    Response,
}

impl From<Kind> for u8 {
    ghost from_gives = { λ kind octet. octet ≡ kind_number kind };

    fn from(kind: Kind) -> u8 {
        match kind {
            Kind::Packet => 1,
            Kind::Response => 2,
        }
    }
}

impl TryFrom<u8> for Kind {
    type Error = UnknownOctet;

    ghost try_from_gives = { Numbered kind_number };

    fn try_from(octet: u8) -> Result<Kind, UnknownOctet> {
        match octet {
            1 => Ok(Kind::Packet),
            2 => Ok(Kind::Response),
            _ => Err(UnknownOctet(octet)),
        }
    }
}

// Whether a record's block came through the radio whole.
#[derive(Clone, Copy, PartialEq, Eq, Debug)]
pub enum Quality {
    Good,
    Bad,
}

impl From<Quality> for u8 {
    ghost from_gives = { λ quality octet. octet ≡ quality_number quality };

    fn from(quality: Quality) -> u8 {
        match quality {
            Quality::Good => 0,
            Quality::Bad => 1,
        }
    }
}

impl TryFrom<u8> for Quality {
    type Error = UnknownOctet;

    ghost try_from_gives = { Numbered quality_number };

    fn try_from(octet: u8) -> Result<Quality, UnknownOctet> {
        match octet {
            0 => Ok(Quality::Good),
            1 => Ok(Quality::Bad),
            _ => Err(UnknownOctet(octet)),
        }
    }
}

// An octet that is the number of no such value.
#[derive(Clone, Copy, PartialEq, Eq, Debug)]
pub struct UnknownOctet(pub u8);

// The header of a packet.
#[derive(Clone, Copy, PartialEq, Eq, Debug)]
pub struct Header {
    pub route: Route,
    // Whether the fragment is the first of its message.
    pub start: bool,
    // Whether the packet has only the blocks asked for.
    pub selective: bool,
    // N: how many fragments follow.
    pub number: u16,
    // k: its records.
    pub records: u8,
    // p: zero octets between the fragment's data and its check.
    pub pad: u8,
}

// What a receiver answers.
#[derive(Clone, Copy, PartialEq, Eq, Debug)]
pub enum Code {
    // The fragment is in.
    Ack,
    // These blocks are missing.
    AckSelective(BlockSet),
    // The whole fragment is wanted again.
    FullRetry,
    // The packet does not follow what the receiver holds.
    OutOfStep,
}

#[derive(Clone, Copy, PartialEq, Eq, Debug)]
pub struct Response {
    pub route: Route,
    // N of the packet that is answered.
    pub number: u16,
    pub code: Code,
}
