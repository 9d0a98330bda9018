// Writing and reading responses.
ghost use Rattle.std.specs.Prelude.{◌≡◌, ℕ, ◌+◌, ◌*◌, ◌<◌, ◌≤◌, length, MatchOption};
ghost use Rattle.packet.specs.Layout.{written};
ghost use Rattle.packet.specs.ReadBack.{ResponseReads};
ghost use Rattle.packet.specs.Refusals.{ResponseRefusals};
ghost use Rattle.packet.specs.Responses.{code_number, code_flags, code_of, response_octets, responded_of, response_from, response_of};

use crate::front::Front;
use crate::octets::put;
use crate::values::{BlockSet, Code, Kind, Response};
use crate::write::HEADER_OCTETS;
use fault::PacketFault;
use fragment::carrier::Carrier;

impl From<Code> for u8 {
    ghost from_gives = { λ code octet. octet ≡ code_number code };

    fn from(code: Code) -> u8 {
        match code {
            Code::Ack => 1,
            Code::AckSelective(_) => 2,
            Code::FullRetry => 3,
            Code::OutOfStep => 4,
        }
    }
}

impl Code {
    fn flags(self) -> u16
        ensures { result ≡ code_flags self }
    {
        match self {
            Code::AckSelective(set) => set.0,
            _ => 0,
        }
    }

    // The code with this number, and these flags if it has any.
    fn of(number: u8, flags: u16) -> Option<Code>
        ensures { MatchOption result ((1 ≤ number → 4 < number)) (λ code. (1 ≤ number) × (number ≤ 4) × (code ≡ code_of number flags)) }
    {
        match number {
            1 => Some(Code::Ack),
            2 => Some(Code::AckSelective(BlockSet(flags))),
            3 => Some(Code::FullRetry),
            4 => Some(Code::OutOfStep),
            _ => None,
        }
    }
}

impl Response {
    fn octets(self) -> [u8; 10]
        ensures { result ≡ response_octets self }
    {
        let front = Front {
            kind: Kind::Response,
            route: self.route,
            shape: u8::from(self.code),
            number: self.number,
            last: self.code.flags().to_be_bytes(),
        };
        front.octets()
    }
}

// Writes a response, and answers its length. A refusal leaves the buffer as it was.
pub fn write_response(response: Response, buffer: &mut [u8]) -> Result<usize, PacketFault>
    ensures value { written result buffer.new ≡ responded_of response buffer.old }
    ensures reads { ResponseReads response result buffer.new }
{
    if buffer.len() < HEADER_OCTETS {
        return Err(PacketFault::Buffer);
    }
    put(buffer, 0, &response.octets());
    Ok(HEADER_OCTETS)
}

// The response that ten octets give, or their lowest wrong field.
fn response_from<C: Carrier>(front: Front) -> Result<Response, PacketFault>
    ensures { result ≡ response_from C.Carrier.terms front }
{
    let flags = u16::from_be_bytes(front.last);
    let Some(code) = Code::of(front.shape, flags) else {
        return Err(PacketFault::Field(5));
    };
    if usize::from(front.number) >= C::fragment_limit() {
        return Err(PacketFault::Field(6));
    }
    // Only the code that asks for blocks has flags.
    if code.flags() != flags {
        return Err(PacketFault::Field(8));
    }
    Ok(Response {
        route: front.route,
        number: front.number,
        code,
    })
}

// Reads a response, or says where its lowest wrong field is.
pub fn read_response<C: Carrier>(octets: &[u8]) -> Result<Response, PacketFault>
    ensures value { result ≡ response_of C.Carrier.terms octets.now }
    ensures refusals { ResponseRefusals C.Carrier.terms octets.now result }
{
    let front = Front::read(octets, Kind::Response)?;
    let response = response_from::<C>(front)?;
    let length = octets.len();
    if length != HEADER_OCTETS {
        return Err(PacketFault::Length(length));
    }
    Ok(response)
}
