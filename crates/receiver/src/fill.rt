// What follows once the good blocks of a packet are in.
ghost use Rattle.std.specs.Prelude.{◌≡◌, ℕ, ◌+◌, ◌-◌, ◌*◌, ◌<◌, ◌≤◌, length, Some, None, MatchOption};
ghost use Rattle.packet.specs.Octets.{over};
ghost use Rattle.receiver.specs.Fill.{after, serial_in, completed, finished};

use crate::state::{Gathering, HandUp, Heard, Last, Phase, State};
use check32::{Check, number_of};
use fragment::carrier::Carrier;
use fragment::cutting::SERIAL_OCTETS;
use fragment::stream::split_stream;
use packet::values::{BlockSet, Code};

// The serial at the front of a message store.
fn serial_of(store: &[u8]) -> u32
    ensures { result ≡ serial_in store.now }
{
    split_stream(store).map_or(0, |joined| joined.serial)
}

// Octets go behind those that a message store holds: how many it holds then, or none where there is no room.
fn append(store: &mut [u8], filled: usize, octets: &[u8]) -> Option<usize>
    ensures { MatchOption result ((store.new ≡ store.old) × (length store.old < filled + length octets.now)) (λ n. (n ≡ filled + length octets.now) × (n ≤ length store.old) × (store.new ≡ over filled octets.now store.old)) }
{
    let end = filled
        .checked_add(octets.len())
        .filter(|end| *end <= store.len())?;
    store[filled..end].copy_from_slice(octets);
    Some(end)
}

impl Heard {
    pub(crate) fn only(code: Code) -> Heard
        ensures { result ≡ record { code = code; up = None } }
    {
        Heard { code, up: None }
    }
}

impl State {
    // The message is whole: it is handed up, unless it is one fragment and was handed up last.
    fn complete(&mut self, store: &[u8], filled: usize, check: u32, g: Gathering) -> Heard
        ensures { after self.new store.now result ≡ completed self.old store.now filled check g }
    {
        let last = Last {
            serial: serial_of(store),
            check,
        };
        self.phase = Phase::Done;
        self.filled = filled;
        if g.start && self.last == Some(last) {
            return Heard::only(Code::Ack);
        }
        self.last = Some(last);
        Heard {
            code: Code::Ack,
            up: Some(HandUp {
                serial: last.serial,
                place: SERIAL_OCTETS,
                length: filled.saturating_sub(SERIAL_OCTETS),
            }),
        }
    }

    // What follows once the good blocks of a packet for this fragment are in.
    pub(crate) fn finish<C: Carrier, K: Check>(&mut self, store: &mut [u8], g: Gathering) -> Heard
        requires { g.blocks ≤ 16 }
        ensures { after self.new store.new result ≡ finished C.Carrier.terms K.Check.number self.old store.old g }
    {
        let missing = self.blocks.missing(g.blocks);
        if missing != BlockSet(0) {
            if C::has_selective_retry() {
                return Heard::only(Code::AckSelective(missing));
            }
            self.idle();
            return Heard::only(Code::FullRetry);
        }
        let image = self.blocks.image::<C>(g.blocks);
        let check = image.check;
        if number_of::<K>(image.octets) != check {
            if C::has_selective_retry() {
                self.blocks.renew();
            } else {
                self.idle();
            }
            return Heard::only(Code::FullRetry);
        }
        let octets = image.octets.len().saturating_sub(usize::from(g.pad));
        let Some(filled) = append(store, self.filled, &image.octets[..octets]) else {
            self.idle();
            return Heard::only(Code::OutOfStep);
        };
        let last = g.number == 0;
        if last {
            return self.complete(store, filled, check, g);
        }
        self.phase = Phase::Waiting(g.number);
        self.filled = filled;
        Heard::only(Code::Ack)
    }
}
