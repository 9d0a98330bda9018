// Cutting: how many fragments a message makes, and each of them by its number.
ghost use Rattle.std.specs.Prelude.{◌≡◌, ℕ, ◌+◌, ◌-◌, ◌*◌, ◌<◌, ◌≤◌, ◌↔◌, IfOk, Ok, Err};
ghost use Rattle.fragment.specs.Counts.{capacity, Least};
ghost use Rattle.fragment.specs.Cutting.{fragments_of, greatest, fragment_at, piece_of};
ghost use Rattle.fragment.specs.Laws.{Cuts};
ghost use Rattle.fault.specs.declared.EndFault.TheVariants.{Empty, TooLong};
ghost use Rattle.std.specs.Option.{option_map};

use crate::carrier::{CHECK_OCTETS, Carrier, MOST_BLOCKS};
use crate::piece::Fragment;
use fault::EndFault;
use std::marker::PhantomData;

// The octets of a serial at the front of a stream.
pub const SERIAL_OCTETS: usize = 4;

// The most data octets of a fragment.
fn capacity_of<C: Carrier>() -> usize
    ensures { result ≡ capacity C.Carrier.terms }
{
    MOST_BLOCKS * C::block_size() - CHECK_OCTETS
}

// The number of fragments of a message with so many octets.
pub fn fragment_count<C: Carrier>(message: usize) -> Result<usize, EndFault>
    ensures value { result ≡ fragments_of C.Carrier.terms message }
    ensures least { IfOk result (λ count. Least (capacity C.Carrier.terms) (message + 4) count) }
    ensures empty { (result ≡ Err Empty) ↔ (message ≡ 0) }
    ensures long { (result ≡ Err TooLong) ↔ (greatest C.Carrier.terms < message) }
{
    if message == 0 {
        return Err(EndFault::Empty);
    }
    let capacity = capacity_of::<C>();
    if message > C::fragment_limit() * capacity - SERIAL_OCTETS {
        return Err(EndFault::TooLong);
    }
    // No count is above the limit here. Said again, the compiler sees it too, and has nothing to work out for a carrier of one fragment.
    Ok(
        (message + SERIAL_OCTETS)
            .div_ceil(capacity)
            .min(C::fragment_limit()),
    )
}

impl<C: Carrier> Fragment<C> {
    // Fragment `number` of a message with so many octets, or none where the message has no such fragment.
    pub fn cut(message: usize, number: u16) -> Option<Fragment<C>>
        ensures { option_map piece_of result ≡ fragment_at C.Carrier.terms message number }
    {
        let count = fragment_count::<C>(message).ok()?;
        let index = count.checked_sub(1 + usize::from(number))?;
        let capacity = capacity_of::<C>();
        let offset = index * capacity;
        let octets = capacity.min(message + SERIAL_OCTETS - offset);
        let blocks = C::blocks_for(octets)?;
        let block = C::block_size();
        let pad = blocks * block - octets - CHECK_OCTETS;
        Some(Fragment {
            message,
            number,
            start: index == 0,
            offset,
            octets,
            blocks,
            pad,
            block,
            carrier: PhantomData,
        })
    }
}

// Cutting loses nothing: for every carrier, joining a message's fragments gives back its serial and its octets.
pub fn cutting_stands<C: Carrier>()
    ensures { Cuts C.Carrier.terms }
{}
