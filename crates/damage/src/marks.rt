// The marks of a hearing: records that come bad, and an altered octet.
ghost use Rattle.std.specs.Prelude.{◌≡◌, ℕ, ◌+◌, ◌<◌, ◌≤◌, true, false, length, Some, MatchOption, slice_set};
ghost use Rattle.packet.specs.declared.values.Quality.TheVariants.{Bad};
ghost use Rattle.packet.specs.Layout.{quality_number};
ghost use Rattle.damage.specs.Damage.{comes_bad, spoilt_from, altered_place, altered_by, counts, damaged};

use air::fate::{Alteration, Hearing};
use fragment::carrier::{Carrier, MOST_BLOCKS};
use packet::values::{BlockSet, Quality};
use packet::write::{RECORD_OCTETS, record_place};

// The most records of a packet.
const RECORDS: u8 = MOST_BLOCKS as u8;

// Whether record i comes bad: the set of the bad ones is written as a set of blocks is.
fn comes_bad(hearing: Hearing, i: u8) -> bool
    ensures { result ≡ comes_bad hearing i }
{
    BlockSet(hearing.bad).contains(i)
}

// The octet at a place, if it is there, becomes the quality of a bad record.
fn mark(octets: &mut [u8], place: usize)
    ensures { octets.new ≡ slice_set octets.old place (quality_number Bad) }
{
    // Behind `get_mut` a proof would lose the other octets.
    if place < octets.len() {
        octets[place] = u8::from(Quality::Bad);
    }
}

// The bad records are marked so.
fn spoil<C: Carrier>(octets: &mut [u8], hearing: Hearing)
    ensures { octets.new ≡ spoilt_from C.Carrier.terms.block hearing 16 0 octets.old }
{
    let size = C::block_size() as u8;
    // By number, since marks name records by number.
    for i in 0..RECORDS {
        if comes_bad(hearing, i) {
            mark(octets, record_place(size, i) + 2);
        }
    }
}

// The octet of a packet where an alteration lies, if the alteration counts.
fn counted_place<C: Carrier>(
    octets: &[u8],
    hearing: Hearing,
    alteration: Alteration,
) -> Option<usize>
    ensures { MatchOption result (counts C.Carrier.terms.block hearing octets.now alteration ≡ false) (λ place. (counts C.Carrier.terms.block hearing octets.now alteration ≡ true) × (place ≡ altered_place C.Carrier.terms.block alteration) × (place < length octets.now)) }
{
    let place = record_place(C::block_size() as u8, alteration.record)
        + RECORD_OCTETS
        + usize::from(alteration.place);
    let counts = usize::from(alteration.place) < C::block_size()
        && place < octets.len()
        && !comes_bad(hearing, alteration.record)
        && alteration.mask != 0;
    counts.then_some(place)
}

// The alteration is made if it counts.
fn alter<C: Carrier>(octets: &mut [u8], hearing: Hearing, alteration: Alteration)
    ensures { octets.new ≡ altered_by C.Carrier.terms.block hearing octets.old (Some alteration) }
{
    if let Some(place) = counted_place::<C>(octets, hearing, alteration) {
        octets[place] ^= alteration.mask;
    }
}

// The packet as it is heard.
pub fn damage<C: Carrier>(octets: &mut [u8], hearing: Hearing)
    ensures { octets.new ≡ damaged C.Carrier.terms.block hearing octets.old }
{
    spoil::<C>(octets, hearing);
    if let Some(alteration) = hearing.alteration {
        alter::<C>(octets, hearing, alteration);
    }
}
