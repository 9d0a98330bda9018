// Which blocks a packet carries.
ghost use Rattle.std.specs.Prelude.{◌≡◌, ℕ, ◌/◌, ◌%◌, ◌^◌, length, ◌==◌, nat_lt};
ghost use Rattle.packet.specs.Blocks.{has, carries, carried, askable, fitting, is_selective};

use crate::values::{BlockSet, Blocks};
use fragment::carrier::Carrier;

// Whether 2^j is in the number of a set.
fn bit(flags: u16, j: u8) -> bool
    ensures { result ≡ (flags / 2 ^ j % 2 == 1) }
{
    j < 16 && (flags >> j) % 2 == 1
}

// Whether a set has no block past the last of so many.
fn within(flags: u16, blocks: u8) -> bool
    ensures { result ≡ nat_lt flags (2 ^ blocks) }
{
    blocks >= 16 || flags < 1 << blocks
}

impl BlockSet {
    // Whether it has block j.
    pub fn contains(self, j: u8) -> bool
        ensures { result ≡ has self j }
    {
        bit(self.0, j)
    }

    // Whether it can be asked for: some blocks, all of a fragment with so many, on a carrier that has selective retry.
    pub fn is_askable<C: Carrier>(self, blocks: u8) -> bool
        ensures { result ≡ askable C.Carrier.terms blocks self }
    {
        C::has_selective_retry() && self.0 != 0 && within(self.0, blocks)
    }
}

impl Blocks {
    pub(crate) fn carries(self, j: u8) -> bool
        ensures { result ≡ carries self j }
    {
        match self {
            Blocks::All => true,
            Blocks::Only(set) => set.contains(j),
        }
    }

    pub(crate) fn fit<C: Carrier>(self, blocks: u8) -> bool
        ensures { result ≡ fitting C.Carrier.terms blocks self }
    {
        match self {
            Blocks::All => true,
            Blocks::Only(set) => set.is_askable::<C>(blocks),
        }
    }

    pub(crate) fn is_selective(self) -> bool
        ensures { result ≡ is_selective self }
    {
        matches!(self, Blocks::Only(_))
    }

    // How many blocks it carries of a fragment with so many.
    pub(crate) fn count(self, blocks: u8) -> u8
        ensures { result ≡ length (carried self blocks) }
    {
        (0..blocks).filter(|j| self.carries(*j)).count() as u8
    }
}
