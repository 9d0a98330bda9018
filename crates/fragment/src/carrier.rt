// A carrier: the radio call that the packets ride on, with what it fixes.
ghost use Rattle.std.specs.Prelude.{◌≡◌, ℕ, ◌+◌, ◌-◌, ◌*◌, ◌<◌, ◌≤◌, Bool, true, false, refl, MatchOption};
ghost use Rattle.fragment.specs.Carriers.{Terms, Sound, data_call, voice_along_call};
ghost use Rattle.fragment.specs.Counts.{Least, blocks_for};
ghost use Rattle.std.proofs.Common.{rules};

use crate::table::data_call_blocks;

// The most blocks that a fragment has.
pub const MOST_BLOCKS: usize = 16;

// The octets of a check at the end of a fragment's image.
pub const CHECK_OCTETS: usize = 4;

// A carrier gives its constants and the rule of its block counts; generic code reads the constants by functions, which have promises.
pub trait Carrier {
    const BLOCK: usize;

    ghost BLOCK: { ℕ };

    const FRAGMENTS: usize;

    ghost FRAGMENTS: { ℕ };

    const SELECTIVE: bool;

    ghost SELECTIVE: { Bool };

    ghost terms: { Terms };

    // The blocks of a fragment with so many data octets, or none where a fragment can't hold them.
    fn blocks_for(octets: usize) -> Option<usize>
        ensures value { result ≡ blocks_for terms octets }
        ensures least { MatchOption result (16 * terms.block < octets + 4) (λ n. Least terms.block (octets + 4) n) };

    ghost sound: { Sound terms };

    ghost told: { terms ≡ record { block = BLOCK; most = FRAGMENTS; selective = SELECTIVE } };

    // Octets in a block.
    final fn block_size() -> usize
        ensures { result ≡ terms.block }
    {
        Self::BLOCK
    }

    // The greatest number of fragments.
    final fn fragment_limit() -> usize
        ensures { result ≡ terms.most }
    {
        Self::FRAGMENTS
    }

    // Whether single blocks can be asked for again.
    final fn has_selective_retry() -> bool
        ensures { result ≡ terms.selective }
    {
        Self::SELECTIVE
    }
}

#[derive(Clone, Copy)]
pub struct DataCall;

impl Carrier for DataCall {
    const BLOCK: usize = 20;

    ghost BLOCK = { 20 };

    const FRAGMENTS: usize = 512;

    ghost FRAGMENTS = { 512 };

    const SELECTIVE: bool = true;

    ghost SELECTIVE = { true };

    ghost terms = { data_call };

    ghost sound = { Prim.search rules };

    ghost told = { refl };

    fn blocks_for(octets: usize) -> Option<usize> {
        data_call_blocks(octets)
    }
}

#[derive(Clone, Copy)]
pub struct VoiceAlongCall;

impl Carrier for VoiceAlongCall {
    const BLOCK: usize = 8;

    ghost BLOCK = { 8 };

    const FRAGMENTS: usize = 1;

    ghost FRAGMENTS = { 1 };

    const SELECTIVE: bool = false;

    ghost SELECTIVE = { false };

    ghost terms = { voice_along_call };

    ghost sound = { Prim.search rules };

    ghost told = { refl };

    fn blocks_for(octets: usize) -> Option<usize> {
        if octets > MOST_BLOCKS * Self::BLOCK - CHECK_OCTETS {
            return None;
        }
        Some((octets + CHECK_OCTETS).div_ceil(Self::BLOCK))
    }
}
