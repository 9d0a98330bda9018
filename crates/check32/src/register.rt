// A check that is a register of 32 bits, moved on octet by octet by a step that loses nothing: whatever the step, it keeps both laws.
ghost use Rattle.std.specs.Prelude.{◌≡◌, ℕ, ◌^◌, ◌<◌};
ghost use Rattle.std.specs.List.{fold};
ghost use Rattle.check32.specs.OneOctet.{Faithful, read_small, one-octet};

use crate::Check;
use std::marker::PhantomData;

// How a register moves on.
pub trait Step {
    // The register before the first octet.
    const START: u32;

    ghost START: { ℕ };

    ghost step: { ℕ → ℕ → ℕ };

    // The register after one more octet.
    fn next(register: u32, octet: u8) -> u32
        ensures { result ≡ step register octet };

    ghost fits: { START < 2 ^ 32 };

    ghost faithful: { Faithful step };
}

#[derive(Drop)]
pub struct Register<S> {
    value: u32,
    step: PhantomData<S>,
}

impl<S: Step> Check for Register<S> {
    ghost number = { fold S.step S.START };

    ghost after = { λ register. fold S.step register.value };

    ghost small = { read_small S.step S.faithful S.START S.fits };

    ghost single = { one-octet S.step S.faithful S.START S.fits };

    fn start() -> Register<S> {
        Register {
            value: S::START,
            step: PhantomData,
        }
    }

    fn update(&mut self, part: &[u8]) {
        self.value = part
            .iter()
            .fold(self.value, |value, octet| S::next(value, *octet));
    }

    fn finish(self) -> u32 {
        self.value
    }
}
