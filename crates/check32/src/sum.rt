// The sum check: the octets added modulo 2^32.
ghost use Rattle.check32.specs.Addition.{add_step};
ghost use Rattle.check32.specs.Adding.{faithful-add};
ghost use Rattle.std.proofs.Common.{lit<};

use crate::register::{Register, Step};

// One octet is added.
#[derive(Clone, Copy)]
pub struct Addition;

pub type Sum = Register<Addition>;

impl Step for Addition {
    const START: u32 = 0;

    ghost START = { 0 };

    ghost step = { add_step };

    ghost fits = { lit< tt };

    ghost faithful = { faithful-add };

    fn next(register: u32, octet: u8) -> u32 {
        register.wrapping_add(u32::from(octet))
    }
}
