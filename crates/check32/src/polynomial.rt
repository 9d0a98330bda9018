// The polynomial check: generator 04C11DB7, register first all ones, high bit first, no inversion at the end.
ghost use Rattle.check32.specs.Division.{octet_step, all_ones};
ghost use Rattle.check32.specs.Register.{faithful-octet};
ghost use Rattle.std.proofs.Common.{lit<};

use crate::register::{Register, Step};
use crate::table::entry;

// One octet enters at the top of the register, and its eight bits leave.
#[derive(Clone, Copy)]
pub struct Division;

pub type Polynomial = Register<Division>;

impl Step for Division {
    const START: u32 = 0xFFFF_FFFF;

    ghost START = { all_ones };

    ghost step = { octet_step };

    ghost fits = { lit< tt };

    ghost faithful = { faithful-octet };

    // The lower three octets only move up, and the top one is replaced by its entry.
    fn next(register: u32, octet: u8) -> u32 {
        let top = (register >> 24) as u8;
        (register << 8) ^ entry(top ^ octet)
    }
}
