// Runs the polynomial check over vectors whose numbers are known from outside, and prints a line for each.
#![tactic(auto)]

ghost use Rattle.std.specs.Prelude.{◌≡◌, ℕ, ◌+◌, ◌*◌, ◌%◌, ◌<◌, IfOk, vec_len, codes, ◌≢◌, slice_index};

use check32::{Check, Polynomial, number_of};
use std::alloc::{AllocError, Global};
use std::io;

// So many octets, with their number: the first is given, and each next one is a step further, modulo 256.
struct Vector {
    name: &'static str,
    count: usize,
    first: u8,
    step: u8,
    expected: u32,
}

const VECTORS: [Vector; 7] = [
    Vector {
        name: "digits-1-to-9",
        count: 9,
        first: b'1',
        step: 1,
        expected: 0x0376_E6E7,
    },
    Vector {
        name: "empty",
        count: 0,
        first: 0,
        step: 0,
        expected: 0xFFFF_FFFF,
    },
    Vector {
        name: "one-octet-00",
        count: 1,
        first: 0,
        step: 0,
        expected: 0x4E08_BFB4,
    },
    Vector {
        name: "one-octet-ff",
        count: 1,
        first: 0xFF,
        step: 0,
        expected: 0xFFFF_FF00,
    },
    Vector {
        name: "octets-00-to-ff",
        count: 256,
        first: 0,
        step: 1,
        expected: 0x494A_116A,
    },
    Vector {
        name: "316-octets-ff",
        count: 316,
        first: 0xFF,
        step: 0,
        expected: 0x4FCB_1DA2,
    },
    Vector {
        name: "161792-octets-3-and-7-on",
        count: 161_792,
        first: 3,
        step: 7,
        expected: 0xB240_3485,
    },
];

fn main(rt: HostRuntime) -> io::Result<()> {
    for vector in &VECTORS {
        let octets = vector.octets(rt.alloc())?;
        let whole = number_of::<Polynomial>(&octets);
        let parted = number_in_parts::<Polynomial>(&octets);
        let name = vector.name;
        let verdict = verdict(whole, parted, vector.expected);
        println!(rt; "{name} {whole:08x} {verdict}")?;
    }
    Ok(())
}

impl Vector {
    fn octets(&self, heap: Global) -> Result<Vec<u8>, AllocError>
        ensures { IfOk result (λ v. (vec_len v ≡ self.now.count) × ((k : ℕ) → k < self.now.count → slice_index v.items k ≡ (self.now.first + k * self.now.step) % 256)) }
    {
        let mut octets = Vec::new(heap);
        let mut octet = self.first;
        // Each octet is made of the one before, so a chain over the count would multiply.
        for _ in 0..self.count {
            octets.push(octet)?;
            octet = octet.wrapping_add(self.step);
        }
        Ok(octets)
    }
}

// As `number_of`, from parts of one octet, two octets, three octets and so on.
fn number_in_parts<K: Check>(octets: &[u8]) -> u32
    ensures { result ≡ K.Check.number octets.now }
{
    let mut check = K::start();
    let mut rest = octets;
    let mut size = 1;
    while !rest.is_empty() {
        let (part, more) = rest.split_at(size.min(rest.len()));
        check.update(part);
        rest = more;
        size += 1;
    }
    check.finish()
}

// Right is the expected number, both of the whole and of the parts.
fn verdict(whole: u32, parted: u32, expected: u32) -> &'static str
    ensures right { whole ≡ expected → parted ≡ expected → result.now ≡ codes "ok" }
    ensures wrong { (whole ≡ expected → parted ≢ expected) → result.now ≡ codes "WRONG" }
{
    if whole == expected && parted == expected {
        "ok"
    } else {
        "WRONG"
    }
}
