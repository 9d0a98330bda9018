// The 32-bit check as an interface with its one-octet law, and two checks that keep it, alike but for their step.
#![tactic(auto)]

ghost use Rattle.std.specs.Prelude.{◌≡◌, ℕ, ◌^◌, ◌<◌, List, [], ◌++◌, length, ◌≢◌, slice_index, slice_set};

mod name;
mod polynomial;
mod register;
mod sum;
mod table;

pub use name::{CheckName, UnknownCheck};
pub use polynomial::{Division, Polynomial};
pub use register::{Register, Step};
pub use sum::{Addition, Sum};

// A check reads octets part by part, and gives the number of all of them, wherever the parts end.
pub trait Check: Sized {
    // the number of a list of octets
    ghost number: { List ℕ → ℕ };

    // the number, if this list is still to come
    ghost after: { Self → List ℕ → ℕ };

    // A check that has read nothing.
    fn start() -> Self
        ensures { after result ≡ number };

    // Reads one part more.
    fn update(&mut self, part: &[u8])
        ensures { (l : List ℕ) → after self.new l ≡ after self.old (part.now ++ l) };

    // The number of all that was read.
    fn finish(self) -> u32
        ensures { result ≡ after self [] };

    // the number has 32 bits
    ghost small: { (xs : List ℕ) → number xs < 2 ^ 32 };

    // another octet in one place gives another number
    ghost single: { (xs : List ℕ) (i v : ℕ) → i < length xs → slice_index xs i < 256 → v < 256 → (v ≢ slice_index xs i) → number (slice_set xs i v) ≢ number xs };
}

// The number of octets that lie in one part.
pub fn number_of<K: Check>(octets: &[u8]) -> u32
    ensures { result ≡ K.Check.number octets.now }
{
    let mut check = K::start();
    check.update(octets);
    check.finish()
}
