// Airs: each, asked, answers the fate of one turn.
ghost use Rattle.std.specs.Prelude.{◌≡◌, ℕ};
ghost use Rattle.air.specs.declared.fate.Fate.{Fate};
ghost use Rattle.air.specs.Fates.{tail, clear, scheduled};

use crate::fate::{Fate, Hearing};
use crate::few::UpToThree;

pub trait Air {
    // The endless list of fates that it will answer.
    ghost fates: { Self → ℕ → Fate };

    // Answers the first of them, and goes on with the others.
    fn ask(&mut self) -> Fate
        ensures value { result ≡ fates self.old 0 }
        ensures rest { fates self.new ≡ tail (fates self.old) };
}

// Every turn goes through, and no wait runs out.
#[derive(Drop)]
pub struct Clear;

impl Air for Clear {
    ghost fates = { λ _ _. clear };

    fn ask(&mut self) -> Fate {
        Fate {
            wait: false,
            heard: UpToThree::One(Hearing {
                bad: 0,
                alteration: None,
                reply: true,
            }),
        }
    }
}

// A lent list of fates, and then no hearing and no wait.
#[derive(Drop)]
pub struct Schedule<'a> {
    // Those still to come.
    pub fates: &'a [Fate],
}

impl<'a> Schedule<'a> {
    pub fn new(fates: &'a [Fate]) -> Schedule<'a>
        ensures { result.fates.now ≡ fates.now }
    {
        Schedule { fates }
    }
}

impl<'a> Air for Schedule<'a> {
    ghost fates = { λ s. scheduled s.fates.now };

    fn ask(&mut self) -> Fate {
        match self.fates {
            [first, others @ ..] => {
                self.fates = others;
                *first
            }
            [] => Fate::SILENT,
        }
    }
}
