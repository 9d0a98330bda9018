// Layers over any air, which they ask once a turn.
ghost use Rattle.std.specs.Prelude.{◌≡◌, ℕ, ◌+◌};
ghost use Rattle.air.specs.declared.fate.Fate.{Fate};
ghost use Rattle.air.specs.Fates.{twice, repeated, faded};

use crate::airs::Air;
use crate::fate::{Fate, Hearings};
use crate::few::UpToThree;

// Each hearing twice in a row, the first three kept.
#[derive(Drop)]
pub struct Repeater<B> {
    pub below: B,
}

impl<B> Repeater<B> {
    pub fn new(below: B) -> Repeater<B>
        ensures { result.below ≡ below }
    {
        Repeater { below }
    }
}

fn doubled(heard: Hearings) -> Hearings
    ensures { result ≡ twice heard }
{
    match heard {
        UpToThree::Empty => UpToThree::Empty,
        UpToThree::One(a) => UpToThree::Two(a, a),
        UpToThree::Two(a, b) => UpToThree::Three(a, a, b),
        UpToThree::Three(a, b, _) => UpToThree::Three(a, a, b),
    }
}

impl<B: Air> Air for Repeater<B> {
    ghost fates = { λ s. repeated (B.Air.fates s.below) };

    fn ask(&mut self) -> Fate {
        let fate = self.below.ask();
        Fate {
            heard: doubled(fate.heard),
            ..fate
        }
    }
}

// No hearing in its turns from one number to another, counted from 1.
#[derive(Drop)]
pub struct Fade<B> {
    pub below: B,
    pub from: u32,
    pub to: u32,
    // How many of its turns are past; past `to` it does not matter.
    pub past: u32,
}

impl<B> Fade<B> {
    pub fn new(below: B, from: u32, to: u32) -> Fade<B>
        ensures below { result.below ≡ below }
        ensures from { result.from ≡ from }
        ensures to { result.to ≡ to }
        ensures past { result.past ≡ 0 }
    {
        Fade {
            below,
            from,
            to,
            past: 0,
        }
    }
}

impl<B: Air> Air for Fade<B> {
    ghost fates = { λ s. faded s.from s.to s.past (B.Air.fates s.below) };

    fn ask(&mut self) -> Fate {
        let fate = self.below.ask();
        if self.past >= self.to {
            return fate;
        }
        self.past += 1;
        if self.from <= self.past {
            Fate {
                heard: UpToThree::Empty,
                ..fate
            }
        } else {
            fate
        }
    }
}
