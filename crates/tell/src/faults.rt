// Why the text of a drill is refused, and at which line.
ghost use Rattle.std.specs.Prelude.{◌≡◌, Some};
ghost use Rattle.tell.specs.Faults.{drill_number, drill_layer, drill_place, drill_layer_name};
ghost use Rattle.tell.specs.declared.faults.DrillFault.TheVariants.{End};

use fault::{EndFault, Layer};
use std::fmt;

// The layer that refuses: one below the drill's text, or the text itself.
#[derive(Clone, Copy, PartialEq, Eq, Debug)]
pub enum DrillLayer {
    Below(Layer),
    Drill,
}

impl fmt::Display for DrillLayer {
    ghost output = { λ l. Some (drill_layer_name l) };

    fn fmt<W: fmt::Write>(&self, f: &mut fmt::Formatter<W>) -> fmt::Result {
        match self {
            Self::Below(layer) => layer.fmt(f),
            Self::Drill => f.write_str("drill"),
        }
    }
}

#[derive(Clone, Copy, PartialEq, Eq, Debug)]
pub enum DrillFault {
    // An end refuses what the line asks for.
    End(EndFault),
    // The line is not in the form that is due.
    Line,
}

// The line that is refused, counted from 1, or 0 for the whole text; and why.
#[derive(Clone, Copy, PartialEq, Eq, Debug)]
pub struct Refused {
    pub line: usize,
    pub fault: DrillFault,
}

// As an end's fault has them; no trait, since nothing is generic in a fault.
impl DrillFault {
    pub fn number(&self) -> u8
        ensures { result ≡ drill_number self.now }
    {
        match self {
            DrillFault::End(inner) => inner.number(),
            DrillFault::Line => 9,
        }
    }

    pub fn layer(&self) -> DrillLayer
        ensures { result ≡ drill_layer self.now }
    {
        match self {
            DrillFault::End(inner) => DrillLayer::Below(inner.layer()),
            DrillFault::Line => DrillLayer::Drill,
        }
    }

    pub fn place(&self) -> usize
        ensures { result ≡ drill_place self.now }
    {
        match self {
            DrillFault::End(inner) => inner.place(),
            DrillFault::Line => 0,
        }
    }
}

impl From<EndFault> for DrillFault {
    ghost from_gives = { λ fault r. r ≡ End fault };

    fn from(fault: EndFault) -> DrillFault {
        DrillFault::End(fault)
    }
}
