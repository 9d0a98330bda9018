// The names of the carriers, for code that is told by a word which one to run.
ghost use Rattle.fragment.specs.Names.{ReadsCarrier};

use std::str::FromStr;

#[derive(Clone, Copy, PartialEq, Eq, Debug)]
pub enum CarrierName {
    Data,
    Voice,
}

// The word names no carrier.
#[derive(Clone, Copy, PartialEq, Eq, Debug)]
pub struct UnknownCarrier;

impl FromStr for CarrierName {
    type Err = UnknownCarrier;

    ghost from_str_gives = { ReadsCarrier };

    fn from_str(word: &str) -> Result<CarrierName, UnknownCarrier> {
        match word {
            "data" => Ok(CarrierName::Data),
            "voice" => Ok(CarrierName::Voice),
            _ => Err(UnknownCarrier),
        }
    }
}
