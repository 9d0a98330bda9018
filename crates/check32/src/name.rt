// The names of the checks, for code that is told by a word which one to run.
ghost use Rattle.check32.specs.Names.{ReadsCheck};

use std::str::FromStr;

#[derive(Clone, Copy, PartialEq, Eq, Debug)]
pub enum CheckName {
    Polynomial,
    Sum,
}

// The word names no check.
#[derive(Clone, Copy, PartialEq, Eq, Debug)]
pub struct UnknownCheck;

impl FromStr for CheckName {
    type Err = UnknownCheck;

    ghost from_str_gives = { ReadsCheck };

    fn from_str(word: &str) -> Result<CheckName, UnknownCheck> {
        match word {
            "poly" => Ok(CheckName::Polynomial),
            "sum" => Ok(CheckName::Sum),
            _ => Err(UnknownCheck),
        }
    }
}
