// Numbers in words.
ghost use Rattle.std.specs.Prelude.{Some};
ghost use Rattle.inspect.specs.Words.{listed};

use std::fmt;

// Numbers, each printed behind a space.
#[derive(Clone, Copy)]
pub(crate) struct Listed<'a>(pub &'a [u8]);

impl fmt::Display for Listed<'_> {
    ghost output = { λ numbers. Some (listed numbers.0.now) };

    fn fmt<W: fmt::Write>(&self, f: &mut fmt::Formatter<W>) -> fmt::Result {
        for &number in self.0 {
            write!(f, " {number}")?;
        }
        Ok(())
    }
}
