// Negative rings that a call was refused by.
ghost use Rattle.std.specs.Prelude.{Some};
ghost use Rattle.pricing.specs.Texts.{ring_text};

use std::error::Error;
use std::fmt;

// A negative ring of so many rules. Their numbers stand in order at the start of the list that was lent for them: no call allocates.
#[derive(Clone, Copy, Debug, PartialEq, Eq)]
pub struct Ring {
    pub size: usize,
}

impl fmt::Display for Ring {
    ghost output = { λ ring. Some (ring_text ring) };

    fn fmt<W: fmt::Write>(&self, f: &mut fmt::Formatter<W>) -> fmt::Result {
        write!(f, "a negative ring of {} rules", self.size)
    }
}

impl Error for Ring {}
