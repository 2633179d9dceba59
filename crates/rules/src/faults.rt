ghost use Rattle.std.specs.Prelude.{◌≡◌, Some};
ghost use Rattle.rules.specs.Refusals.{number_of};
ghost use Rattle.rules.specs.Layers.{layer_of, layer_text, fault_text};

use crate::refusals::Refusal;
use std::fmt;

// What a load of a file was refused by: the file's bytes, the book that they hold, or the plan.
#[derive(Clone, Copy, PartialEq, Eq, Debug)]
pub enum Layer {
    File,
    Book,
    Plan,
}

// A layer's name.
impl fmt::Display for Layer {
    ghost output = { λ layer. Some (layer_text layer) };

    fn fmt<W: fmt::Write>(&self, f: &mut fmt::Formatter<W>) -> fmt::Result {
        match self {
            Layer::File => write!(f, "file"),
            Layer::Book => write!(f, "book"),
            Layer::Plan => write!(f, "plan"),
        }
    }
}

// A refusal of a load. Beside number and place it names its layer, which its number tells.
#[derive(Clone, Copy, PartialEq, Eq, Debug)]
pub struct Fault {
    pub refusal: Refusal,
}

impl Fault {
    // The layer of the question that was answered no.
    pub fn layer(self) -> Layer
        ensures { result ≡ layer_of (number_of self.refusal) }
    {
        match self.refusal.number() {
            21..=29 => Layer::File,
            1..=6 => Layer::Book,
            _ => Layer::Plan,
        }
    }
}

// Layer, number and place of a refusal.
impl fmt::Display for Fault {
    ghost output = { λ fault. Some (fault_text fault) };

    fn fmt<W: fmt::Write>(&self, f: &mut fmt::Formatter<W>) -> fmt::Result {
        let layer = self.layer();
        let number = self.refusal.number();
        let place = self.refusal.place();
        write!(f, "{layer} {number} {place}")
    }
}

impl From<Refusal> for Fault {
    ghost from_gives = { λ e f. f.refusal ≡ e };

    fn from(refusal: Refusal) -> Fault {
        Fault { refusal }
    }
}
