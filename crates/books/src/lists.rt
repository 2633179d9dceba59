ghost use Rattle.std.specs.Prelude.{◌≡◌, min, take};
ghost use Rattle.rules.specs.Bounds.{max_count};

use crate::Book;
use rules::{Refusal, Rule};

// A book over rule records handed over. It tells at most the first 65,535.
#[derive(Clone, Copy)]
pub struct Listed<'a> {
    pub events: u16,
    pub rules: &'a [Rule],
}

fn count_told(records: usize) -> u16
    ensures { result ≡ min max_count records }
{
    u16::try_from(records).unwrap_or(u16::MAX)
}

impl<'a> Book for Listed<'a> {
    ghost meaning = { λ b. record { events = b.events; rules = take max_count b.rules.now } };

    fn events(&self) -> u16 {
        self.events
    }

    fn count(&self) -> u16 {
        count_told(self.rules.len())
    }

    fn rule(&self, place: u16) -> Result<Rule, Refusal> {
        if place < self.count() {
            Ok(self.rules[place as usize])
        } else {
            Err(Refusal::PlacePast)
        }
    }
}
