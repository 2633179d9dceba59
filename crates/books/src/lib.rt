// Books of rules: what a book means, the two kinds there are, and the questions that every book is put.

#![tactic(auto)]

ghost use Rattle.std.specs.Prelude.{◌≡◌, length, take};
ghost use Rattle.books.specs.Contents.{BookContents, answer_at};

use rules::{Refusal, Rule};

pub mod checks;
pub mod files;
pub mod lists;

pub use checks::{check, known};
pub use files::Packed;
pub use lists::Listed;

// A book means an event count and a list of rules. Asking leaves it what it was.
// It may hold faulty rules: the calls that take a book check it.
pub trait Book {
    ghost meaning: { Self → BookContents };

    // How many events the book speaks of.
    fn events(&self) -> u16
        ensures { result ≡ (meaning self.now).events };

    // How many rules it has.
    fn count(&self) -> u16
        ensures { result ≡ length (meaning self.now).rules };

    // The rule at a place, or refusal 17.
    fn rule(&self, place: u16) -> Result<Rule, Refusal>
        ensures { result ≡ answer_at (meaning self.now).rules place };
}

// The first so many, or all where there are fewer.
fn front<T>(all: &[T], size: usize) -> &[T]
    ensures { result.now ≡ take size all.now }
{
    all.get(..size).unwrap_or(all)
}
