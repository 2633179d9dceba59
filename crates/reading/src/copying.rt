// The rules of a book, read into a list.
ghost use Rattle.std.specs.Prelude.{◌≡◌, ◌≤◌, ◌++◌, length, drop};

use books::{Book, known};
use rules::Rule;

// Writes the rules of a book at the start of a list, in order of place; the entries past them stay.
// The list is the caller's, since no call may allocate.
pub fn read_rules<B: Book>(book: &B, records: &mut [Rule])
    requires { length (B.Book.meaning book.now).rules ≤ length records.old }
    ensures { records.new ≡ (B.Book.meaning book.now).rules ++ drop (length (B.Book.meaning book.now).rules) records.old }
{
    // A book is asked by place.
    for place in 0..book.count() {
        records[place as usize] = known(book, place);
    }
}
