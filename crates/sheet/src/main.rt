// Reads a packed book from standard input, and prints its events with their times, or the refusal.

#![tactic(auto)]

ghost use Rattle.std.specs.Prelude.{◌≡◌, IfOk};
ghost use Rattle.rules.specs.Questions.{Answered, load_outcome};
ghost use Rattle.books.specs.Opened.{file_of};
ghost use Rattle.sheet.specs.Reads.{read_questions};

use books::{Book, Packed, check};
use rules::Fault;
use rules::bounds::{MAX_EVENTS, MAX_RULES};
use settling::{Times, settle};
use std::io;
use std::io::{Read, Write};

mod settling;
#[cfg(test)]
mod tests;

// One byte past the longest lawful file: 9 bytes, 4,096 rules of 10, and 1,024 names of 12, each after a length byte.
const MOST_BYTES: u64 = 9 + 10 * MAX_RULES as u64 + 13 * MAX_EVENTS as u64 + 1;

// The book of a file: refused at the first no of questions 21 to 29 and then 1 to 6.
fn read_book(bytes: &[u8]) -> Result<Packed, Fault>
    ensures answer { Answered (read_questions bytes.now) (load_outcome result) }
    ensures file { IfOk result (λ b. file_of b ≡ bytes.now) }
{
    let book = Packed::open(bytes)?;
    check(&book)?;
    Ok(book)
}

// An event's line: its number, its time less event 0's, and its name if it has one.
fn write_event(out: &mut Vec<u8>, event: u16, time: i64, name: &[u8]) -> io::Result<()> {
    write!(out, "{event} {time}")?;
    if !name.is_empty() {
        out.write_all(b" ")?;
        out.write_all(name)?;
    }
    out.write_all(b"\n")
}

fn write_events(out: &mut Vec<u8>, book: &Packed, times: &Times) -> io::Result<()> {
    let events = book.events();
    let count = book.count();
    writeln!(out, "events {events} rules {count}")?;
    // A book is asked for names by number, and its events stand in no list.
    for event in 0..events {
        let time = times.of(event).saturating_sub(times.of(0));
        let name = book.name(event).unwrap_or(b"");
        write_event(out, event, time, name)?;
    }
    Ok(())
}

// The book of a file and its settled times.
fn settle_book(bytes: &[u8]) -> Result<(Packed, Times), Fault> {
    let book = read_book(bytes)?;
    let times = settle(&book)?;
    Ok((book, times))
}

// What is printed for the bytes of a file.
fn write_sheet(out: &mut Vec<u8>, bytes: &[u8]) -> io::Result<()> {
    match settle_book(bytes) {
        Ok((book, times)) => write_events(out, &book, &times),
        Err(fault) => writeln!(out, "refused {fault}"),
    }
}

fn main(rt: HostRuntime) -> io::Result<()> {
    let mut bytes = Vec::new(rt.alloc());
    let _ = rt.stdin().take(MOST_BYTES).read_to_end(&mut bytes)?;
    let mut out = Vec::new(rt.alloc());
    write_sheet(&mut out, &bytes)?;
    rt.stdout().write_all(&out)
}
