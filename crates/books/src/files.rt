ghost use Rattle.std.specs.Prelude.{◌≡◌, ℕ, ◌+◌, ◌^◌, ◌<◌, ◌≤◌, length, take, IfOk, Decides, MatchOption, OnOk};
ghost use Rattle.rules.specs.Questions.{Answered, outcome};
ghost use Rattle.books.specs.Opened.{file_of};
ghost use Rattle.books.specs.Layout.{mark, byte_at, u16_at, events_start, count_start, rule_start, name_start, part};
ghost use Rattle.books.specs.Files.{rule_from, book_of, name_of, HasName, Letter, Spelled, head_questions, name_questions, file_questions};

use crate::{Book, front};
use rules::bounds::{MAX_EVENTS, MAX_RULES};
use rules::{Refusal, Rule};

// The bytes that a file starts with.
pub const MARK: &[u8; 3] = b"FPD";

// The version of the format that is read.
pub const VERSION: u16 = 1;

const VERSION_START: usize = 3;

const EVENTS_START: usize = 5;

const COUNT_START: usize = 7;

const HEAD_SIZE: usize = 9;

const RULE_SIZE: usize = 10;

const MAX_NAME: u8 = 12;

const MIN_LETTER: u8 = 32;

const MAX_LETTER: u8 = 126;

// A book over the bytes of a file that passes questions 21 to 29.
#[derive(Clone, Copy)]
pub struct Packed<'a> {
    bytes: &'a [u8],
}

// The byte at a place, or 0 past the end.
fn byte(bytes: &[u8], at: usize) -> u8
    ensures { result ≡ byte_at bytes.now at }
{
    bytes.get(at).copied().unwrap_or(0)
}

// The number of 16 bits that starts at a place, high byte first.
fn word(bytes: &[u8], at: usize) -> u16
    requires { at < 1_000_000 }
    ensures { result ≡ u16_at bytes.now at }
{
    u16::from_be_bytes([byte(bytes, at), byte(bytes, at + 1)])
}

fn event_count(bytes: &[u8]) -> u16
    ensures { result ≡ u16_at bytes.now events_start }
{
    word(bytes, EVENTS_START)
}

fn rule_count(bytes: &[u8]) -> u16
    ensures { result ≡ u16_at bytes.now count_start }
{
    word(bytes, COUNT_START)
}

// Where the rule at a place starts.
fn start_of(place: u16) -> usize
    ensures { result ≡ rule_start place }
{
    HEAD_SIZE + RULE_SIZE * place as usize
}

// The rule whose bytes start at a place.
fn read_rule(bytes: &[u8], at: usize) -> Rule
    requires { at < 900_000 }
    ensures { result ≡ rule_from bytes.now at }
{
    let limit = i32::from_be_bytes([
        byte(bytes, at + 6),
        byte(bytes, at + 7),
        byte(bytes, at + 8),
        byte(bytes, at + 9),
    ]);
    Rule {
        number: word(bytes, at),
        first: word(bytes, at + 2),
        second: word(bytes, at + 4),
        limit,
    }
}

fn is_marked(bytes: &[u8]) -> bool
    ensures { Decides result (take 3 bytes.now ≡ mark) }
{
    bytes.starts_with(MARK)
}

// Puts questions 21 to 26.
fn check_head(bytes: &[u8]) -> Result<(), Refusal>
    ensures { Answered (head_questions bytes.now) (outcome result) }
{
    let length = bytes.len();
    if length < HEAD_SIZE {
        return Err(Refusal::FileShort(length));
    }
    if !is_marked(bytes) {
        return Err(Refusal::FileMark);
    }
    if word(bytes, VERSION_START) != VERSION {
        return Err(Refusal::FileVersion);
    }
    let events = event_count(bytes);
    if !(1..=MAX_EVENTS).contains(&events) {
        return Err(Refusal::FileEvents);
    }
    let count = rule_count(bytes);
    if count > MAX_RULES {
        return Err(Refusal::FileRules);
    }
    if start_of(count) > length {
        return Err(Refusal::FileCut(length));
    }
    Ok(())
}

// Whether a name is there whose length byte is at a place, with a lawful length.
fn has_name(bytes: &[u8], at: usize) -> bool
    requires { at ≤ length bytes.now }
    ensures { Decides result (HasName bytes.now at) }
{
    match bytes[at..].split_first() {
        Some((size, rest)) => *size <= MAX_NAME && *size as usize <= rest.len(),
        None => false,
    }
}

fn is_letter(byte: u8) -> bool
    ensures { Decides result (Letter byte) }
{
    (MIN_LETTER..=MAX_LETTER).contains(&byte)
}

// The part of the bytes that starts at a place and has so many bytes, as far as they go.
fn part_of(bytes: &[u8], start: usize, size: u8) -> &[u8]
    ensures { result.now ≡ part bytes.now start size }
{
    front(bytes.get(start..).unwrap_or(&[]), size as usize)
}

// The name whose length byte is at a place.
fn name_at(bytes: &[u8], at: usize) -> &[u8]
    requires { at < 2 ^ 63 }
    ensures { result.now ≡ part bytes.now (at + 1) (byte_at bytes.now at) }
{
    part_of(bytes, at + 1, byte(bytes, at))
}

// Puts questions 27 and 28 of the name whose length byte is at a place, and answers the place after the name.
fn check_name(bytes: &[u8], at: usize) -> Result<usize, Refusal>
    requires { at ≤ length bytes.now }
    ensures answer { Answered (name_questions bytes.now at) (outcome result) }
    ensures next { IfOk result (λ end. (end ≡ at + 1 + byte_at bytes.now at) × (end ≤ length bytes.now)) }
{
    if !has_name(bytes, at) {
        return Err(Refusal::NameCut(at));
    }
    let name = name_at(bytes, at);
    match name.iter().position(|byte| !is_letter(*byte)) {
        Some(before) => Err(Refusal::NameByte(at + 1 + before)),
        None => Ok(at + 1 + name.len()),
    }
}

// Where the length byte of an event's name stands.
fn start_of_name(bytes: &[u8], event: u16) -> usize
    ensures start { result ≡ name_start bytes.now event }
    ensures small { result ≤ 20_000_000 }
{
    let mut at = start_of(rule_count(bytes));
    for _ in 0..event {
        at += 1 + byte(bytes, at) as usize;
    }
    at
}

impl<'a> Packed<'a> {
    // The book of a file: refused at the first of questions 21 to 29 that is answered no.
    pub fn open(bytes: &'a [u8]) -> Result<Packed<'a>, Refusal>
        ensures answer { Answered (file_questions bytes.now) (outcome result) }
        ensures file { IfOk result (λ b. file_of b ≡ bytes.now) }
        ensures names { OnOk result ((event : ℕ) → event < u16_at bytes.now events_start → Spelled (name_of bytes.now event)) }
    {
        check_head(bytes)?;
        let mut at = start_of(rule_count(bytes));
        for _ in 0..event_count(bytes) {
            at = check_name(bytes, at)?;
        }
        if at != bytes.len() {
            return Err(Refusal::FileLong(at));
        }
        Ok(Packed { bytes })
    }

    // The name of an event, a part of the file's own bytes; none where the book has no such event.
    pub fn name(&self, event: u16) -> Option<&'a [u8]>
        ensures { MatchOption result (u16_at (file_of self.now) events_start ≤ event) (λ s. (event < u16_at (file_of self.now) events_start) × (s.now ≡ name_of (file_of self.now) event)) }
    {
        let bytes = self.bytes;
        if event < event_count(bytes) {
            Some(name_at(bytes, start_of_name(bytes, event)))
        } else {
            None
        }
    }
}

impl<'a> Book for Packed<'a> {
    ghost meaning = { λ b. book_of (file_of b) };

    fn events(&self) -> u16 {
        event_count(self.bytes)
    }

    fn count(&self) -> u16 {
        rule_count(self.bytes)
    }

    fn rule(&self, place: u16) -> Result<Rule, Refusal> {
        if place < self.count() {
            Ok(read_rule(self.bytes, start_of(place)))
        } else {
            Err(Refusal::PlacePast)
        }
    }
}
