ghost use Rattle.std.specs.Prelude.{◌≡◌, ◌%◌, ◌<◌, ◌≤◌, [], length, take, ◌≤ℤ◌, Decides};
ghost use Rattle.rules.specs.Bounds.{max_rules, min_limit, max_limit};
ghost use Rattle.rules.specs.Questions.{Answered, outcome};
ghost use Rattle.links.specs.Links.{Linked};
ghost use Rattle.rules.specs.Places.{rule_at};
ghost use Rattle.books.specs.Checks.{Free, rule_questions, rules_questions, count_questions, book_questions};
ghost use Rattle.books.specs.Numbering.{remainders, remainder_of};

use crate::Book;
use links::{Links, link};
use rules::bounds::{MAX_EVENTS, MAX_LIMIT, MAX_RULES};
use rules::{Refusal, Rule, RuleNumber};

// Rules are linked by the remainders of their numbers, so that few places are looked at for each number.
const REMAINDERS: u16 = 4_096;

// The rule at a place that the book has.
pub fn known<B: Book>(book: &B, place: u16) -> Rule
    requires { place < length (B.Book.meaning book.now).rules }
    ensures { result ≡ rule_at (B.Book.meaning book.now).rules place }
{
    book.rule(place).unwrap()
}

// Whether none of the rules before a place bears the number.
fn is_free<B: Book>(book: &B, number: RuleNumber, place: u16, links: &Links) -> bool
    requires place { place ≤ length (B.Book.meaning book.now).rules }
    requires heads { length links.now.heads.now ≡ remainders }
    requires linked { Linked (remainder_of (B.Book.meaning book.now).rules) place links.now.heads.now links.now.nexts.now }
    ensures { Decides result (Free number (take place (B.Book.meaning book.now).rules)) }
{
    for earlier in links.places((number % REMAINDERS) as usize) {
        if known(book, earlier).number == number {
            return false;
        }
    }
    true
}

fn within_limits(limit: i32) -> bool
    ensures { Decides result ((min_limit ≤ℤ limit) × (limit ≤ℤ max_limit)) }
{
    (-MAX_LIMIT..=MAX_LIMIT).contains(&limit)
}

// Puts questions 3 to 6 of the rule at a place, beside the rules at the places before it.
fn check_rule<B: Book>(book: &B, place: u16, links: &Links) -> Result<(), Refusal>
    requires place { place < length (B.Book.meaning book.now).rules }
    requires heads { length links.now.heads.now ≡ remainders }
    requires linked { Linked (remainder_of (B.Book.meaning book.now).rules) place links.now.heads.now links.now.nexts.now }
    ensures { Answered (rule_questions (B.Book.meaning book.now).events place (take place (B.Book.meaning book.now).rules) (rule_at (B.Book.meaning book.now).rules place)) (outcome result) }
{
    let rule = known(book, place);
    if rule.number < 1 {
        return Err(Refusal::NumberZero(place));
    }
    let events = book.events();
    if rule.first >= events || rule.second >= events {
        return Err(Refusal::EventUnknown(place));
    }
    if !within_limits(rule.limit) {
        return Err(Refusal::LimitRange(place));
    }
    if !is_free(book, rule.number, place, links) {
        return Err(Refusal::NumberTaken(place));
    }
    Ok(())
}

// Puts questions 3 to 6 of each rule in order of place.
fn check_rules<B: Book>(book: &B) -> Result<(), Refusal>
    requires { length (B.Book.meaning book.now).rules ≤ max_rules }
    ensures { Answered (rules_questions (B.Book.meaning book.now).events [] (B.Book.meaning book.now).rules) (outcome result) }
{
    let mut heads = [None; REMAINDERS as usize];
    let mut nexts = [None; MAX_RULES as usize];
    // A book is asked by place.
    for place in 0..book.count() {
        let links = Links {
            heads: &heads,
            nexts: &nexts,
        };
        check_rule(book, place, &links)?;
        let remainder = known(book, place).number % REMAINDERS;
        link(&mut heads, &mut nexts, remainder as usize, place);
    }
    Ok(())
}

// Puts questions 1 and 2.
fn check_counts<B: Book>(book: &B) -> Result<(), Refusal>
    ensures { Answered (count_questions (B.Book.meaning book.now)) (outcome result) }
{
    let events = book.events();
    if !(1..=MAX_EVENTS).contains(&events) {
        return Err(Refusal::EventCount);
    }
    if book.count() > MAX_RULES {
        return Err(Refusal::RuleCount);
    }
    Ok(())
}

// Puts questions 1 to 6 to a book: refused at the first that is answered no, at its place.
pub fn check<B: Book>(book: &B) -> Result<(), Refusal>
    ensures { Answered (book_questions (B.Book.meaning book.now)) (outcome result) }
{
    check_counts(book)?;
    check_rules(book)
}
