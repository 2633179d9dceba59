// Packed files put together field by field.
use books::{Packed, check};
use rules::{Refusal, Rule};
use std::alloc::{AllocError, Global};

#[derive(Drop)]
pub struct File {
    pub bytes: Vec<u8>,
}

impl File {
    // The head of a file of version 1.
    pub fn new(heap: Global, events: u16, rules: u16) -> Result<File, AllocError> {
        let mut file = File {
            bytes: Vec::new(heap),
        };
        file.bytes.extend_from_slice(b"FPD")?;
        file.word(1)?;
        file.word(events)?;
        file.word(rules)?;
        Ok(file)
    }

    pub fn word(&mut self, number: u16) -> Result<(), AllocError> {
        self.bytes.extend_from_slice(&number.to_be_bytes())
    }

    pub fn rule(&mut self, rule: Rule) -> Result<(), AllocError> {
        self.word(rule.number)?;
        self.word(rule.first)?;
        self.word(rule.second)?;
        self.bytes.extend_from_slice(&rule.limit.to_be_bytes())
    }

    // A name after its length byte, or as long a part of it as that can tell.
    pub fn name(&mut self, name: &[u8]) -> Result<(), AllocError> {
        self.bytes
            .push(u8::try_from(name.len()).unwrap_or(u8::MAX))?;
        self.bytes.extend_from_slice(name)
    }

    pub fn nameless(&mut self, events: u16) -> Result<(), AllocError> {
        for _ in 0..events {
            self.bytes.push(0)?;
        }
        Ok(())
    }
}

pub const fn rule(number: u16, first: u16, second: u16, limit: i32) -> Rule {
    Rule {
        number,
        first,
        second,
        limit,
    }
}

// Accepted, or refused with the number and the place of a question.
pub type Answer = Result<(), (u8, usize)>;

// Number and place of a refusal.
pub fn told(refusal: Refusal) -> (u8, usize) {
    (refusal.number(), refusal.place())
}

// What questions 21 to 29 of a file and then 1 to 6 of its book lead to.
pub fn answer(bytes: &[u8]) -> Answer {
    let book = Packed::open(bytes).map_err(told)?;
    check(&book).map_err(told)
}
