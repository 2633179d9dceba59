// Settles a book that passed questions 1 to 6, by relaxing its rules until none is broken.
use books::{Book, known};
use rules::bounds::MAX_EVENTS;
use rules::{EventNumber, Refusal, Rule};

// An event's time in milliseconds, and the first event of the rule that lowered it last.
#[derive(Clone, Copy)]
struct Event {
    time: i64,
    lowered_from: Option<EventNumber>,
}

// A time for each event, in milliseconds.
#[derive(Clone, Copy)]
pub struct Times {
    all: [i64; MAX_EVENTS as usize],
}

impl Times {
    // The time of an event, or 0 past the last.
    pub fn of(&self, event: EventNumber) -> i64 {
        self.all.get(event as usize).copied().unwrap_or(0)
    }
}

// The events, their times on the way down from 0: an entry for each event that a book can have, since no call may allocate.
#[derive(Drop)]
struct Relaxed {
    events: [Event; MAX_EVENTS as usize],
}

impl Relaxed {
    fn new() -> Self {
        let event = Event {
            time: 0,
            lowered_from: None,
        };
        Relaxed {
            events: [event; MAX_EVENTS as usize],
        }
    }

    // The time of an event, or 0 past the last.
    fn time_of(&self, event: EventNumber) -> i64 {
        self.events
            .get(event as usize)
            .map_or(0, |event| event.time)
    }

    // The times alone.
    fn times(&self) -> Times {
        let mut all = [0; MAX_EVENTS as usize];
        for (time, event) in all.iter_mut().zip(self.events.iter()) {
            *time = event.time;
        }
        Times { all }
    }

    // Lowers the rule's second event if it comes too late; the event, if it was lowered.
    fn relax(&mut self, rule: Rule) -> Option<EventNumber> {
        let time = self.time_of(rule.first).saturating_add(rule.limit as i64);
        let event = self.events.get_mut(rule.second as usize)?;
        if event.time <= time {
            return None;
        }
        *event = Event {
            time,
            lowered_from: Some(rule.first),
        };
        Some(rule.second)
    }

    // Relaxes each rule of the book once; the event that was lowered last.
    fn pass<B: Book>(&mut self, book: &B) -> Option<EventNumber> {
        let mut lowered = None;
        // A book is asked by place.
        for place in 0..book.count() {
            lowered = self.relax(known(book, place)).or(lowered);
        }
        lowered
    }

    // The event that the rule which lowered an event last starts from.
    fn before(&self, event: EventNumber) -> EventNumber {
        self.events
            .get(event as usize)
            .and_then(|event| event.lowered_from)
            .unwrap_or(event)
    }

    // An event on the ring that is met on the way back from an event, in so many steps.
    fn on_ring(&self, event: EventNumber, steps: u16) -> EventNumber {
        (0..steps).fold(event, |at, _| self.before(at))
    }

    // The number of rules in the ring through an event.
    fn ring_size(&self, event: EventNumber) -> u16 {
        let mut at = event;
        for size in 1..=MAX_EVENTS {
            at = self.before(at);
            if at == event {
                return size;
            }
        }
        MAX_EVENTS
    }
}

// The settled times of the book's rules, or refusal 15 with the number of rules in a ring that cannot be kept.
//
// Before the first pass every event is at 0. A chain that visits no event twice has fewer rules than there are
// events, so after as many passes as events nothing is lowered any more, unless some ring is negative. Then the
// rules that lowered each event last, followed back for as many steps as there are events, lead onto such a ring.
pub fn settle<B: Book>(book: &B) -> Result<Times, Refusal> {
    let mut relaxed = Relaxed::new();
    let events = book.events();
    let mut lowered = None;
    for _ in 0..events {
        lowered = relaxed.pass(book);
        if lowered.is_none() {
            break;
        }
    }
    match lowered {
        None => Ok(relaxed.times()),
        Some(event) => Err(Refusal::Unmeetable(relaxed.ring_size(relaxed.on_ring(event, events)))),
    }
}
