ghost use Rattle.std.specs.Prelude.{◌≡◌};
ghost use Rattle.rules.specs.Refusals.{number_of, place_of};

// The first question that was answered no: one case for each question that a call can put.
// A case whose place varies carries it.
#[derive(Clone, Copy, PartialEq, Eq, Debug)]
pub enum Refusal {
    // 1: from 1 to 1,024 events
    EventCount,
    // 2: at most 4,096 rules
    RuleCount,
    // 3: a rule number of at least 1; the rule's place
    NumberZero(u16),
    // 4: both events below the event count; the rule's place
    EventUnknown(u16),
    // 5: a limit from -100,000,000 to 100,000,000; the rule's place
    LimitRange(u16),
    // 6: a number that is free; the rule's place
    NumberTaken(u16),
    // 7: events asked about below the event count
    EventPast,
    // 8: a bound B from 1 to 100,000,000
    BoundRange,
    // 9: every limit at least -2 B; the rule's place
    LimitBelow(u16),
    // 10: one cut mark for each rule
    CutCount,
    // 11: lists for writing with at least one entry for each event
    ListShort,
    // 12: a queue with a capacity of at least the event count
    QueueSmall,
    // 13: places in the plan for the rules to be stored
    PlanFull,
    // 14: a standing rule with that number
    NotStanding,
    // 15: rules that can be met together; the number of rules in the ring shown
    Unmeetable(u16),
    // 16: an offered event below the queue's capacity
    OfferPast,
    // 17: a place below the book's rule count
    PlacePast,
    // 21: a file of 9 bytes or more; its length
    FileShort(usize),
    // 22: a file that starts with the mark
    FileMark,
    // 23: a known version
    FileVersion,
    // 24: from 1 to 1,024 events in the file
    FileEvents,
    // 25: at most 4,096 rules in the file
    FileRules,
    // 26: a file that has all its rules; its length
    FileCut(usize),
    // 27: a name that is there, with a lawful length; its length byte's place
    NameCut(usize),
    // 28: bytes of names from 32 to 126; the byte's place
    NameByte(usize),
    // 29: a file that ends after its last name; the next byte's place
    FileLong(usize),
}

impl Refusal {
    // The number of the question that was answered no.
    pub fn number(self) -> u8
        ensures { result ≡ number_of self }
    {
        match self {
            Refusal::EventCount => 1,
            Refusal::RuleCount => 2,
            Refusal::NumberZero(_) => 3,
            Refusal::EventUnknown(_) => 4,
            Refusal::LimitRange(_) => 5,
            Refusal::NumberTaken(_) => 6,
            Refusal::EventPast => 7,
            Refusal::BoundRange => 8,
            Refusal::LimitBelow(_) => 9,
            Refusal::CutCount => 10,
            Refusal::ListShort => 11,
            Refusal::QueueSmall => 12,
            Refusal::PlanFull => 13,
            Refusal::NotStanding => 14,
            Refusal::Unmeetable(_) => 15,
            Refusal::OfferPast => 16,
            Refusal::PlacePast => 17,
            Refusal::FileShort(_) => 21,
            Refusal::FileMark => 22,
            Refusal::FileVersion => 23,
            Refusal::FileEvents => 24,
            Refusal::FileRules => 25,
            Refusal::FileCut(_) => 26,
            Refusal::NameCut(_) => 27,
            Refusal::NameByte(_) => 28,
            Refusal::FileLong(_) => 29,
        }
    }

    // Where in the book or the file that question was put, or 0.
    pub fn place(self) -> usize
        ensures { result ≡ place_of self }
    {
        match self {
            Refusal::NumberZero(place)
            | Refusal::EventUnknown(place)
            | Refusal::LimitRange(place)
            | Refusal::NumberTaken(place)
            | Refusal::LimitBelow(place)
            | Refusal::Unmeetable(place) => place as usize,
            Refusal::FileShort(place)
            | Refusal::FileCut(place)
            | Refusal::NameCut(place)
            | Refusal::NameByte(place)
            | Refusal::FileLong(place) => place,
            Refusal::FileVersion => 3,
            Refusal::FileEvents => 5,
            Refusal::FileRules => 7,
            Refusal::EventCount
            | Refusal::RuleCount
            | Refusal::EventPast
            | Refusal::BoundRange
            | Refusal::CutCount
            | Refusal::ListShort
            | Refusal::QueueSmall
            | Refusal::PlanFull
            | Refusal::NotStanding
            | Refusal::OfferPast
            | Refusal::PlacePast
            | Refusal::FileMark => 0,
        }
    }
}
