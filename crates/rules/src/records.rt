// Numbers of rules, counted from 1; 0 is none.
pub type RuleNumber = u16;

// Numbers of events, counted from 0.
pub type EventNumber = u16;

// A rule `first → second limit`: the second event comes at most `limit` milliseconds after the first.
// "At least m after" is a rule with the events exchanged and the limit -m.
#[derive(Clone, Copy, PartialEq, Eq, Debug)]
pub struct Rule {
    pub number: RuleNumber,
    pub first: EventNumber,
    pub second: EventNumber,
    pub limit: i32,
}
