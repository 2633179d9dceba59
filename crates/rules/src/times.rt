ghost use Rattle.std.specs.Prelude.{◌≡◌, Decides};
ghost use Rattle.rules.specs.Meets.{at, lead, Meets};

use crate::records::{EventNumber, Rule};

// The time of an event in a list of times; 0 past its end.
fn time_of(times: &[i64], event: EventNumber) -> i64
    ensures { result ≡ at times.now event }
{
    times.get(event as usize).copied().unwrap_or(0)
}

// The lead of the second event over the first. No two times are so far apart that it does not fit.
fn lead_of(times: &[i64], first: EventNumber, second: EventNumber) -> i128
    ensures { result ≡ lead (at times.now) first second }
{
    time_of(times, second) as i128 - time_of(times, first) as i128
}

// Whether the times meet every rule. An event past the list of times has time 0.
pub fn meets(rules: &[Rule], times: &[i64]) -> bool
    ensures { Decides result (Meets rules.now (at times.now)) }
{
    rules.iter().all(|rule| lead_of(times, rule.first, rule.second) <= rule.limit as i128)
}
