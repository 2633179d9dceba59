// Offers and takings of a heap and of a table, at several sizes.
// Prints a checksum for each size, and whether the two queues answered alike; given the word `times`, also how long they took.

#![tactic(auto)]

use delays::{Count, Millis, Pair};
use heaps::{Entry, Heap};
use queues::{Queue, Slot, Table};
use std::time::Instant;
use std::{env, io};

type Key = Pair<Millis, Count>;

// The same line makes numbers in the tests and in the program that compares queues: it is too little for a crate.
fn next(seed: u32) -> u32 {
    seed.wrapping_mul(1664525).wrapping_add(1013904223)
}

fn key(seed: u32, event: u16) -> Key {
    Pair {
        first: Millis::of((seed >> 12) as i64),
        second: Count::of(event as i64),
    }
}

// Offers each event a key and then another, so that half of the second offers lower a key; answers the last seed.
fn offer_round<Q: Queue<Key>>(queue: &mut Q, events: u16, start: u32) -> u32 {
    let mut seed = start;
    for event in 0..events {
        seed = next(seed);
        let _ = queue.offer(event, key(seed, event));
    }
    for event in 0..events {
        seed = next(seed);
        let _ = queue.offer(event, key(seed, event));
    }
    seed
}

// Takes every event; what it answers depends on each of them and on their order.
fn take_round<Q: Queue<Key>>(queue: &mut Q, events: u16, start: u32) -> u32 {
    let mut sum = start;
    for _ in 0..events {
        if let Some((event, _)) = queue.take() {
            sum = sum.wrapping_mul(31).wrapping_add(event as u32);
        }
    }
    sum
}

fn rounds<Q: Queue<Key>>(queue: &mut Q, events: u16, times: u32) -> u32 {
    let mut sum = 7;
    for _ in 0..times {
        queue.clear();
        let seed = offer_round(queue, events, sum);
        sum = take_round(queue, events, seed);
    }
    sum
}

// The checksum of the rounds, and the nanoseconds for an event: two offers and a taking.
fn measured<Q: Queue<Key>>(
    rt: &HostRuntime,
    queue: &mut Q,
    events: u16,
    times: u32,
) -> io::Result<(u32, u128)> {
    let start = Instant::now(rt)?;
    let sum = rounds(queue, events, times);
    let nanos = start.elapsed(rt)?.as_nanos();
    let steps = (events as u128).saturating_mul(times as u128);
    Ok((sum, nanos.checked_div(steps).unwrap_or(0)))
}

fn compare(rt: &HostRuntime, events: u16, times: u32, timed: bool) -> io::Result<()> {
    let mut entries = [Entry::new(); 1024];
    let mut slots = [Slot::new(); 1024];
    let n = (events as usize).min(1024);
    let (by_heap, a) = measured(rt, &mut Heap::new(&mut entries[..n]), events, times)?;
    let (by_table, b) = measured(rt, &mut Table::new(&mut slots[..n]), events, times)?;
    if timed {
        eprintln!(rt; "{events} events: heap {a} ns, table {b} ns for two offers and a taking")?;
    }
    let alike = by_heap == by_table;
    println!(rt; "{events} events: {by_heap} {alike}")
}

fn main(rt: HostRuntime) -> io::Result<()> {
    let timed = env::args(&rt)?.count() > 1;
    let times = if timed { 200 } else { 2 };
    for events in [64, 256, 1024] {
        compare(&rt, events, times, timed)?;
    }
    Ok(())
}
