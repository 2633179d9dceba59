// Random offers and takings, held to a list of the keys that wait, of which the least is looked up at every taking.
use delays::Millis;
use heaps::{Entry, Heap};
use queues::{Queue, Slot, Table};
use std::process::Abort;
use std::test::Fail;

const EVENTS: usize = 40;

// The same line makes numbers in the tests and in the program that compares queues: it is too little for a crate.
fn next(seed: u32) -> u32 {
    seed.wrapping_mul(1664525).wrapping_add(1013904223)
}

// The least of the keys that wait.
fn least(waiting: &[Option<i64>]) -> Option<i64> {
    waiting.iter().flatten().copied().min()
}

fn offer_both<Q: Queue<Millis>>(
    rt: &impl Abort,
    queue: &mut Q,
    waiting: &mut [Option<i64>],
    event: u16,
    key: i64,
) {
    let at = event as usize;
    let accepted = queue.offer(event, Millis::of(key)).is_ok();
    assert_eq!(rt; accepted, at < waiting.len());
    if let Some(slot) = waiting.get_mut(at) {
        *slot = Some(slot.map_or(key, |old| old.min(key)));
    }
}

// Which of equal keys comes first is free, so the event is held to the key that it waited under.
fn take_both<Q: Queue<Millis>>(
    rt: &impl Abort,
    queue: &mut Q,
    waiting: &mut [Option<i64>],
) -> Result<bool, Fail> {
    match (queue.take(), least(waiting)) {
        (None, None) => Ok(false),
        (Some((event, taken)), Some(key)) => {
            let at = event as usize;
            assert_eq!(rt; taken, Millis::of(key));
            assert!(rt; at < waiting.len());
            assert_eq!(rt; waiting[at], Some(key));
            waiting[at] = None;
            Ok(true)
        }
        _ => Err(Fail::new("one of the two is empty")),
    }
}

// Keys from a range: few of them make many equal.
fn run<Q: Queue<Millis>>(
    rt: &impl Abort,
    queue: &mut Q,
    waiting: &mut [Option<i64>],
    start: u32,
    range: u32,
) -> Result<(), Fail> {
    let mut seed = start;
    let mut takings = 0u32;
    assert!(rt; range > 0);
    for _ in 0..3000u32 {
        seed = next(seed);
        let event = ((seed >> 8) % 43) as u16;
        let key = ((seed >> 12) % range) as i64 - 500;
        offer_both(rt, queue, waiting, event, key);
        if (seed >> 20) % 3 == 0 && take_both(rt, queue, waiting)? {
            takings = takings.wrapping_add(1);
        }
    }
    for _ in 0..EVENTS {
        if take_both(rt, queue, waiting)? {
            takings = takings.wrapping_add(1);
        }
    }
    assert!(rt; queue.take().is_none());
    assert!(rt; takings > 700);
    assert_eq!(rt; queue.count(), takings);
    queue.clear();
    assert_eq!(rt; queue.count(), 0);
    Ok(())
}

#[test]
fn heap_and_list(rt: HostRuntime) -> Result<(), Fail> {
    let mut entries = [Entry::new(); EVENTS];
    let mut queue = Heap::new(&mut entries);
    run(&rt, &mut queue, &mut [None; EVENTS], 1, 1000)?;
    run(&rt, &mut queue, &mut [None; EVENTS], 2, 5)
}

#[test]
fn table_and_list(rt: HostRuntime) -> Result<(), Fail> {
    let mut slots = [Slot::new(); EVENTS];
    let mut queue = Table::new(&mut slots);
    run(&rt, &mut queue, &mut [None; EVENTS], 3, 1000)?;
    run(&rt, &mut queue, &mut [None; EVENTS], 4, 5)
}
