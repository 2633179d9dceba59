// Capacities from none to past the largest, refusals, and what an emptied queue holds.
use delays::{Delay, Millis};
use heaps::{Entry, Heap};
use queues::{Queue, Slot, Table, sort_keys};
use std::process::Abort;
use std::test::Fail;

fn refused<Q: Queue<Millis>>(rt: &impl Abort, queue: &mut Q, event: u16) -> Result<(), Fail> {
    let Err(refusal) = queue.offer(event, Millis::of(5)) else {
        return Err(Fail::new("accepted"));
    };
    assert_eq!(rt; refusal.number(), 16);
    assert_eq!(rt; refusal.place(), 0);
    Ok(())
}

fn answers<Q: Queue<Millis>>(rt: &impl Abort, queue: &mut Q, event: u16, millis: i64) {
    assert_eq!(rt; queue.take(), Some((event, Millis::of(millis))));
}

fn no_events<Q: Queue<Millis>>(rt: &impl Abort, queue: &mut Q) -> Result<(), Fail> {
    assert_eq!(rt; queue.capacity(), 0);
    refused(rt, queue, 0)?;
    assert!(rt; queue.take().is_none());
    assert_eq!(rt; queue.count(), 0);
    Ok(())
}

#[test]
fn capacity_none(rt: HostRuntime) -> Result<(), Fail> {
    let mut entries: [Entry<Millis>; 0] = [Entry::new(); 0];
    let mut slots: [Slot<Millis>; 0] = [Slot::new(); 0];
    no_events(&rt, &mut Heap::new(&mut entries))?;
    no_events(&rt, &mut Table::new(&mut slots))
}

fn one_event<Q: Queue<Millis>>(rt: &impl Abort, queue: &mut Q) -> Result<(), Fail> {
    assert_eq!(rt; queue.capacity(), 1);
    refused(rt, queue, 1)?;
    assert!(rt; queue.offer(0, Millis::of(i64::MAX)).is_ok());
    assert!(rt; queue.offer(0, Millis::of(i64::MIN)).is_ok());
    assert!(rt; queue.offer(0, Millis::of(3)).is_ok());
    answers(rt, queue, 0, i64::MIN);
    assert_eq!(rt; queue.count(), 1);
    assert!(rt; queue.take().is_none());
    assert_eq!(rt; queue.count(), 1);
    assert!(rt; queue.offer(0, Millis::of(4)).is_ok());
    queue.clear();
    assert!(rt; queue.take().is_none());
    assert_eq!(rt; queue.count(), 0);
    Ok(())
}

#[test]
fn capacity_one(rt: HostRuntime) -> Result<(), Fail> {
    let mut entries = [Entry::new(); 1];
    let mut slots = [Slot::new(); 1];
    one_event(&rt, &mut Heap::new(&mut entries))?;
    one_event(&rt, &mut Table::new(&mut slots))
}

fn most_events<Q: Queue<Millis>>(rt: &impl Abort, queue: &mut Q) -> Result<(), Fail> {
    assert_eq!(rt; queue.capacity(), 65535);
    refused(rt, queue, 65535)?;
    assert!(rt; queue.offer(0, Millis::of(2)).is_ok());
    assert!(rt; queue.offer(65534, Millis::of(1)).is_ok());
    answers(rt, queue, 65534, 1);
    answers(rt, queue, 0, 2);
    Ok(())
}

#[test]
fn capacity_most(rt: HostRuntime) -> Result<(), Fail> {
    let mut entries = [Entry::new(); 65535];
    let mut slots = [Slot::new(); 65535];
    most_events(&rt, &mut Heap::new(&mut entries))?;
    most_events(&rt, &mut Table::new(&mut slots))
}

#[test]
fn capacity_past_most(rt: HostRuntime) -> Result<(), Fail> {
    let mut entries = [Entry::new(); 65540];
    let mut slots = [Slot::new(); 65540];
    most_events(&rt, &mut Heap::new(&mut entries))?;
    most_events(&rt, &mut Table::new(&mut slots))
}

// A queue made over entries that another one used is empty.
#[test]
fn entries_used_before(rt: HostRuntime) {
    let mut entries = [Entry::new(); 3];
    let mut heap = Heap::new(&mut entries);
    assert!(rt; heap.offer(2, Millis::of(1)).is_ok());
    assert!(rt; heap.offer(1, Millis::of(0)).is_ok());
    answers(&rt, &mut heap, 1, 0);
    let mut again = Heap::new(&mut entries);
    assert_eq!(rt; again.count(), 0);
    assert!(rt; again.take().is_none());
}

#[test]
fn sorts_where_there_is_room(rt: HostRuntime) -> Result<(), Fail> {
    let mut entries = [Entry::new(); 5];
    let mut heap = Heap::new(&mut entries);
    let mut keys = [3, -1, 3, 0, 9].map(Millis::of);
    assert!(rt; sort_keys(&mut heap, &mut keys).is_ok());
    assert_eq!(rt; keys, [-1, 0, 3, 3, 9].map(Millis::of));
    assert_eq!(rt; heap.count(), 5);
    let offered = [6, 5, 4, 3, 2, 1].map(Millis::of);
    let mut more = offered;
    let Err(refusal) = sort_keys(&mut heap, &mut more) else {
        return Err(Fail::new("accepted"));
    };
    assert_eq!(rt; refusal.number(), 12);
    assert_eq!(rt; more, offered);
    Ok(())
}
