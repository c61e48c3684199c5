//! Two hands at once, with cells given again and stale numbers.
use cell_turns::{Done, Job, Note, both, close_two, fill, open_two};
use one_shot_word::Closed;
use sqlite_items::Items;
use std::process::Abort;
use std::test::Fail;

const TURNS: u64 = 50000;

#[test]
fn two_hands_make_a_hundred_thousand_calls(rt: HostRuntime) -> Result<(), Fail> {
    let Some((cells, mut mine, theirs)) = open_two(rt.alloc(), 64) else {
        panic!(rt; "no table")
    };
    let Some(()) = fill(&cells, &mut mine, 64) else {
        panic!(rt; "no number")
    };
    let ((mine, a), (theirs, b)) = both(&rt, &cells, mine, theirs, TURNS);
    let Some(closed) = close_two(rt.alloc(), cells, mine, theirs) else {
        panic!(rt; "no memory")
    };
    assert!(rt; a.received.wrapping_add(b.received) > 62 && a.stale > 0 && b.stale > 0);
    assert!(rt; each_parcel_came_once(&rt, &a, &b, &closed));
    assert!(rt; each_load_came_back(&rt, &a, &b, &closed));
    Ok(())
}

// Those that were received and those that `close` gave are all that were sent, each once.
fn each_parcel_came_once(
    rt: &(impl Abort + AllocGlobal),
    a: &Done,
    b: &Done,
    closed: &Closed<Job, Note>,
) -> bool {
    let mut serials = Vec::new(rt.alloc());
    for notes in [&a.notes, &b.notes, &closed.parcels] {
        for note in notes.as_slice() {
            put(rt, &mut serials, note.serial);
        }
    }
    let sent = a.sent.wrapping_add(b.sent).wrapping_add(62);
    are_distinct(&mut serials) && serials.len() as u64 == sent
}

// Those that `close` gave and those whose tasks ended are all that were begun, each once.
fn each_load_came_back(
    rt: &(impl Abort + AllocGlobal),
    a: &Done,
    b: &Done,
    closed: &Closed<Job, Note>,
) -> bool {
    let mut numbers = Vec::new(rt.alloc());
    for notes in [&a.notes, &b.notes] {
        for note in notes.as_slice() {
            put(rt, &mut numbers, note.channel.0);
        }
    }
    for load in closed.loads.as_slice() {
        put(rt, &mut numbers, load.number.0);
    }
    let begun = a.sent.wrapping_add(b.sent).wrapping_add(64);
    are_distinct(&mut numbers) && numbers.len() as u64 == begun
}

fn put(rt: &impl Abort, numbers: &mut Vec<u64>, number: u64) {
    let Ok(()) = numbers.push(number) else {
        panic!(rt; "no memory")
    };
}

fn are_distinct(numbers: &mut Vec<u64>) -> bool {
    numbers.as_mut_slice().sort_unstable();
    let mut before = None;
    for number in numbers.as_slice() {
        if before == Some(*number) {
            return false;
        }
        before = Some(*number);
    }
    true
}
