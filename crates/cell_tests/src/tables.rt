//! The tables of calls.
use crate::setting::{begun, is, table, taken};
use cell_turns::{
    MOST, put_home, receive, receive_again, receive_own, reopen_next, retire_ended,
    retire_received, send_own, send_to, take_one, take_parent,
};
use one_shot_word::{Found, Got, Retired, Sent, State};
use std::test::Fail;

#[test]
fn numbers_are_drawn_in_turn(rt: HostRuntime) -> Result<(), Fail> {
    let (cells, mut mine, _theirs) = table(&rt);
    let zero = begun(&rt, &cells, &mut mine);
    let one = begun(&rt, &cells, &mut mine);
    let full = cells.draw(&mut mine);
    assert!(rt; zero.0 == 0 && one.0 == 1);
    assert!(rt; matches!(full, Err(full) if full.count == 2));
    Ok(())
}

#[test]
fn a_load_is_taken_once(rt: HostRuntime) -> Result<(), Fail> {
    let (cells, mut mine, mut theirs) = table(&rt);
    let zero = begun(&rt, &cells, &mut mine);
    let job = taken(&rt, &cells, &mut mine, zero);
    let again = cells.take(&mut theirs, zero);
    assert!(rt; job.number == zero && matches!(again, Err(State::Running)));
    Ok(())
}

#[test]
fn a_parked_receiver_is_woken(rt: HostRuntime) -> Result<(), Fail> {
    let (cells, mut mine, mut theirs) = table(&rt);
    let zero = begun(&rt, &cells, &mut mine);
    let one = begun(&rt, &cells, &mut mine);
    let job = taken(&rt, &cells, &mut mine, zero);
    let Got::Parked = receive(&cells, &mut mine, one, job) else {
        panic!(rt; "not parked")
    };
    let job = taken(&rt, &cells, &mut theirs, one);
    let own = job.number;
    let sent = send_own(&cells, &mut theirs, &job, 7);
    assert!(rt; own == one && matches!(sent, Sent::Wakes(number) if number == zero));
    let job = taken(&rt, &cells, &mut mine, zero);
    let got = receive(&cells, &mut mine, one, job);
    assert!(rt; matches!(got, Got::Value(job, note) if job.number == zero && is(&note, one, 7)));
    Ok(())
}

#[test]
fn a_value_waits_for_its_receiver(rt: HostRuntime) -> Result<(), Fail> {
    let (cells, mut mine, mut theirs) = table(&rt);
    let zero = begun(&rt, &cells, &mut mine);
    let one = begun(&rt, &cells, &mut mine);
    let job = taken(&rt, &cells, &mut mine, zero);
    let sent = send_to(&cells, &mut mine, one, &job, 7);
    assert!(rt; matches!(sent, Sent::Left));
    let job = taken(&rt, &cells, &mut theirs, one);
    let got = receive_own(&cells, &mut theirs, job);
    assert!(rt; matches!(got, Got::Value(job, note) if job.number == one && is(&note, one, 7)));
    Ok(())
}

#[test]
fn a_second_send_is_misused(rt: HostRuntime) -> Result<(), Fail> {
    let (cells, mut mine, mut theirs) = table(&rt);
    let zero = begun(&rt, &cells, &mut mine);
    let one = begun(&rt, &cells, &mut mine);
    let job = taken(&rt, &cells, &mut mine, zero);
    let first = send_to(&cells, &mut mine, one, &job, 7);
    let job = taken(&rt, &cells, &mut theirs, one);
    let own = job.number;
    let second = send_own(&cells, &mut theirs, &job, 8);
    assert!(rt; own == one && matches!(first, Sent::Left));
    assert!(rt;
        matches!(second, Sent::Misused(note, Found::Claimed(by)) if is(&note, one, 8) && by == zero)
    );
    Ok(())
}

#[test]
fn a_second_receive_is_misused(rt: HostRuntime) -> Result<(), Fail> {
    let (cells, mut mine, mut theirs) = table(&rt);
    let zero = begun(&rt, &cells, &mut mine);
    let one = begun(&rt, &cells, &mut mine);
    let job = taken(&rt, &cells, &mut mine, zero);
    send_to(&cells, &mut mine, one, &job, 7);
    let job = taken(&rt, &cells, &mut theirs, one);
    let own = job.number;
    let Got::Value(job, _) = receive_own(&cells, &mut theirs, job) else {
        panic!(rt; "no value")
    };
    let again = receive_again(&cells, &mut theirs, own, job);
    assert!(rt; matches!(again, Got::Misused(job, Found::Done) if job.number == one));
    Ok(())
}

#[test]
fn one_receiver_is_parked_at_a_time(rt: HostRuntime) -> Result<(), Fail> {
    let (cells, mut mine, mut theirs) = table(&rt);
    let zero = begun(&rt, &cells, &mut mine);
    let one = begun(&rt, &cells, &mut mine);
    let job = taken(&rt, &cells, &mut mine, zero);
    let parked = receive(&cells, &mut mine, one, job);
    let job = taken(&rt, &cells, &mut theirs, one);
    let other = receive_own(&cells, &mut theirs, job);
    assert!(rt; matches!(parked, Got::Parked));
    assert!(rt;
        matches!(other, Got::Misused(job, Found::Parked(by)) if job.number == one && by == zero)
    );
    Ok(())
}

#[test]
fn the_end_frees_a_cell_that_was_received(rt: HostRuntime) -> Result<(), Fail> {
    let (cells, mut mine, mut theirs) = table(&rt);
    let zero = begun(&rt, &cells, &mut mine);
    let one = begun(&rt, &cells, &mut mine);
    let job = taken(&rt, &cells, &mut theirs, one);
    let own = job.number;
    send_own(&cells, &mut theirs, &job, 7);
    let Got::Value(job, note) = receive_own(&cells, &mut theirs, job) else {
        panic!(rt; "no value")
    };
    assert!(rt; own == one && own.0 <= MOST && is(&note, one, 7));
    let Retired::First = retire_received(&cells, &mut theirs, own, &job) else {
        panic!(rt; "not the first")
    };
    let Retired::Free(cell) = retire_ended(&cells, &mut theirs, job) else {
        panic!(rt; "not free")
    };
    assert!(rt; cell.number.0 == 1 && cell.next().0 == 3);
    let Some(parent) = take_parent(&cells, &mut theirs, zero.0, &cell) else {
        panic!(rt; "not ready")
    };
    let child = reopen_next(&cells, &mut theirs, cell, &parent);
    put_home(&cells, &mut theirs, parent);
    let stale = take_one(&cells, &mut theirs, 1);
    assert!(rt; child.0 == 3 && matches!(stale, Err(State::Reused(later)) if later.0 == 3));
    let parent = taken(&rt, &cells, &mut mine, zero);
    let sent = send_to(&cells, &mut mine, one, &parent, 8);
    assert!(rt;
        matches!(sent, Sent::Misused(note, Found::Reused(later)) if is(&note, one, 8) && later.0 == 3)
    );
    put_home(&cells, &mut mine, parent);
    let child = taken(&rt, &cells, &mut mine, child);
    assert!(rt; child.number.0 == 3);
    Ok(())
}

#[test]
fn the_receiver_frees_a_cell_whose_task_has_ended(rt: HostRuntime) -> Result<(), Fail> {
    let (cells, mut mine, mut theirs) = table(&rt);
    let zero = begun(&rt, &cells, &mut mine);
    let one = begun(&rt, &cells, &mut mine);
    let job = taken(&rt, &cells, &mut theirs, one);
    assert!(rt; job.number == one && job.number.0 <= MOST);
    send_own(&cells, &mut theirs, &job, 7);
    let Retired::First = retire_ended(&cells, &mut theirs, job) else {
        panic!(rt; "not the first")
    };
    let job = taken(&rt, &cells, &mut mine, zero);
    let Got::Value(job, note) = receive(&cells, &mut mine, one, job) else {
        panic!(rt; "no value")
    };
    assert!(rt; job.number == zero && one.0 <= MOST && is(&note, one, 7));
    let Retired::Free(cell) = retire_received(&cells, &mut mine, one, &job) else {
        panic!(rt; "not free")
    };
    assert!(rt; cell.number.0 == 1 && cell.next().0 == 3);
    Ok(())
}
