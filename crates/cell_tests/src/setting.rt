//! What the tests do again and again.
ghost use Rattle.std.specs.Prelude.{◌≡◌, ℕ, ◌^◌, ◌<◌, ◌≤◌, List, [], None};
ghost use Rattle.cell_rules.specs.Lists.{In};
ghost use Rattle.cell_turns.specs.Crew.{IsIdle, HoldsJob};

use cell_turns::{Job, Note, open_two, start, take_one};
use chan_base::Number;
use one_shot_word::{Cells, Hand};
use std::process::Abort;

pub type Table = Cells<Job, Note, u64>;

pub type Mine = Hand<Job, Note, u64>;

/// A table of two cells with two hands.
pub fn table(rt: &(impl Abort + AllocGlobal)) -> (Table, Mine, Mine)
    ensures idle { IsIdle result.0 result.1 × IsIdle result.0 result.2 }
    ensures may { result.1.seat.me.0.spent < result.1.seat.me.0.parts }
{
    let Some(opened) = open_two(rt.alloc(), 2) else {
        panic!(rt; "no table")
    };
    opened
}

/// The next number, begun.
pub fn begun(rt: &(impl Abort + AllocGlobal), cells: &Table, hand: &mut Mine) -> Number
    requires idle { IsIdle cells.now hand.old }
    requires may { hand.old.seat.me.0.spent < hand.old.seat.me.0.parts }
    ensures idle { IsIdle cells.now hand.new }
    ensures number { (result.0 ≤ 2 ^ 60) × In (result.0, []) hand.new.seat.me.0.names }
    ensures may { hand.new.seat.me.0.spent < hand.new.seat.me.0.parts }
    ensures more { (e : ℕ × List ℕ) → In e hand.old.seat.me.0.names → In e hand.new.seat.me.0.names }
{
    let Some(number) = start(cells, hand) else {
        panic!(rt; "no number")
    };
    number
}

/// The parcel is that of a channel, with this number of its own.
pub fn is(note: &Note, channel: Number, serial: u64) -> bool {
    note.channel == channel && note.serial == serial
}

/// The load of a number, which has received nothing.
pub fn taken(rt: &(impl Abort + AllocGlobal), cells: &Table, hand: &mut Mine, number: Number) -> Job
    requires idle { IsIdle cells.now hand.old }
    requires small { number.0 ≤ 2 ^ 60 }
    ensures holds { HoldsJob cells.now hand.new result }
    ensures new { result.got ≡ None }
    ensures more { (e : ℕ × List ℕ) → In e hand.old.seat.me.0.names → In e hand.new.seat.me.0.names }
{
    let Ok(job) = take_one(cells, hand, number.0) else {
        panic!(rt; "not ready")
    };
    assert!(rt; job.got.is_none() && job.number == number);
    job
}
