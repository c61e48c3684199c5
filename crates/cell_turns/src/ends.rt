//! A table with two hands, from its beginning to its end.
ghost use Rattle.std.specs.Prelude.{◌≡◌, ℕ, ◌<◌, ◌≤◌, ◌^◌, IfSome};
ghost use Rattle.cell_turns.specs.Crew.{IsIdle};

use crate::crew::{PARENTS, take_one};
use crate::job::{Job, Note};
use crate::starts::start;
use crate::turns::{put_home, send_own};
use one_shot_word::{Cells, Closed, Hand, Opened};
use sqlite_items::Items;
use std::alloc::Global;

/// A table of so many cells with two hands, unless there is no memory.
pub fn open_two(
    alloc: Global,
    n: u64,
) -> Option<
    (
        Cells<Job, Note, u64>,
        Hand<Job, Note, u64>,
        Hand<Job, Note, u64>,
    ),
>
    requires { (0 < n) × (n ≤ 1048576) }
    ensures idle { IfSome result (λ t. IsIdle t.0 t.1 × IsIdle t.0 t.2) }
    ensures may { IfSome result (λ t. t.1.seat.me.0.spent < t.1.seat.me.0.parts) }
    ensures both { IfSome result (λ t. t.2.seat.me.0.spent < t.2.seat.me.0.parts) }
    ensures two { IfSome result (λ t. t.0.table.shared.key.hands ≡ 2) }
{
    let Ok(Opened { cells, mut hands }) = Cells::<Job, Note, u64>::new(alloc, 7, 50, n, 2) else {
        return None;
    };
    let first = hands.pop()?;
    let second = hands.pop()?;
    Some((cells, first, second))
}

/// The task of a number sends on its own channel, a parcel with its number.
pub fn seed(cells: &Cells<Job, Note, u64>, hand: &mut Hand<Job, Note, u64>, number: u64)
    requires idle { IsIdle cells.now hand.old }
    requires small { number ≤ 2 ^ 60 }
    ensures { IsIdle cells.now hand.new }
{
    let Ok(job) = take_one(cells, hand, number) else {
        return
    };
    send_own(cells, hand, &job, number);
    put_home(cells, hand, job);
}

/// Begins so many numbers, and lets each child send on its own channel.
pub fn fill(cells: &Cells<Job, Note, u64>, hand: &mut Hand<Job, Note, u64>, n: u64) -> Option<()>
    requires idle { IsIdle cells.now hand.old }
    requires may { hand.old.seat.me.0.spent < hand.old.seat.me.0.parts }
    requires small { n ≤ 1048576 }
    ensures { IsIdle cells.now hand.new }
{
    begin_all(cells, hand, n)?;
    seed_all(cells, hand, n);
    Some(())
}

fn begin_all(cells: &Cells<Job, Note, u64>, hand: &mut Hand<Job, Note, u64>, n: u64) -> Option<()>
    requires idle { IsIdle cells.now hand.old }
    requires may { hand.old.seat.me.0.spent < hand.old.seat.me.0.parts }
    ensures { IsIdle cells.now hand.new }
{
    for _ in 0..n {
        start(cells, hand)?;
    }
    Some(())
}

fn seed_all(cells: &Cells<Job, Note, u64>, hand: &mut Hand<Job, Note, u64>, n: u64)
    requires idle { IsIdle cells.now hand.old }
    requires small { n ≤ 1048576 }
    ensures { IsIdle cells.now hand.new }
{
    for number in PARENTS..n {
        seed(cells, hand, number);
    }
}

/// Every load and parcel of a table with two hands, unless there is no memory.
pub fn close_two(
    alloc: Global,
    cells: Cells<Job, Note, u64>,
    first: Hand<Job, Note, u64>,
    second: Hand<Job, Note, u64>,
) -> Option<Closed<Job, Note>>
    requires idle { IsIdle cells first × IsIdle cells second }
    requires two { cells.table.shared.key.hands ≡ 2 }
{
    let mut hands = Items::new(alloc);
    let Ok(()) = hands.push(first) else {
        return None
    };
    let Ok(()) = hands.push(second) else {
        return None
    };
    match cells.close(hands) {
        Ok(closed) => Some(closed),
        Err(_) => None,
    }
}
