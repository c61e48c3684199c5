//! The first load of a number.
ghost use Rattle.std.specs.Prelude.{◌≡◌, ℕ, ◌^◌, ◌<◌, ◌≤◌, List, [], IfSome};
ghost use Rattle.cell_rules.specs.Lists.{In};
ghost use Rattle.one_shot_word.specs.Seats.{size};
ghost use Rattle.cell_turns.specs.Crew.{IsIdle};

use crate::job::{Job, Note};
use chan_base::Number;
use one_shot_word::{Cells, Hand};

/// Draws a number and begins it.
pub fn start(cells: &Cells<Job, Note, u64>, hand: &mut Hand<Job, Note, u64>) -> Option<Number>
    requires idle { IsIdle cells.now hand.old }
    requires may { hand.old.seat.me.0.spent < hand.old.seat.me.0.parts }
    ensures idle { IsIdle cells.now hand.new }
    ensures some { IfSome result (λ n. (n.0 ≤ 2 ^ 60) × In (n.0, []) hand.new.seat.me.0.names) }
    ensures may { IfSome result (λ _. hand.new.seat.me.0.spent < hand.new.seat.me.0.parts) }
    ensures more { (e : ℕ × List ℕ) → In e hand.old.seat.me.0.names → In e hand.new.seat.me.0.names }
{
    let drawn = match cells.draw(hand) {
        Ok(drawn) => drawn,
        Err(_) => return None,
    };
    let number = drawn.number();
    cells.begin(hand, drawn, Job::first(number));
    Some(number)
}
