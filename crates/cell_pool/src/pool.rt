//! Retiring a cell, and giving it again.
ghost use Rattle.std.specs.Prelude.{◌≡◌, ℕ, ◌+◌, ◌^◌, ◌<◌, ◌≤◌, true, [], IfNone, IfSome};
ghost use Rattle.cell_rules.specs.Lists.{count};
ghost use Rattle.cell_rules.specs.Marks.{InHand, Right};
ghost use Rattle.cell_rules.specs.Asks.{IsNew};
ghost use Rattle.one_shot_word.specs.Meaning.{means};
ghost use Rattle.one_shot_word.specs.Seats.{size, IsAt, HasFree, MayRest};
ghost use Rattle.one_shot_word.specs.Calls.{RetiresReceived, RetiresEnded, Reopens};

use chan_base::Number;
use one_shot_word::{Cells, FreeCell, Hand, Load, Parcel, Retired};

/// One of the two finishers of a cell: the receiver of its channel, or the end of its task with its load.
pub fn retire<A, L: Load<A>, P: Parcel<A>>(
    cells: &Cells<L, P, A>,
    hand: &mut Hand<L, P, A>,
    number: Number,
    ended: Option<&L>,
) -> Retired
    requires hand { IsAt cells.now hand.old }
    requires small { number.0 + size cells.now ≤ 2 ^ 60 }
    requires received { IfNone ended (0 < count (Right number.0) hand.old.seat.me.0.marks) }
    requires ended { IfSome ended (λ load. (L.meaning.number load.now ≡ number.0) × (L.meaning.ended load.now ≡ true)) }
    requires has { IfSome ended (λ _. 0 < count (InHand number.0) hand.old.seat.me.0.marks) }
    requires rest { IfSome ended (λ load. MayRest (means L.meaning P.meaning) hand.old.seat.me.0 load.now) }
    ensures table { hand.new.seat.table_id ≡ hand.old.seat.table_id }
    ensures received { IfNone ended.entry (RetiresReceived (size cells.now) number.0 hand.old.seat.me.0 hand.new.seat.me result) }
    ensures ended { IfSome ended.entry (λ load. RetiresEnded (size cells.now) number.0 load.now hand.old.seat.me.0 hand.new.seat.me result) }
{
    match ended {
        None => cells.retire_received(hand, number),
        Some(load) => cells.retire_ended(hand, load),
    }
}

/// Gives a free cell again, with the first load of its next number.
pub fn reopen<A, L: Load<A>, P: Parcel<A>>(
    cells: &Cells<L, P, A>,
    hand: &mut Hand<L, P, A>,
    free: FreeCell,
    load: L,
) -> Number
    requires hand { IsAt cells.now hand.old }
    requires cell { (free.next.0 ≡ free.number.0 + size cells.now) × (free.next.0 ≤ 2 ^ 60) }
    requires free { HasFree hand.old.seat.me.0 free.number.0 }
    requires load { (L.meaning.number load ≡ free.next.0) × IsNew (means L.meaning P.meaning) hand.old.seat.me.0 load }
    ensures table { hand.new.seat.table_id ≡ hand.old.seat.table_id }
    ensures number { result ≡ free.next }
    ensures view { Reopens (size cells.now) free.number.0 (L.meaning.title load) hand.old.seat.me.0 hand.new.seat.me }
{
    cells.reopen(hand, free, load)
}
