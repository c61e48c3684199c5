//! Forks and sends by a hand whose load tells them afterwards.
#![tactic(auto)]

ghost use Rattle.std.specs.Prelude.{◌≡◌, ℕ, ◌+◌, ◌^◌, ◌<◌, ◌≤◌, List, IfOk, IfErr};
ghost use Rattle.cell_rules.specs.Lists.{In};
ghost use Rattle.cell_rules.specs.Asks.{IsNew, KnowsParcel, Names};
ghost use Rattle.cell_rules.specs.declared.view.View.{View};
ghost use Rattle.one_shot_word.specs.Meaning.{means};
ghost use Rattle.one_shot_word.specs.Seats.{size, IsAt};
ghost use Rattle.one_shot_word.specs.Calls as calls;
ghost use Rattle.hand_calls.specs.Moves.{HasFree, HasLoad, StaysIdle, StaysHolding};
ghost use Rattle.hand_deeds.specs.Deeds.{Begins, IsDrawn, Reopens, Sends, Starts};

use chan_base::Number;
use one_shot_word::{Cells, Drawn, FreeCell, Full, Hand, Load, Parcel, Sent};

/// Draws a number.
pub fn draw<A, L: Load<A>, P: Parcel<A>>(
    cells: &Cells<L, P, A>,
    hand: &mut Hand<L, P, A>,
) -> Result<Drawn, Full>
    requires at { IsAt cells.now hand.old }
    requires may { hand.old.seat.me.0.spent < hand.old.seat.me.0.parts }
    ensures at { IsAt cells.now hand.new }
    ensures parts { hand.new.seat.me.0.parts ≡ hand.old.seat.me.0.parts }
    ensures drawn { IfOk result (λ d. (d.number.0 < size cells.now) × IsDrawn d.number.0 hand.old.seat.me.0 hand.new.seat.me.0) }
    ensures full { IfErr result (λ f. calls.Spends (size cells.now) f.count hand.old.seat.me.0 hand.new.seat.me) }
    ensures idle { IfErr result (λ _. StaysIdle (means L.meaning P.meaning) cells.now hand.old hand.new) }
    ensures holds { IfErr result (λ _. (load : L) → StaysHolding (means L.meaning P.meaning) cells.now load hand.old hand.new) }
{
    match cells.draw(hand) {
        Ok(drawn) => Ok(drawn),
        Err(full) => Err(full),
    }
}

/// Begins a number that was drawn, with the first load of its task.
pub fn begin<A, L: Load<A>, P: Parcel<A>>(
    cells: &Cells<L, P, A>,
    hand: &mut Hand<L, P, A>,
    drawn: Drawn,
    load: L,
) -> Number
    requires at { IsAt cells.now hand.old }
    requires drawn { (drawn.number.0 ≤ 2 ^ 60) × ((v : View L (A × ℕ)) × IsDrawn drawn.number.0 v hand.old.seat.me.0) }
    requires load { (L.meaning.number load ≡ drawn.number.0) × IsNew (means L.meaning P.meaning) hand.old.seat.me.0 load }
    ensures at { IsAt cells.now hand.new }
    ensures parts { hand.new.seat.me.0.parts ≡ hand.old.seat.me.0.parts }
    ensures spent { hand.new.seat.me.0.spent ≡ hand.old.seat.me.0.spent }
    ensures number { result ≡ drawn.number }
    ensures view { calls.Begins (size cells.now) (L.meaning.title load) drawn.number.0 hand.old.seat.me.0 hand.new.seat.me }
    ensures begins { Begins (means L.meaning P.meaning) cells.now drawn.number.0 (L.meaning.title load) hand.old hand.new }
    ensures starts { Starts (means L.meaning P.meaning) cells.now drawn.number.0 (L.meaning.title load) hand.old hand.new }
{
    cells.begin(hand, drawn, load)
}

/// Gives a free cell again, with the first load of its next task.
pub fn reopen<A, L: Load<A>, P: Parcel<A>>(
    cells: &Cells<L, P, A>,
    hand: &mut Hand<L, P, A>,
    cell: FreeCell,
    load: L,
) -> Number
    requires at { IsAt cells.now hand.old }
    requires cell { (cell.next.0 ≡ cell.number.0 + size cells.now) × (cell.next.0 ≤ 2 ^ 60) }
    requires load { (L.meaning.number load ≡ cell.next.0) × IsNew (means L.meaning P.meaning) hand.old.seat.me.0 load }
    requires holds { (before : L) × HasFree (means L.meaning P.meaning) cells.now before cell.number.0 hand.old }
    ensures at { IsAt cells.now hand.new }
    ensures parts { hand.new.seat.me.0.parts ≡ hand.old.seat.me.0.parts }
    ensures spent { hand.new.seat.me.0.spent ≡ hand.old.seat.me.0.spent }
    ensures number { result ≡ cell.next }
    ensures view { calls.Reopens (size cells.now) cell.number.0 (L.meaning.title load) hand.old.seat.me.0 hand.new.seat.me }
    ensures reopens { Reopens (means L.meaning P.meaning) cells.now cell.number.0 (L.meaning.title load) hand.old hand.new }
{
    cell_pool::reopen(cells, hand, cell, load)
}

/// Sends by the load in hand, whose number this is.
pub fn send<A, L: Load<A>, P: Parcel<A>>(
    cells: &Cells<L, P, A>,
    hand: &mut Hand<L, P, A>,
    number: Number,
    parcel: P,
    by: Number,
) -> Sent<P>
    requires at { IsAt cells.now hand.old }
    requires number { (number.0 ≤ 2 ^ 60) × Names hand.old.seat.me.0 number.0 }
    requires parcel { (P.meaning.channel parcel ≡ number.0) × KnowsParcel (means L.meaning P.meaning) hand.old.seat.me.0 parcel }
    requires by { by.0 ≤ 2 ^ 60 }
    requires holds { (before : L) × (L.meaning.number before ≡ by.0) × HasLoad (means L.meaning P.meaning) cells.now before hand.old }
    ensures at { IsAt cells.now hand.new }
    ensures parts { hand.new.seat.me.0.parts ≡ hand.old.seat.me.0.parts }
    ensures words { calls.Sends (size cells.now) number.0 by.0 hand.old.seat.me.0 hand.new.seat.me parcel result }
    ensures sends { Sends (means L.meaning P.meaning) cells.now number.0 hand.old hand.new result }
{
    cells.send(hand, number, parcel, by)
}
