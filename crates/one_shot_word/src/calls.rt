//! The calls that draw and begin, take and put home, retire and give again.
ghost use Rattle.std.specs.Prelude.{◌≡◌, ℕ, ◌+◌, ◌^◌, ◌<◌, ◌≤◌, true, [], IfOk, IfErr};
ghost use Rattle.cell_rules.specs.Lists.{count};
ghost use Rattle.cell_rules.specs.Marks.{Drawn as ToBegin, InHand, Right};
ghost use Rattle.cell_rules.specs.Asks.{IsNew};
ghost use Rattle.one_shot_word.specs.Meaning.{means};
ghost use Rattle.one_shot_word.specs.Seats.{size, IsAt, HasInHand, HasFree, MayRest};
ghost use Rattle.one_shot_word.specs.Calls.{Draws, Spends, Begins, Takes, NotReady, GoesHome, Retires, RetiresReceived, RetiresEnded, Reopens};

use crate::answers::{Drawn, FreeCell, Full, Place, Retired, State};
use crate::cells::Cells;
use crate::found::{state_of, word_of};
use crate::hand::Hand;
use crate::load::{Load, Parcel};
use cell_rules::ready;
use chan_base::Number;
use std::marker::Brand;

impl<A, L: Load<A>, P: Parcel<A>> Cells<L, P, A> {
    /// One fetch of the draw word.
    pub fn draw(&self, hand: &mut Hand<L, P, A>) -> Result<Drawn, Full>
        requires hand { IsAt self.now hand.old }
        requires may { hand.old.seat.me.0.spent < hand.old.seat.me.0.parts }
        ensures table { hand.new.seat.table_id ≡ hand.old.seat.table_id }
        ensures drawn { IfOk result (λ d. Draws (size self.now) d.number.0 hand.old.seat.me.0 hand.new.seat.me) }
        ensures full { IfErr result (λ f. Spends (size self.now) f.count hand.old.seat.me.0 hand.new.seat.me) }
    {
        let found = self.draw_step(&mut hand.seat);
        if found < self.cells {
            Ok(Drawn {
                number: Number(found),
            })
        } else {
            Err(Full { count: found })
        }
    }

    /// Stores the first load of a number that this hand drew.
    pub fn begin(&self, hand: &mut Hand<L, P, A>, drawn: Drawn, load: L) -> Number
        requires hand { IsAt self.now hand.old }
        requires drawn { (drawn.number.0 ≤ 2 ^ 60) × (0 < count (ToBegin drawn.number.0) hand.old.seat.me.0.marks) }
        requires load { (L.meaning.number load ≡ drawn.number.0) × IsNew (means L.meaning P.meaning) hand.old.seat.me.0 load }
        ensures table { hand.new.seat.table_id ≡ hand.old.seat.table_id }
        ensures number { result ≡ drawn.number }
        ensures view { Begins (size self.now) (L.meaning.title load) drawn.number.0 hand.old.seat.me.0 hand.new.seat.me }
    {
        let Drawn { number } = drawn;
        let seat = &mut hand.seat;
        self.open(seat, number.0);
        self.put_load(seat, number.0, load);
        self.begin_step(seat, number.0);
        number
    }

    /// One compare and exchange. The load comes exactly where it found READY of the number; else the state found.
    pub fn take(&self, hand: &mut Hand<L, P, A>, number: Number) -> Result<L, State>
        requires hand { IsAt self.now hand.old }
        requires small { number.0 ≤ 2 ^ 60 }
        ensures table { hand.new.seat.table_id ≡ hand.old.seat.table_id }
        ensures ok { IfOk result (λ load. Takes (means L.meaning P.meaning) (size self.now) number.0 load hand.old.seat.me.0 hand.new.seat.me) }
        ensures err { IfErr result (λ state. NotReady (size self.now) number.0 state hand.old.seat.me.0 hand.new.seat.me) }
    {
        let seat = &mut hand.seat;
        let found = self.take_step(seat, number.0);
        if found != ready(number.0) {
            return Err(state_of(number.0, found));
        }
        let load = self.pick_load(seat, number.0);
        self.settle(seat, number.0);
        Ok(load)
    }

    /// Stores a load that this hand has.
    pub fn home(&self, hand: &mut Hand<L, P, A>, load: L, place: Place)
        requires hand { IsAt self.now hand.old }
        requires has { HasInHand hand.old.seat.me.0 (L.meaning.number load) }
        requires load { MayRest (means L.meaning P.meaning) hand.old.seat.me.0 load }
        ensures table { hand.new.seat.table_id ≡ hand.old.seat.table_id }
        ensures view { GoesHome (size self.now) place (L.meaning.number load) hand.old.seat.me.0 hand.new.seat.me }
    {
        let number = load.number();
        let seat = &mut hand.seat;
        self.lift(seat, number.0);
        self.put_load(seat, number.0, load);
        self.leave(seat, number.0, word_of(place, number.0));
    }

    /// One fetch by the receiver of the channel: the cell is free exactly where the end came before.
    pub fn retire_received(&self, hand: &mut Hand<L, P, A>, number: Number) -> Retired
        requires hand { IsAt self.now hand.old }
        requires small { number.0 + size self.now ≤ 2 ^ 60 }
        requires right { 0 < count (Right number.0) hand.old.seat.me.0.marks }
        ensures table { hand.new.seat.table_id ≡ hand.old.seat.table_id }
        ensures retired { RetiresReceived (size self.now) number.0 hand.old.seat.me.0 hand.new.seat.me result }
    {
        let found = self.retire_step(&mut hand.seat, number.0);
        self.retired(number, found)
    }

    /// One fetch by the hand that has the load of an ended task: the cell is free exactly where the receiver came before.
    pub fn retire_ended(&self, hand: &mut Hand<L, P, A>, load: &L) -> Retired
        requires hand { IsAt self.now hand.old }
        requires small { L.meaning.number load.now + size self.now ≤ 2 ^ 60 }
        requires has { (0 < count (InHand (L.meaning.number load.now)) hand.old.seat.me.0.marks) × (L.meaning.ended load.now ≡ true) }
        requires load { MayRest (means L.meaning P.meaning) hand.old.seat.me.0 load.now }
        ensures table { hand.new.seat.table_id ≡ hand.old.seat.table_id }
        ensures retired { RetiresEnded (size self.now) (L.meaning.number load.now) load.now hand.old.seat.me.0 hand.new.seat.me result }
    {
        let number = load.number();
        let found = self.end_step::<Brand>(&mut hand.seat, number.0, load);
        self.retired(number, found)
    }

    // What a finisher that found this count is told.
    fn retired(&self, number: Number, found: u64) -> Retired
        requires { number.0 + size self.now ≤ 2 ^ 60 }
        ensures { Retires number.0 (size self.now) found result }
    {
        if found % 2 == 0 {
            Retired::First
        } else {
            Retired::Free(FreeCell {
                number,
                next: Number(number.0 + self.cells),
            })
        }
    }

    /// Gives a free cell again: clears its two words, and stores the first load of its next number.
    pub fn reopen(&self, hand: &mut Hand<L, P, A>, cell: FreeCell, load: L) -> Number
        requires hand { IsAt self.now hand.old }
        requires cell { (cell.next.0 ≡ cell.number.0 + size self.now) × (cell.next.0 ≤ 2 ^ 60) }
        requires free { HasFree hand.old.seat.me.0 cell.number.0 }
        requires load { (L.meaning.number load ≡ cell.next.0) × IsNew (means L.meaning P.meaning) hand.old.seat.me.0 load }
        ensures table { hand.new.seat.table_id ≡ hand.old.seat.table_id }
        ensures number { result ≡ cell.next }
        ensures view { Reopens (size self.now) cell.number.0 (L.meaning.title load) hand.old.seat.me.0 hand.new.seat.me }
    {
        let FreeCell { number, next } = cell;
        let seat = &mut hand.seat;
        self.clear_claim(seat, number.0);
        self.clear_chan(seat, number.0);
        self.raise(seat, number.0);
        self.put_load(seat, number.0, load);
        self.reopen_step(seat, number.0);
        next
    }
}
