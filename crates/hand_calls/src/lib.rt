//! The calls of a hand, by what it has before and after: nothing in hand, or one load that tells all that it received.
#![tactic(auto)]

ghost use Rattle.std.specs.Prelude.{◌≡◌, ℕ, ◌+◌, ◌^◌, ◌≤◌, true, List, ◌∷◌, IfOk, IfErr};
ghost use Rattle.cell_rules.specs.Lists.{In};
ghost use Rattle.cell_rules.specs.Asks.{IsNew, KnowsParcel, Names};
ghost use Rattle.one_shot_word.specs.Meaning.{means};
ghost use Rattle.one_shot_word.specs.Seats.{size, IsAt};
ghost use Rattle.one_shot_word.specs.Calls as calls;
ghost use Rattle.hand_calls.specs.Moves.{HasLoad, HasRight, HasFree, StaysIdle, StaysHolding, TakesLoad, GoesHome};
ghost use Rattle.hand_calls.specs.Moves.{Receives, Retires, Ends, Reopens};

use cell_pool::{FreeCell, Retired};
use chan_base::Number;
use one_shot_word::{Cells, Got, Hand, Load, Parcel, Place, Sent, State};

/// Takes the load of a number that is READY.
pub fn take<A, L: Load<A>, P: Parcel<A>>(
    cells: &Cells<L, P, A>,
    hand: &mut Hand<L, P, A>,
    number: Number,
) -> Result<L, State>
    requires at { IsAt cells.now hand.old }
    requires small { number.0 ≤ 2 ^ 60 }
    requires forked { (load : L) (m : ℕ) → In m (L.meaning.forked load) → (title : List ℕ) × In (m, title) (L.meaning.mentions load) }
    requires received { (load : L) (m : ℕ) → In m (L.meaning.received load) → (title : List ℕ) × In (m, title) (L.meaning.mentions load) }
    ensures at { IsAt cells.now hand.new }
    ensures parts { hand.new.seat.me.0.parts ≡ hand.old.seat.me.0.parts }
    ensures ok { IfOk result (λ load. TakesLoad (means L.meaning P.meaning) cells.now number.0 load hand.old hand.new) }
    ensures taken { IfOk result (λ load. calls.Takes (means L.meaning P.meaning) (size cells.now) number.0 load hand.old.seat.me.0 hand.new.seat.me) }
    ensures missed { IfErr result (λ state. calls.NotReady (size cells.now) number.0 state hand.old.seat.me.0 hand.new.seat.me) }
    ensures more { (e : ℕ × List ℕ) → In e hand.old.seat.me.0.names → In e hand.new.seat.me.0.names }
    ensures err { IfErr result (λ _. StaysIdle (means L.meaning P.meaning) cells.now hand.old hand.new) }
{
    match cells.take(hand, number) {
        Ok(load) => Ok(load),
        Err(state) => Err(state),
    }
}

/// Puts the load in hand home.
pub fn home<A, L: Load<A>, P: Parcel<A>>(
    cells: &Cells<L, P, A>,
    hand: &mut Hand<L, P, A>,
    load: L,
    place: Place,
)
    requires at { IsAt cells.now hand.old }
    requires small { L.meaning.number load ≤ 2 ^ 60 }
    requires holds { HasLoad (means L.meaning P.meaning) cells.now load hand.old }
    ensures at { IsAt cells.now hand.new }
    ensures parts { hand.new.seat.me.0.parts ≡ hand.old.seat.me.0.parts }
    ensures stored { calls.GoesHome (size cells.now) place (L.meaning.number load) hand.old.seat.me.0 hand.new.seat.me }
    ensures home { GoesHome (means L.meaning P.meaning) cells.now load hand.old hand.new }
{
    cells.home(hand, load, place);
}

/// Sends by the load in hand.
pub fn send<A, L: Load<A>, P: Parcel<A>>(
    cells: &Cells<L, P, A>,
    hand: &mut Hand<L, P, A>,
    number: Number,
    parcel: P,
    by: &L,
) -> Sent<P>
    requires at { IsAt cells.now hand.old }
    requires small { L.meaning.number by.now ≤ 2 ^ 60 }
    requires number { (number.0 ≤ 2 ^ 60) × Names hand.old.seat.me.0 number.0 }
    requires parcel { (P.meaning.channel parcel ≡ number.0) × KnowsParcel (means L.meaning P.meaning) hand.old.seat.me.0 parcel }
    requires holds { HasLoad (means L.meaning P.meaning) cells.now by.now hand.old }
    ensures at { IsAt cells.now hand.new }
    ensures parts { hand.new.seat.me.0.parts ≡ hand.old.seat.me.0.parts }
    ensures sends { calls.Sends (size cells.now) number.0 (L.meaning.number by.now) hand.old.seat.me.0 hand.new.seat.me parcel result }
    ensures holds { StaysHolding (means L.meaning P.meaning) cells.now by.now hand.old hand.new }
    ensures names { hand.new.seat.me.0.names ≡ hand.old.seat.me.0.names }
{
    cells.send(hand, number, parcel, by.number())
}

/// Receives on a channel, or parks the load in hand there.
pub fn recv<A, L: Load<A>, P: Parcel<A>>(
    cells: &Cells<L, P, A>,
    hand: &mut Hand<L, P, A>,
    number: Number,
    load: L,
) -> Got<L, P>
    requires at { IsAt cells.now hand.old }
    requires small { L.meaning.number load ≤ 2 ^ 60 }
    requires number { (number.0 ≤ 2 ^ 60) × Names hand.old.seat.me.0 number.0 }
    requires holds { HasLoad (means L.meaning P.meaning) cells.now load hand.old }
    ensures at { IsAt cells.now hand.new }
    ensures parts { hand.new.seat.me.0.parts ≡ hand.old.seat.me.0.parts }
    ensures more { (e : ℕ × List ℕ) → In e hand.old.seat.me.0.names → In e hand.new.seat.me.0.names }
    ensures reads { calls.Receives (means L.meaning P.meaning) (size cells.now) number.0 hand.old.seat.me.0 hand.new.seat.me load result }
    ensures receives { Receives (means L.meaning P.meaning) cells.now load number.0 hand.old hand.new result }
{
    cells.recv(hand, number, load)
}

/// Retires the cell of a number that was received, with a load in hand.
pub fn retire_received<'a, A, L: Load<A>, P: Parcel<A>>(
    cells: &Cells<L, P, A>,
    hand: &mut Hand<L, P, A>,
    number: Number,
    load: &'a L,
) -> Retired
    requires at { IsAt cells.now hand.old }
    requires small { number.0 + size cells.now ≤ 2 ^ 60 }
    requires holds { HasRight (means L.meaning P.meaning) cells.now load.now number.0 hand.old }
    ensures at { IsAt cells.now hand.new }
    ensures parts { hand.new.seat.me.0.parts ≡ hand.old.seat.me.0.parts }
    ensures fetched { calls.RetiresReceived (size cells.now) number.0 hand.old.seat.me.0 hand.new.seat.me result }
    ensures retires { Retires (means L.meaning P.meaning) cells.now load.now number.0 hand.old hand.new result }
    ensures names { hand.new.seat.me.0.names ≡ hand.old.seat.me.0.names }
{
    let nobody: Option<&'a L> = None;
    cell_pool::retire(cells, hand, number, nobody)
}

/// Retires the cell of the ended load in hand, which is kept from then on.
pub fn retire_ended<A, L: Load<A>, P: Parcel<A>>(
    cells: &Cells<L, P, A>,
    hand: &mut Hand<L, P, A>,
    load: &L,
) -> Retired
    requires at { IsAt cells.now hand.old }
    requires small { L.meaning.number load.now + size cells.now ≤ 2 ^ 60 }
    requires ended { L.meaning.ended load.now ≡ true }
    requires holds { HasLoad (means L.meaning P.meaning) cells.now load.now hand.old }
    ensures at { IsAt cells.now hand.new }
    ensures parts { hand.new.seat.me.0.parts ≡ hand.old.seat.me.0.parts }
    ensures fetched { calls.RetiresEnded (size cells.now) (L.meaning.number load.now) load.now hand.old.seat.me.0 hand.new.seat.me result }
    ensures ends { Ends (means L.meaning P.meaning) cells.now load.now hand.old hand.new result }
{
    cell_pool::retire(cells, hand, load.number(), Some(load))
}

/// Gives a free cell again, with the load of its parent in hand.
pub fn reopen<A, L: Load<A>, P: Parcel<A>>(
    cells: &Cells<L, P, A>,
    hand: &mut Hand<L, P, A>,
    cell: FreeCell,
    load: L,
    parent: &L,
) -> Number
    requires at { IsAt cells.now hand.old }
    requires cell { (cell.next.0 ≡ cell.number.0 + size cells.now) × (cell.next.0 ≤ 2 ^ 60) }
    requires load { (L.meaning.number load ≡ cell.next.0) × IsNew (means L.meaning P.meaning) hand.old.seat.me.0 load }
    requires holds { HasFree (means L.meaning P.meaning) cells.now parent.now cell.number.0 hand.old }
    ensures at { IsAt cells.now hand.new }
    ensures parts { hand.new.seat.me.0.parts ≡ hand.old.seat.me.0.parts }
    ensures number { result ≡ cell.next }
    ensures names { In (cell.next.0, L.meaning.title load) hand.new.seat.me.0.names }
    ensures view { calls.Reopens (size cells.now) cell.number.0 (L.meaning.title load) hand.old.seat.me.0 hand.new.seat.me }
    ensures reopens { Reopens (means L.meaning P.meaning) cells.now parent.now cell.number.0 hand.old hand.new }
{
    cell_pool::reopen(cells, hand, cell, load)
}
