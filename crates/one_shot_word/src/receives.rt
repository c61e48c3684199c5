//! The calls that send and receive.
ghost use Rattle.std.specs.Prelude.{◌≡◌, ◌≢◌, ℕ, ◌^◌, ◌<◌, ◌≤◌, [], IfOk, IfErr};
ghost use Rattle.cell_rules.specs.Lists.{count, In};
ghost use Rattle.cell_rules.specs.Words.{EMPTY, FULL};
ghost use Rattle.cell_rules.specs.Marks.{InHand};
ghost use Rattle.cell_rules.specs.Asks.{Names, KnowsParcel};
ghost use Rattle.one_shot_word.specs.Meaning.{means};
ghost use Rattle.one_shot_word.specs.Seats.{size, IsAt, HasInHand, MayRest};
ghost use Rattle.one_shot_word.specs.Calls.{Sends, Collects, NotFull, Parks, BackAtFull, BackElse, Receives};

use crate::answers::{Got, Sent};
use crate::cells::Cells;
use crate::found::{found_in_channel, found_in_claim};
use crate::hand::Hand;
use crate::load::{Load, Parcel};
use cell_rules::{empty, free, full};
use chan_base::Number;
use std::marker::Brand;

impl<A, L: Load<A>, P: Parcel<A>> Cells<L, P, A> {
    /// Claims the channel, stores the parcel, and wakes the receiver that was parked there.
    pub fn send(&self, hand: &mut Hand<L, P, A>, number: Number, parcel: P, by: Number) -> Sent<P>
        requires hand { IsAt self.now hand.old }
        requires by { HasInHand hand.old.seat.me.0 by.0 }
        requires number { (number.0 ≤ 2 ^ 60) × Names hand.old.seat.me.0 number.0 }
        requires parcel { (P.meaning.channel parcel ≡ number.0) × KnowsParcel (means L.meaning P.meaning) hand.old.seat.me.0 parcel }
        ensures table { hand.new.seat.table_id ≡ hand.old.seat.table_id }
        ensures sends { Sends (size self.now) number.0 by.0 hand.old.seat.me.0 hand.new.seat.me parcel result }
    {
        let seat = &mut hand.seat;
        let found = self.claim_step(seat, number.0, by.0);
        if found != free(number.0) {
            return Sent::Misused(parcel, found_in_claim(found));
        }
        self.put_parcel(seat, number.0, parcel);
        let found = self.send_step(seat, number.0);
        if found % 4 != 3 {
            return Sent::Left;
        }
        let woken = found / 4;
        self.wake(seat, woken);
        Sent::Wakes(Number(woken))
    }

    // The parcel of a channel that is FULL; else the word found, which isn't EMPTY where something was sent.
    pub(crate) fn collect(&self, hand: &mut Hand<L, P, A>, number: u64, by: u64) -> Result<P, u64>
        requires hand { IsAt self.now hand.old }
        requires number { (number ≤ 2 ^ 60) × Names hand.old.seat.me.0 number }
        requires by { 0 < count (InHand by) hand.old.seat.me.0.marks }
        ensures table { hand.new.seat.table_id ≡ hand.old.seat.table_id }
        ensures ok { IfOk result (λ parcel. Collects (means L.meaning P.meaning) (size self.now) number by parcel hand.old.seat.me.0 hand.new.seat.me) }
        ensures err { IfErr result (λ found. NotFull (means L.meaning P.meaning) (size self.now) number found hand.old.seat.me.0 hand.new.seat.me) }
        ensures sent { IfErr result (λ found. In number hand.old.seat.me.0.sends → found ≢ EMPTY number) }
    {
        let seat = &mut hand.seat;
        let found = self.collect_step::<Brand>(seat, number, by);
        if found != full(number) {
            return Err(found);
        }
        let parcel = self.pick_parcel(seat, number);
        self.stow(seat, number);
        Ok(parcel)
    }

    // Stores the load as WAITING, and parks it at the channel. It comes back with the word found where that isn't EMPTY.
    pub(crate) fn rest_at(
        &self,
        hand: &mut Hand<L, P, A>,
        number: u64,
        load: L,
    ) -> Result<(), (L, u64)>
        requires hand { IsAt self.now hand.old }
        requires number { (number ≤ 2 ^ 60) × Names hand.old.seat.me.0 number }
        requires has { HasInHand hand.old.seat.me.0 (L.meaning.number load) }
        requires load { MayRest (means L.meaning P.meaning) hand.old.seat.me.0 load }
        ensures table { hand.new.seat.table_id ≡ hand.old.seat.table_id }
        ensures ok { IfOk result (λ _. Parks (means L.meaning P.meaning) (size self.now) number load hand.old.seat.me.0 hand.new.seat.me) }
        ensures back { IfErr result (λ r. (r.0 ≡ load) × (r.1 ≢ EMPTY number)) }
        ensures full { IfErr result (λ r. BackAtFull (means L.meaning P.meaning) (size self.now) number r.1 load hand.old.seat.me.0 hand.new.seat.me) }
        ensures other { IfErr result (λ r. BackElse (means L.meaning P.meaning) (size self.now) number r.1 load hand.old.seat.me.0 hand.new.seat.me) }
    {
        let own = load.number();
        let seat = &mut hand.seat;
        self.rest(seat, own.0, load);
        let found = self.park_step(seat, number, own.0);
        if found == empty(number) {
            return Ok(());
        }
        let load = self.bring_back(seat, own.0);
        Err((load, found))
    }

    /// The value of the channel, or the load is parked there.
    pub fn recv(&self, hand: &mut Hand<L, P, A>, number: Number, load: L) -> Got<L, P>
        requires hand { IsAt self.now hand.old }
        requires number { (number.0 ≤ 2 ^ 60) × Names hand.old.seat.me.0 number.0 }
        requires has { HasInHand hand.old.seat.me.0 (L.meaning.number load) }
        requires load { MayRest (means L.meaning P.meaning) hand.old.seat.me.0 load }
        ensures table { hand.new.seat.table_id ≡ hand.old.seat.table_id }
        ensures receives { Receives (means L.meaning P.meaning) (size self.now) number.0 hand.old.seat.me.0 hand.new.seat.me load result }
    {
        let by = load.number();
        let found = match self.collect(hand, number.0, by.0) {
            Ok(parcel) => return Got::Value(load, parcel),
            Err(found) => found,
        };
        if found != empty(number.0) {
            return Got::Misused(load, found_in_channel(number.0, found));
        }
        match self.rest_at(hand, number.0, load) {
            Ok(()) => Got::Parked,
            Err((load, found)) => {
                if found != full(number.0) {
                    return Got::Misused(load, found_in_channel(number.0, found));
                }
                match self.collect(hand, number.0, by.0) {
                    Ok(parcel) => Got::Value(load, parcel),
                    Err(found) => Got::Misused(load, found_in_channel(number.0, found)),
                }
            }
        }
    }
}
