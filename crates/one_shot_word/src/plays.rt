//! The names of the steps.
ghost use Rattle.std.specs.Prelude.{ℕ, List, []};
ghost use Rattle.cell_rules.specs.Rule.{dealt, hand_of, both, blank};
ghost use Rattle.cell_rules.specs.Plays.{draws, opens, lifts, settles, raises, stows, leaves, wakes, halts, claims, sends, parks};
ghost use Rattle.cell_rules.specs.Plays.{retires, ends, clears_claim, clears_chan, begins, reopens, takes_load, reclaims, collects};
ghost use Rattle.one_shot_word.specs.Meaning.{means};

use crate::load::{Load, Parcel};
use atomic_table::{Join, Play, Split};
use cell_rules::{Item, View};
use std::marker::{Brand, PhantomData};

/// Which load receives, as a caller picks it.
pub trait Receiver {
    ghost by: { ℕ };
}

impl Receiver for Brand {
    ghost by = { 0 };
}

/// Which load ends, as a caller picks it, in a list of one.
pub trait Finisher<L> {
    ghost loads: { List L };
}

impl<L> Finisher<L> for Brand {
    ghost loads = { [] };
}

// One hand is cut off.
pub struct Deal;

impl<L, A> Split<View<L, A>> for Deal {
    ghost left = { dealt };

    ghost right = { hand_of };
}

// Two hands become one.
pub struct Both;

impl<L, A> Join<View<L, A>> for Both {
    ghost both = { both };

    ghost spent = { blank };
}

pub struct Draw;

impl<L, P, A> Play<Option<Item<L, P>>, View<L, A>> for Draw {
    ghost then = { draws };
}

pub struct Open;

impl<L, P, A> Play<Option<Item<L, P>>, View<L, A>> for Open {
    ghost then = { opens };
}

pub struct Lift;

impl<L, P, A> Play<Option<Item<L, P>>, View<L, A>> for Lift {
    ghost then = { lifts };
}

pub struct Settle;

impl<L, P, A> Play<Option<Item<L, P>>, View<L, A>> for Settle {
    ghost then = { settles };
}

pub struct Raise;

impl<L, P, A> Play<Option<Item<L, P>>, View<L, A>> for Raise {
    ghost then = { raises };
}

pub struct Stow;

impl<L, P, A> Play<Option<Item<L, P>>, View<L, A>> for Stow {
    ghost then = { stows };
}

pub struct Leave;

impl<L, P, A> Play<Option<Item<L, P>>, View<L, A>> for Leave {
    ghost then = { leaves };
}

pub struct Wake;

impl<L, P, A> Play<Option<Item<L, P>>, View<L, A>> for Wake {
    ghost then = { wakes };
}

pub struct Halt;

impl<L, P, A> Play<Option<Item<L, P>>, View<L, A>> for Halt {
    ghost then = { halts };
}

pub struct Claim;

impl<L, P, A> Play<Option<Item<L, P>>, View<L, A>> for Claim {
    ghost then = { claims };
}

pub struct Send;

impl<L, P, A> Play<Option<Item<L, P>>, View<L, A>> for Send {
    ghost then = { sends };
}

pub struct Park;

impl<L, P, A> Play<Option<Item<L, P>>, View<L, A>> for Park {
    ghost then = { parks };
}

pub struct Retire;

impl<L, P, A> Play<Option<Item<L, P>>, View<L, A>> for Retire {
    ghost then = { retires };
}

pub struct ClearClaim;

impl<L, P, A> Play<Option<Item<L, P>>, View<L, A>> for ClearClaim {
    ghost then = { clears_claim };
}

pub struct ClearChan;

impl<L, P, A> Play<Option<Item<L, P>>, View<L, A>> for ClearChan {
    ghost then = { clears_chan };
}

pub struct Begin<A>(PhantomData<A>);

impl<A, L: Load<A>, P: Parcel<A>> Play<Option<Item<L, P>>, View<L, (A, u64)>> for Begin<A> {
    ghost then = { begins (means L.meaning P.meaning) };
}

pub struct Reopen<A>(PhantomData<A>);

impl<A, L: Load<A>, P: Parcel<A>> Play<Option<Item<L, P>>, View<L, (A, u64)>> for Reopen<A> {
    ghost then = { reopens (means L.meaning P.meaning) };
}

pub struct Take<A>(PhantomData<A>);

impl<A, L: Load<A>, P: Parcel<A>> Play<Option<Item<L, P>>, View<L, (A, u64)>> for Take<A> {
    ghost then = { takes_load (means L.meaning P.meaning) };
}

pub struct Reclaim<A>(PhantomData<A>);

impl<A, L: Load<A>, P: Parcel<A>> Play<Option<Item<L, P>>, View<L, (A, u64)>> for Reclaim<A> {
    ghost then = { reclaims (means L.meaning P.meaning) };
}

pub struct Collect<R, A>(PhantomData<(R, A)>);

impl<R: Receiver, A, L: Load<A>, P: Parcel<A>> Play<Option<Item<L, P>>, View<L, (A, u64)>>
    for Collect<R, A> {
    ghost then = { collects (means L.meaning P.meaning) R.by };
}

pub struct End<R>(PhantomData<R>);

impl<L, P, A, R: Finisher<L>> Play<Option<Item<L, P>>, View<L, A>> for End<R> {
    ghost then = { ends R.loads };
}
