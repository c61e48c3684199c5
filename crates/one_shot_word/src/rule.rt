//! The table of the cells, under its rule.
ghost use Rattle.std.specs.Prelude.{ℕ, [], ◌∷◌};
ghost use Rattle.cell_rules.specs.Rule.{Rules, fresh};
ghost use Rattle.one_shot_word.specs.Meaning.{means};

use crate::load::{Load, Parcel};
use atomic_table::TableRule;
use cell_rules::{Item, View};
use std::alloc::Global;
use std::marker::PhantomData;

pub struct Rule<L, P, A>(PhantomData<(L, P, A)>);

/// How many cells and hands, and the program with its limit of rounds.
#[derive(Drop)]
pub struct Key<A> {
    pub cells: u64,
    pub hands: u32,
    pub program: A,
    pub rounds: u64,
}

impl<A, L: Load<A>, P: Parcel<A>> TableRule<Option<Item<L, P>>, View<L, (A, u64)>, Key<A>>
    for Rule<L, P, A> {
    ghost holds = { λ key. Rules (means L.meaning P.meaning) (key.cells, key.hands, (key.program, key.rounds)) };

    ghost first = { λ key. fresh key.hands ((key.program, key.rounds) ∷ []) };
}

pub type Table<L, P, A> = atomic_table::Table<
    Option<Item<L, P>>,
    View<L, (A, u64)>,
    Key<A>,
    Rule<L, P, A>,
    Global,
>;
