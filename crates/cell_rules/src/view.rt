//! What a hand knows and has.
ghost use Rattle.std.specs.Prelude.{ℕ, List};
ghost use Rattle.std.specs.Borrow.{ftrue};
ghost use Rattle.std.specs.Coded.{coded_list, coded×, coded_ℕ};

use std::marker::{Model, PhantomData};

/// The view of a hand. No value of it is made.
pub struct View<L, A> {
    // How many hands it stands for, and how many of these may not draw again.
    pub ghost parts: { ℕ },
    pub ghost spent: { ℕ },
    // The program with its limit, in a list of one.
    pub ghost about: { List A } by { coded_list A.code },
    // What it has of numbers.
    pub ghost marks: { List ℕ },
    // Numbers that it made.
    pub ghost made: { List ℕ },
    // Loads of retired tasks, and loads that it stores to be parked, each with its number.
    pub ghost kept: { List (ℕ × L) } by { coded_list (coded× coded_ℕ L.code) },
    pub ghost resting: { List (ℕ × L) } by { coded_list (coded× coded_ℕ L.code) },
    // Numbers with their names, and numbers that were sent on.
    pub ghost names: { List (ℕ × List ℕ) },
    pub ghost sends: { List ℕ },
    // What was received: the number of the load, and the number received.
    pub ghost receipts: { List (ℕ × ℕ) },
    // Each step that it made: the word, what was found there and what was left, the newest first.
    pub ghost log: { List (ℕ × ℕ × ℕ) },
    of: PhantomData<(L, A)>,
}

impl<L, A> Model for View<L, A> {
    ghost also_owns = { λ _. ftrue };
}
