//! What the calls answer.
ghost use Rattle.std.specs.Prelude.{◌≡◌};

use chan_base::Number;

/// A number to begin.
#[derive(Drop)]
pub struct Drawn {
    pub number: Number,
}

impl Drawn {
    pub fn number(&self) -> Number
        ensures { result ≡ self.now.number }
    {
        self.number
    }
}

/// No number is left: so many were drawn before.
#[derive(Drop)]
pub struct Full {
    pub count: u64,
}

/// What a task word says that isn't READY of the number asked.
#[derive(Clone, Copy)]
pub enum State {
    Unmade,
    Running,
    Waiting,
    Ended,
    Halted,
    /// The word carries this number in place of the one asked.
    Reused(Number),
}

/// Where a load goes home.
#[derive(Clone, Copy)]
pub enum Place {
    Ready,
    Ended,
    Halted,
}

/// What a claim word or a channel word says that a send or a receive can't use.
#[derive(Clone, Copy)]
pub enum Found {
    /// This load sent there before.
    Claimed(Number),
    /// This load is parked there.
    Parked(Number),
    Done,
    /// The word carries this number in place of the one asked.
    Reused(Number),
}

#[derive(Drop)]
pub enum Sent<P> {
    Left,
    /// The receiver with this number was parked there, and is READY now.
    Wakes(Number),
    Misused(P, Found),
}

#[derive(Drop)]
pub enum Got<L, P> {
    Value(L, P),
    Parked,
    Misused(L, Found),
}

/// A cell that its hand may give again.
#[derive(Drop)]
pub struct FreeCell {
    pub number: Number,
    pub next: Number,
}

impl FreeCell {
    /// The number that the cell has once it is given again.
    pub fn next(&self) -> Number
        ensures { result ≡ self.now.next }
    {
        self.next
    }
}

#[derive(Drop)]
pub enum Retired {
    First,
    Free(FreeCell),
}
