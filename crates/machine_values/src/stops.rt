//! Why a task makes no step.

/// Why a task can make no step, now or ever.
#[derive(Clone, Copy, Debug, PartialEq, Eq)]
pub enum StuckWhy {
    NotInt,
    NotEnd,
    NotPair,
    NotSum,
    FullChannel,
    NoChannel,
    Absurd,
    Deep,
}

/// Why the machine can't make a task's step.
#[derive(Clone, Copy, Debug, PartialEq, Eq)]
pub enum Halt {
    Range,
    Depth,
}
