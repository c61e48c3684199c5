//! What steps show, and how runs end.
use chan_base::{Name, Names};
use machine_tasks::{Halt, StuckWhy};
use sqlite_items::Items;

pub type Entries = Items<Entry>;

#[derive(Debug, Drop)]
pub enum Event {
    Silent,
    Fork(Name),
    Send(Name),
    Recv(Name),
    Print(i128),
    End,
}

/// What came of a step.
#[derive(Debug, Drop)]
pub enum Stepped {
    Moved(Event),
    Waits(Name),
    Ended,
    Absent,
    Halts(Halt),
    Stuck(StuckWhy),
}

/// A step in a round, that isn't silent.
#[derive(Debug, Drop)]
pub struct Entry {
    pub time: u64,
    pub name: Name,
    pub event: Event,
}

#[derive(Debug, Drop)]
pub enum Ending {
    Finished,
    Rounds,
    Range(Name),
    Depth(Name),
    Stuck(Name, StuckWhy),
    Deadlocked(Names),
    Leaked(Names),
}
