//! A run so far, and who may move in it.
use crate::configurations::Config;
use crate::events::Entries;
use chan_base::Name;
use std::collections::BTreeMap;

/// A task in the queue: its name, and its number in the table of tasks, by which it is found there without
/// a search.
#[derive(Drop)]
pub(crate) struct Seat {
    pub(crate) name: Name,
    pub(crate) number: usize,
}

/// For each channel the tasks that wait there.
pub(crate) type Waiting = BTreeMap<Name, Vec<Seat>>;

/// Tasks that join in a round, with their numbers.
pub(crate) type Joined = BTreeMap<Name, usize>;

/// A configuration, and the entries up to it.
#[derive(Drop)]
pub(crate) struct Run {
    pub(crate) config: Config,
    pub(crate) entries: Entries,
}

/// Who may move in the next round, and who waits at which channel: every task that can make a step is
/// ready, and any other one is ready, or waits at the channel at which its next act looks, or looks at
/// none (`IsQueue`).
///
/// The ready tasks stand in the order of their names, each once. At the head of a round those that can't
/// move leave: such a task waits at its channel from then on, or stands nowhere where its act looks at
/// none, since no other task can move it. The others, the movers, get a turn in that order, and stay.
/// While they do, tasks join: who was forked, and who waits at the channel that a turn made, filled or
/// took away, and leaves it. Who joined moves in the next round and not in this one.
#[derive(Drop)]
pub(crate) struct Queue {
    pub(crate) ready: Vec<Seat>,
    pub(crate) waiting: Waiting,
}

/// The queue without the movers, while they have their turns: who joined so far, and who waits.
#[derive(Drop)]
pub(crate) struct Joining {
    pub(crate) joined: Joined,
    pub(crate) waiting: Waiting,
}
