//! Where a known task stands.
use crate::notes::Note;
use chan_base::Number;
use machine_tasks::{Channel, Task, Value};

/// A value that the last round sent. Its task has not received it.
#[derive(Drop)]
pub struct Late {
    pub channel: Channel,
    pub value: Value,
}

/// A task after so many rounds of a run of at most `limit` rounds, with what it did in them. The
/// channel that was made with it has this cell.
#[derive(Drop)]
pub struct State {
    pub limit: u64,
    pub cell: Number,
    pub time: u64,
    pub task: Task,
    pub notes: Vec<Note>,
    pub late: Option<Late>,
}
