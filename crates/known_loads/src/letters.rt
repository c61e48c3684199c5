//! What a send puts on its channel.
use machine_tasks::{Channel, Value};

/// A value that a round of a run of at most `limit` rounds put on a channel.
#[derive(Drop)]
pub struct Letter {
    pub limit: u64,
    pub channel: Channel,
    pub value: Value,
    pub round: u64,
}
