//! What a task did.
use machine_tasks::Channel;

/// A step that isn't silent. The channel of a fork is the one that it made.
#[derive(Drop)]
pub enum Deed {
    Fork(Channel),
    Send(Channel),
    Recv(Channel),
    Print(i128),
    End,
}

/// A step in a round.
#[derive(Drop)]
pub struct Note {
    pub time: u64,
    pub deed: Deed,
}
