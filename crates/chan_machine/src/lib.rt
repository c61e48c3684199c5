//! The machine on one thread: configurations and their steps.
#![tactic(auto)]

mod channels;
mod configurations;
mod endings;
mod events;
mod kept_tasks;
mod looks;
mod queue;
mod replays;
mod rounds;
mod runs;
mod steps;
mod turns;

pub use configurations::{Config, Put, Puts, Store, Stores};
pub use events::{Ending, Entries, Entry, Event, Stepped};
pub use looks::look;
pub use machine_tasks::{
    Act, Bind, Binds, Channel, Frame, Frames, Halt, Sending, StuckWhy, Task, Tasks, Twins, Value,
};
pub use replays::{Replayed, replay};
pub use steps::{start, step};
