//! One task of the machine: its frames, what it does next, and the steps that it makes by itself.
#![tactic(auto)]

mod acts;
mod attempts;
mod beginning;
mod calls;
mod entering;
mod moving;
mod quiet;
mod sharing;
mod tasks;

pub use acts::Act;
pub use machine_values::{Bind, Binds, Channel, Halt, Shared, StuckWhy, Value};
pub use sharing::{Offspring, Parcel, Sending, Slot, Twins};
pub use tasks::{Frame, Frames, Task, Tasks};
