//! Known tasks and parcels as values: what each step makes of them, and what they mean to the cells.
#![tactic(auto)]

mod letters;
mod loads;
mod nexts;
mod notes;
mod origins;
mod parcels;
mod states;
mod steps;
mod tasks;

pub use letters::Letter;
pub use nexts::Next;
pub use notes::{Deed, Note};
pub use origins::Origin;
pub use parcels::KnownParcel;
pub use states::{Late, State};
pub use tasks::{Forked, Kept, KnownTask, SentOff};
