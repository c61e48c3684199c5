//! Shared cells whose loads and parcels move by single steps on words.
#![tactic(auto)]

mod answers;
mod calls;
mod cells;
mod ends;
mod found;
mod hand;
mod load;
mod plays;
mod receives;
mod rule;
mod steps;

pub use answers::{Drawn, Found, FreeCell, Full, Got, Place, Retired, Sent, State};
pub use cells::Cells;
pub use ends::{Closed, Loads, Opened, Parcels, Unclosed};
pub use hand::{Hand, Hands};
pub use load::{Load, Parcel};
pub use rule::{Key, Rule, Table};
