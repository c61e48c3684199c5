//! Workers that run in waves, each over its own deque and those of the others.
#![tactic(auto)]

mod bench;
mod gates;
mod joining;
mod members;
mod placing;
mod waves;

pub use bench::{Bench, Moved};
pub use gates::{Gate, OpenGate};
pub use joining::{Leavings, leave};
pub use members::{Member, TURNS};
pub use waves::{WAVES, run_wave, run_waves};
