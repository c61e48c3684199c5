//! The rules on calls, forks and messages, over the headers and protocols of a program.
#![tactic(auto)]

mod calls;
mod children;
mod forks;
mod messages;
mod openings;
mod tables;

pub use calls::{meet_call, meet_ret, meet_tail};
pub use forks::meet_fork;
pub use messages::{meet_recv, meet_send};
pub use tables::Tables;
