//! Hands that run the calls of the shared cells, with a load and a parcel of their own.
#![tactic(auto)]

mod crew;
mod done;
mod ends;
mod job;
mod meanings;
mod starts;
mod turns;

pub use crew::{MOST, both, take_one, take_parent, work};
pub use done::Done;
pub use ends::{close_two, fill, open_two, seed};
pub use job::{Job, Note};
pub use starts::start;
pub use turns::{
    fork_with, put_free_home, put_home, receive, receive_again, receive_own, reopen_next,
    retire_ended, retire_received, send_own, send_to, serve,
};
