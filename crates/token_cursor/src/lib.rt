//! The tokens that are left, and how one is looked at and taken.
#![tactic(auto)]

mod cursor;

pub use cursor::{Cursor, MORE_ARMS_THAN_TWO, Stop};
