//! Terms, resources and protocols as texts, for crates of tests.
#![tactic(auto)]

mod spelling;

pub use spelling::{push, push_number, push_proto, push_ref, push_res};
