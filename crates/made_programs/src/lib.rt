//! The text of the program that `make` runs.
#![tactic(auto, using(std::proofs::lemmas::Grind::common_steps))]

mod declarations;
mod pieces;
mod programs;

pub use programs::make_text;
