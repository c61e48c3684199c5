//! The tables of calls of the shared cells, and two hands at once.
#![tactic(auto)]

#[cfg(test)]
mod crews;
#[cfg(test)]
mod setting;
#[cfg(test)]
mod tables;
