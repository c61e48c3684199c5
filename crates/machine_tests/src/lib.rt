//! Tests of the machine: programs of texts, stepped and replayed, with the answers that they have to give.
#![tactic(auto)]

#[cfg(test)]
mod configurations;
#[cfg(test)]
mod looks;
#[cfg(test)]
mod names;
#[cfg(test)]
mod programs;
#[cfg(test)]
mod rows;
#[cfg(test)]
mod runs;
#[cfg(test)]
mod single_tasks;
