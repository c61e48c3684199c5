//! Tests of names that are read, and of the text that `make` runs.
#![tactic(auto)]

#[cfg(test)]
mod made;
#[cfg(test)]
mod names;
