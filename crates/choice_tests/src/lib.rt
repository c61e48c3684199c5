//! Tables of texts with choices, and of the protocols that they stand for.
#![tactic(auto)]

#[cfg(test)]
mod choices;
