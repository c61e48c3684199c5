//! Tables of small cases of the rules about protocols.
#![tactic(auto)]

#[cfg(test)]
mod duals;
#[cfg(test)]
mod examples;
#[cfg(test)]
mod paths;
#[cfg(test)]
mod rows;
