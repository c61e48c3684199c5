//! Tables of small cases of the rules about terms and what they are put into.
#![tactic(auto)]

#[cfg(test)]
mod certificates;
#[cfg(test)]
mod held;
#[cfg(test)]
mod normal_forms;
#[cfg(test)]
mod resources;
#[cfg(test)]
mod rows;
#[cfg(test)]
mod substitutions;
#[cfg(test)]
mod sums;
#[cfg(test)]
mod trees;
#[cfg(test)]
mod variables;
