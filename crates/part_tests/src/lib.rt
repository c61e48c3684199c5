//! Tests of calls on the way of a text: tokens, what is printed of trees, whether protocols are guarded, and programs of parts.
#![tactic(auto)]

#[cfg(test)]
mod binders;
#[cfg(test)]
mod builds;
#[cfg(test)]
mod cycles;
#[cfg(test)]
mod factors;
#[cfg(test)]
mod parts;
#[cfg(test)]
mod printing;
#[cfg(test)]
mod rows;
#[cfg(test)]
mod tokens;
#[cfg(test)]
mod trees;
