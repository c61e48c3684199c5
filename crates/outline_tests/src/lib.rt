//! Texts of programs, with the line that the check of their outlines has to give for each.
#![tactic(auto)]

#[cfg(test)]
mod accepted;
#[cfg(test)]
mod calls;
#[cfg(test)]
mod channels;
#[cfg(test)]
mod integers;
#[cfg(test)]
mod numbers;
#[cfg(test)]
mod order;
#[cfg(test)]
mod parts;
#[cfg(test)]
mod room;
#[cfg(test)]
mod rows;
