//! Rows of words, bytes and streams that need sources and sinks in memory. The others are those of `chanl_rows`.
#![tactic(auto)]

#[cfg(test)]
mod bytes;
#[cfg(test)]
mod rows;
#[cfg(test)]
mod streams;
#[cfg(test)]
mod words;
