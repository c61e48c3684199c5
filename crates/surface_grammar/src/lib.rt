//! The grammar of programs, as a value.
#![tactic(auto)]

mod laws;
mod parts;
mod words;

pub use laws::texts;
pub use parts::{
    Access, BehindNumber, Binding, Called, CertParts, Digits, Forked, Given, Named, NamedGiven,
    Names, PairGiven, Route, Tail, Target, Task,
};
pub use words::{Word, spelling};
