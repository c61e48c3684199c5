//! The rules on integers and on parts of values, over contexts that only grow.
#![tactic(auto)]

mod arms;
mod branches;
mod divisions;
mod endings;
mod integers;
mod parts;
mod quotients;

pub use arms::{enter_arm, meet_match};
pub use branches::{enter_branch, meet_if};
pub use endings::meet_absurd;
pub use integers::{meet_let, meet_mul, meet_print};
pub use parts::meet_split;
pub use quotients::{meet_div, meet_rem};
