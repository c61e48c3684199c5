//! Shapes and resources of a text, read without the names of binders.
#![tactic(auto)]

mod reading;
mod scope;

pub use reading::{
    nameless_limits, nameless_ref, nameless_res, nameless_shape, nameless_term, nameless_with_end,
};
