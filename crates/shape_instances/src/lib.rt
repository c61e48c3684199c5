//! Shapes and resources in which instances stand for binders.
#![tactic(auto)]

mod putting;

pub use putting::{put_in_res, put_in_shape, ref_with, res_with, shape_with};
