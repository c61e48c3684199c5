//! Shapes and resources without names, whose parts are shared.
#![tactic(auto)]

mod comparing;
mod making;
mod shapes;

pub use comparing::{same_res, same_shape};
pub use shapes::{Bound, Limits, Node, Ref, Resource, Resources, Shape, Under};
