//! Contexts as lists that only grow, so that a body is left by cutting them.
use crate::places::Places;
use farkas_check::Rows;
use nameless_shapes::Shape;
use std::marker::Model;

/// Integer variables, hypotheses and entries, in the order in which they came. Beside each entry stands
/// whether it is held, and the places of those that were taken are kept in order.
#[derive(Drop)]
pub struct Context {
    pub(crate) ints: Places,
    pub(crate) hyps: Rows,
    pub(crate) names: Places,
    pub(crate) shapes: Vec<Shape>,
    pub(crate) held: Vec<bool>,
    pub(crate) taken: Vec<usize>,
}

impl Model for Context {
    ghost use Rattle.outline_contexts.specs.Trails.{Trail};
    ghost use Rattle.outline_contexts.specs.Codes.{trail_code};
    ghost use Rattle.outline_contexts.specs.Kept.{IsKept};

    ghost Value = { Trail };

    ghost coded = { trail_code };

    ghost view = { λ ctx. record { ints = ctx.ints; hyps = ctx.hyps; names = ctx.names; shapes = ctx.shapes.items; taken = ctx.taken.items } };

    ghost invariant = { λ ctx. IsKept (record { ints = ctx.ints; hyps = ctx.hyps; names = ctx.names; shapes = ctx.shapes.items; taken = ctx.taken.items }) ctx.held.items };
}
