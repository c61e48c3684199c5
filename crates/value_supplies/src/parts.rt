//! The resources of the parts of shapes.
ghost use Rattle.std.specs.Prelude.{◌≡◌};
ghost use Rattle.std.specs.Option.{option_copied};
ghost use Rattle.outline_language.specs.Giving.{is_unit as is_unit_shape, pair_of};
ghost use Rattle.value_supplies.specs.Reading.{parts_of};
ghost use Rattle.value_supplies.specs.Asking.{arm_of};

use nameless_shapes::{Node, Resource, Shape};

pub(crate) fn is_unit(shape: &Shape) -> bool
    ensures { result ≡ is_unit_shape shape.now }
{
    match shape.get() {
        Node::Unit => true,
        _ => false,
    }
}

/// Both resources of a pair.
#[derive(Clone, Copy)]
pub(crate) struct PairParts<'a> {
    pub first: &'a Resource,
    pub second: &'a Resource,
}

pub(crate) fn pair_parts(shape: &Shape) -> Option<PairParts<'_>>
    ensures { parts_of result ≡ pair_of shape.now }
{
    match shape.get() {
        Node::Pair(first, second) => Some(PairParts { first, second }),
        _ => None,
    }
}

/// The resource of the arm with this number.
pub(crate) fn arm(shape: &Shape, number: u8) -> Option<&Resource>
    ensures { option_copied result ≡ arm_of shape.now number }
{
    match shape.get() {
        Node::Sum(arms) => arms.as_slice().get(number as usize),
        _ => None,
    }
}
