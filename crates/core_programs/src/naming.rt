//! Whether a body names a variable, from node to node.
ghost use Rattle.std.specs.Prelude.{◌≡◌, ◌<◌, length};
ghost use Rattle.std.specs.List.Sorted.{IsNonDecreasing};
ghost use Rattle.core_language.specs.Configurations.{names};
ghost use Rattle.core_language.specs.Names.{Ident as IdentOf};
ghost use Rattle.core_programs.specs.Bodies.{rest};
ghost use Rattle.core_programs.specs.Formed.{IsNumbered};
ghost use Rattle.core_programs.specs.Uses.{uses_from, later_names};

use crate::follows::{next_count, next_number};
use crate::nodes::Parts;
use name_uses::has_between;

/// Whether one of the numbers is that of a node in the body at a number.
#[cycle(has_use)]
pub(crate) fn has_use(parts: &Parts, numbers: &[u32], number: u32) -> bool
    requires numbered { IsNumbered parts.now }
    requires within { number < length parts.now.nodes }
    requires ascending { IsNonDecreasing numbers.now }
    ensures { (x : IdentOf) → numbers.now ≡ uses_from 0 parts.now.nodes x → result ≡ names (rest parts.now.nodes number) x }
{
    let nodes = parts.nodes.as_slice();
    let mut at = number;
    'nodes: loop {
        let node = &nodes[at as usize];
        if has_between(numbers, at, at) {
            return true;
        }
        if has_later_use(parts, numbers, at) {
            return true;
        }
        match next_number(node, 0) {
            Some(next) => at = next,
            None => return false,
        }
    }
}

/// Whether one of the numbers is that of a node in the bodies that follow a node, after the first
/// of them.
#[cycle(has_use)]
fn has_later_use(parts: &Parts, numbers: &[u32], number: u32) -> bool
    requires numbered { IsNumbered parts.now }
    requires within { number < length parts.now.nodes }
    requires ascending { IsNonDecreasing numbers.now }
    ensures { (x : IdentOf) → numbers.now ≡ uses_from 0 parts.now.nodes x → result ≡ later_names parts.now.nodes number x }
{
    let nodes = parts.nodes.as_slice();
    let node = &nodes[number as usize];
    'turns: for turn in 1..next_count(node) {
        let Some(next) = next_number(node, turn) else {
            return false;
        };
        if has_use(parts, numbers, next) {
            return true;
        }
    }
    false
}
