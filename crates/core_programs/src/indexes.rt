//! Functions by their names.
ghost use Rattle.std.specs.Prelude.{◌≡◌, IfOk};
ghost use Rattle.std.specs.Option.{option_copied};
ghost use Rattle.core_programs.specs.Bodies.{LeadsToFirst, func_named};

use crate::nodes::Func;
use chan_base::Memory;
use chan_syntax::Ident;
use std::alloc::Global;
use std::collections::BTreeMap;

/// The place of the first function with each name: from the last one on, so that an earlier one
/// takes the place of a later one.
pub(crate) fn index_funcs(alloc: Global, funcs: &[Func]) -> Result<BTreeMap<Ident, usize>, Memory>
    ensures { IfOk result (LeadsToFirst funcs.now) }
{
    let mut index = BTreeMap::new(alloc);
    let mut left = funcs.len();
    while left > 0 {
        left -= 1;
        let name = funcs[left].name.copy()?;
        index.insert(name, left)?;
    }
    Ok(index)
}

/// The function to which the index leads.
pub(crate) fn find_indexed<'a>(
    funcs: &'a [Func],
    places: &BTreeMap<Ident, usize>,
    name: &Ident,
) -> Option<&'a Func>
    requires { LeadsToFirst funcs.now places.now }
    ensures { option_copied result ≡ func_named name.now funcs.now }
{
    match places.get(name) {
        None => None,
        Some(place) => funcs.get(*place),
    }
}
