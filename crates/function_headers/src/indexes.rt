//! Headers by their names.
ghost use Rattle.std.specs.Prelude.{◌≡◌, map, IfOk};
ghost use Rattle.std.specs.Option.{option_map, option_copied};
ghost use Rattle.function_headers.specs.Headers.{header_named};
ghost use Rattle.function_headers.specs.Indexes.{LeadsToFirst};
ghost use Rattle.function_headers.specs.Reading.{header_of};

use crate::headers::Header;
use chan_base::Memory;
use chan_syntax::Ident;
use std::alloc::Global;
use std::collections::BTreeMap;

/// The place of the first header with each name: from the last one on, so that an earlier one takes the place of a later one.
pub(crate) fn index_headers(
    alloc: Global,
    headers: &[Header],
) -> Result<BTreeMap<Ident, usize>, Memory>
    ensures { IfOk result (LeadsToFirst (map header_of headers.now)) }
{
    let mut index = BTreeMap::new(alloc);
    let mut left = headers.len();
    while left > 0 {
        left -= 1;
        let name = headers[left].name.copy()?;
        index.insert(name, left)?;
    }
    Ok(index)
}

/// The header to which the index leads.
pub(crate) fn find_indexed<'a>(
    headers: &'a [Header],
    places: &BTreeMap<Ident, usize>,
    name: &Ident,
) -> Option<&'a Header>
    requires { LeadsToFirst (map header_of headers.now) places.now }
    ensures { option_map header_of (option_copied result) ≡ header_named name.now (map header_of headers.now) }
{
    match places.get(name) {
        None => None,
        Some(place) => headers.get(*place),
    }
}
