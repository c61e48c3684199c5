//! Protocols by their names.
ghost use Rattle.std.specs.Prelude.{◌≡◌, map, IfOk};
ghost use Rattle.std.specs.Option.{option_map, option_copied};
ghost use Rattle.protocol_tables.specs.Indexes.{LeadsToFirst};
ghost use Rattle.protocol_tables.specs.Protocols.{protocol_named};
ghost use Rattle.protocol_tables.specs.Reading.{protocol_of};

use crate::protocols::Protocol;
use chan_base::Memory;
use chan_syntax::Ident;
use std::alloc::Global;
use std::collections::BTreeMap;

/// The place of the first protocol with each name: from the last one on, so that an earlier one takes the place of a later one.
pub(crate) fn index_protocols(
    alloc: Global,
    protocols: &[Protocol],
) -> Result<BTreeMap<Ident, usize>, Memory>
    ensures { IfOk result (LeadsToFirst (map protocol_of protocols.now)) }
{
    let mut index = BTreeMap::new(alloc);
    let mut left = protocols.len();
    while left > 0 {
        left -= 1;
        let name = protocols[left].name.copy()?;
        index.insert(name, left)?;
    }
    Ok(index)
}

/// The protocol to which the index leads.
pub(crate) fn find_indexed<'a>(
    protocols: &'a [Protocol],
    places: &BTreeMap<Ident, usize>,
    name: &Ident,
) -> Option<&'a Protocol>
    requires { LeadsToFirst (map protocol_of protocols.now) places.now }
    ensures { option_map protocol_of (option_copied result) ≡ protocol_named name.now (map protocol_of protocols.now) }
{
    match places.get(name) {
        None => None,
        Some(place) => protocols.get(*place),
    }
}
