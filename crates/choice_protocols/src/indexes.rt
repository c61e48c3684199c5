//! Protocols by their names.
ghost use Rattle.std.specs.Prelude.{◌≡◌, IfOk};
ghost use Rattle.std.specs.Option.{option_copied};
ghost use Rattle.session_lowering.specs.Choices.{source_named};
ghost use Rattle.choice_protocols.specs.Indexes.{LeadsToFirst};

use chan_base::Memory;
use chan_syntax::Ident;
use session_lowering::Source;
use std::alloc::Global;
use std::collections::BTreeMap;

/// The place of the first protocol with each name: from the last one on, so that an earlier one takes the place of a later one.
pub(crate) fn index_sources(
    alloc: Global,
    sources: &[Source],
) -> Result<BTreeMap<Ident, usize>, Memory>
    ensures { IfOk result (LeadsToFirst sources.now) }
{
    let mut index = BTreeMap::new(alloc);
    let mut left = sources.len();
    while left > 0 {
        left -= 1;
        let name = sources[left].proto.name.copy()?;
        index.insert(name, left)?;
    }
    Ok(index)
}

/// The protocol to which the index leads.
pub(crate) fn find_indexed<'a>(
    sources: &'a [Source],
    places: &BTreeMap<Ident, usize>,
    name: &Ident,
) -> Option<&'a Source>
    requires { LeadsToFirst sources.now places.now }
    ensures { option_copied result ≡ source_named sources.now name.now }
{
    match places.get(name) {
        None => None,
        Some(place) => sources.get(*place),
    }
}
