//! The protocols of a text, found by their names.
ghost use Rattle.std.specs.Prelude.{◌≡◌, IfOk};
ghost use Rattle.std.specs.Option.{option_copied};
ghost use Rattle.session_lowering.specs.Choices as spec;

use crate::declarations::read_sources;
use crate::indexes::{find_indexed, index_sources};
use crate::turns::Sources;
use chan_base::Memory;
use chan_syntax::{Decl, Ident};
use session_lowering::Source;
use std::alloc::Global;
use std::collections::BTreeMap;
use std::marker::Model;

/// The protocols of a text, those of a choice in its place.
#[derive(Drop)]
pub struct SourceTable {
    sources: Sources,
    places: BTreeMap<Ident, usize>,
}

impl Model for SourceTable {
    ghost use Rattle.std.specs.Prelude.{List};
    ghost use Rattle.std.specs.Coded.{coded_list};
    ghost use Rattle.session_lowering.specs.declared.sources.Source.{Source};
    ghost use Rattle.session_lowering.specs.contracts.sources.Source as source;
    ghost use Rattle.choice_protocols.specs.Indexes.{LeadsToFirst};

    ghost Value = { List Source };

    ghost coded = { coded_list source.the_row.coded };

    ghost view = { λ table. table.sources };

    ghost invariant = { λ table. LeadsToFirst table.sources table.places };
}

impl SourceTable {
    /// The protocols of declarations.
    pub fn new(alloc: Global, decls: &[Decl]) -> Result<SourceTable, Memory>
        ensures { IfOk result (λ table. table ≡ spec.sources decls.now) }
    {
        let sources = read_sources(alloc, decls)?;
        let places = index_sources(alloc, sources.as_slice())?;
        Ok(SourceTable { sources, places })
    }

    /// The first protocol with this name.
    pub fn find(&self, name: &Ident) -> Option<&Source>
        ensures { option_copied result ≡ spec.source_named self.now name.now }
    {
        find_indexed(self.sources.as_slice(), &self.places, name)
    }

    pub fn as_slice(&self) -> &[Source]
        ensures { result.now ≡ self.now }
    {
        self.sources.as_slice()
    }

    pub fn into_sources(self) -> Sources
        ensures { result ≡ self }
    {
        let SourceTable { sources, .. } = self;
        sources
    }
}
