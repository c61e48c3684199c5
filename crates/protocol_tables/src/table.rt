//! A table of protocols.
ghost use Rattle.std.specs.Prelude.{◌≡◌, map, IfOk, IfErr};
ghost use Rattle.std.specs.List.{list_all};
ghost use Rattle.std.specs.Option.{option_map, option_copied};
ghost use Rattle.chan_syntax.specs.Reading.{proto_of};
ghost use Rattle.nameless_shapes.specs.Formed.{TellsMisfit};
ghost use Rattle.protocol_tables.specs.Protocols.{protocol_read, protocol_fits, protocol_named};
ghost use Rattle.protocol_tables.specs.Reading.{protocol_of};

use crate::indexes::{find_indexed, index_protocols};
use crate::protocols::{Protocol, Protocols};
use crate::steps::read_protocols;
use chan_syntax::{Ident, Proto};
use nameless_forms::FormFault;
use std::alloc::Global;
use std::collections::BTreeMap;
use std::marker::Model;

/// The protocols of a program, found by their names.
#[derive(Drop)]
pub struct ProtocolTable {
    protocols: Protocols,
    places: BTreeMap<Ident, usize>,
}

impl Model for ProtocolTable {
    ghost use Rattle.std.specs.Prelude.{List, map};
    ghost use Rattle.protocol_tables.specs.Protocols.{Protocol};
    ghost use Rattle.protocol_tables.specs.Codes.{protocols_code};

    ghost Value = { List Protocol };

    ghost coded = { protocols_code };

    ghost use Rattle.protocol_tables.specs.Reading.{protocol_of};
    ghost use Rattle.protocol_tables.specs.Indexes.{LeadsToFirst};

    ghost view = { λ table. map protocol_of table.protocols };

    ghost invariant = { λ table. LeadsToFirst (map protocol_of table.protocols) table.places };
}

impl ProtocolTable {
    /// Reads the protocols of a program. A number of theirs is too large only where they aren't of form.
    pub fn new(alloc: Global, protos: &[Proto]) -> Result<ProtocolTable, FormFault>
        ensures ok { IfOk result (λ table. table ≡ map protocol_read (map proto_of protos.now)) }
        ensures err { IfErr result (TellsMisfit (list_all protocol_fits (map protocol_read (map proto_of protos.now)))) }
    {
        let protocols = read_protocols(alloc, protos)?;
        let places = index_protocols(alloc, protocols.as_slice())?;
        Ok(ProtocolTable { protocols, places })
    }

    /// The first protocol with this name.
    pub fn find(&self, name: &Ident) -> Option<&Protocol>
        ensures { option_map protocol_of (option_copied result) ≡ protocol_named name.now self.now }
    {
        find_indexed(self.protocols.as_slice(), &self.places, name)
    }
}
