//! A table of headers.
ghost use Rattle.std.specs.Prelude.{◌≡◌, [], map, IfOk, IfErr};
ghost use Rattle.std.specs.List.{list_all};
ghost use Rattle.std.specs.Option.{option_map, option_copied};
ghost use Rattle.core_programs.specs.Bodies.{function_of};
ghost use Rattle.nameless_shapes.specs.Formed.{TellsMisfit};
ghost use Rattle.function_headers.specs.Headers.{header_read, header_fits, header_named};
ghost use Rattle.function_headers.specs.Reading.{header_of};

use crate::headers::{Header, Headers};
use crate::indexes::{find_indexed, index_headers};
use crate::reading::read_headers;
use chan_syntax::Ident;
use core_programs::Func;
use nameless_forms::FormFault;
use std::alloc::Global;
use std::collections::BTreeMap;
use std::marker::Model;

/// The headers of a program, found by the names of their functions.
#[derive(Drop)]
pub struct HeaderTable {
    headers: Headers,
    places: BTreeMap<Ident, usize>,
}

impl Model for HeaderTable {
    ghost use Rattle.std.specs.Prelude.{List, map};
    ghost use Rattle.function_headers.specs.Headers.{Header};
    ghost use Rattle.function_headers.specs.Codes.{headers_code};

    ghost Value = { List Header };

    ghost coded = { headers_code };

    ghost use Rattle.function_headers.specs.Reading.{header_of};
    ghost use Rattle.function_headers.specs.Indexes.{LeadsToFirst};

    ghost view = { λ table. map header_of table.headers };

    ghost invariant = { λ table. LeadsToFirst (map header_of table.headers) table.places };
}

impl HeaderTable {
    /// Reads the headers of a program. A number of theirs is too large only where they aren't of form.
    pub fn new(alloc: Global, funcs: &[Func]) -> Result<HeaderTable, FormFault>
        ensures ok { IfOk result (λ table. table ≡ map header_read (map (function_of []) funcs.now)) }
        ensures err { IfErr result (TellsMisfit (list_all header_fits (map header_read (map (function_of []) funcs.now)))) }
    {
        let headers = read_headers(alloc, funcs)?;
        let places = index_headers(alloc, headers.as_slice())?;
        Ok(HeaderTable { headers, places })
    }

    /// The header of the first function with this name.
    pub fn find(&self, name: &Ident) -> Option<&Header>
        ensures { option_map header_of (option_copied result) ≡ header_named name.now self.now }
    {
        find_indexed(self.headers.as_slice(), &self.places, name)
    }
}
