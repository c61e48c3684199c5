//! What rules read of a program.
ghost use Rattle.std.specs.Prelude.{◌≡◌, map};
ghost use Rattle.core_programs.specs.Bodies.{program_of};
ghost use Rattle.function_headers.specs.Headers.{header_read};
ghost use Rattle.protocol_tables.specs.Protocols.{protocol_read};

use core_programs::Program;
use function_headers::HeaderTable;
use protocol_tables::ProtocolTable;

/// A program, and its headers and protocols, which were read once.
#[derive(Clone, Copy)]
pub struct Tables<'a> {
    pub program: &'a Program,
    pub headers: &'a HeaderTable,
    pub protocols: &'a ProtocolTable,
    ghost headers_read: { headers.now ≡ map header_read (program_of program.now).funcs },
    ghost protocols_read: { protocols.now ≡ map protocol_read (program_of program.now).protos },
}
