//! The form of a path: one letter for each `if` equation on the way.
ghost use Rattle.std.specs.Prelude.{◌≡◌, map};
ghost use Rattle.std.specs.Option.{option_map, option_copied};
ghost use Rattle.chan_syntax.specs.Reading.{letter_of};
ghost use Rattle.nameless_shapes.specs.Parts.{ref_of};
ghost use Rattle.protocol_tables.specs.Protocols.{protocol_named};
ghost use Rattle.protocol_tables.specs.Reading.{fork_of, fork_in, message_of, message_in};
ghost use Rattle.outline_paths.specs.Following as spec;

use chan_syntax::{Ident, Letter};
use nameless_shapes::Ref;
use protocol_tables::{Fork, Message, Protocol, ProtocolTable, Step};

fn fork_in(protocol: &Protocol) -> Option<&Fork>
    ensures { option_map fork_of (option_copied result) ≡ fork_in protocol.now.step }
{
    match &protocol.step {
        Step::Chooses(fork) => Some(fork),
        Step::Tells(_) => None,
    }
}

fn message_in(protocol: &Protocol) -> Option<&Message>
    ensures { option_map message_of (option_copied result) ≡ message_in protocol.now.step }
{
    match &protocol.step {
        Step::Chooses(_) => None,
        Step::Tells(message) => Some(message),
    }
}

/// The `if` equation of the protocol with this name.
pub(crate) fn fork_named<'a>(table: &'a ProtocolTable, name: &Ident) -> Option<&'a Fork>
    ensures { option_map fork_of (option_copied result) ≡ spec.fork_at (protocol_named name.now table.now) }
{
    match table.find(name) {
        Some(protocol) => fork_in(protocol),
        None => None,
    }
}

/// What the protocol with this name sends or receives.
pub(crate) fn message_named<'a>(table: &'a ProtocolTable, name: &Ident) -> Option<&'a Message>
    ensures { option_map message_of (option_copied result) ≡ spec.message_at (protocol_named name.now table.now) }
{
    match table.find(name) {
        Some(protocol) => message_in(protocol),
        None => None,
    }
}

/// The reference that a letter picks.
pub(crate) fn on_way(letter: Letter, fork: &Fork) -> &Ref
    ensures { ref_of result.now ≡ spec.on_way (letter_of letter) (fork_of fork.now) }
{
    match letter {
        Letter::Left => &fork.this,
        Letter::Right => &fork.other,
    }
}

/// Whether the letters are as many as the `if` equations on the way.
pub(crate) fn is_path(table: &ProtocolTable, path: &[Letter], from: &Ident) -> bool
    ensures { result ≡ spec.is_path table.now (map letter_of path.now) from.now }
{
    let mut name = from;
    for letter in path {
        match fork_named(table, name) {
            Some(fork) => name = &on_way(*letter, fork).name,
            None => return false,
        }
    }
    message_named(table, name).is_some()
}
