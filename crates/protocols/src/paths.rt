//! Paths: one letter for each `if` equation on the way.
ghost use Rattle.std.specs.Prelude.{◌≡◌, map, find};
ghost use Rattle.std.specs.Option.{option_map, option_copied};
ghost use Rattle.core_language.specs.Names.{same};
ghost use Rattle.chan_syntax.specs.Reading.{ref_of, equation_of, proto_of, letter_of};
ghost use Rattle.outline_language.specs.Equations as equations;
ghost use Rattle.protocols.specs.Heads as heads;
ghost use Rattle.protocols.specs.Places.{first_named, way_of};
ghost use Rattle.protocols.specs.Unfolding as spec;

use chan_syntax::{Equation, Ident, Letter, Proto, Ref};

fn first_named<'a>(protos: &'a [Proto], name: &Ident) -> Option<&'a Proto>
    ensures { option_copied result ≡ find (λ p. same p.name name.now) protos.now }
{
    protos.iter().find(|proto| proto.name == *name)
}

/// The first protocol with this name.
pub(crate) fn proto_named<'a>(protos: &'a [Proto], name: &Ident) -> Option<&'a Proto>
    ensures read { option_map proto_of (option_copied result) ≡ equations.proto_named name.now (map proto_of protos.now) }
    ensures placed { option_copied result ≡ first_named protos.now name.now }
{
    first_named(protos, name)
}

pub(crate) fn on_way<'a>(letter: Letter, this: &'a Ref, other: &'a Ref) -> &'a Ref
    ensures read { ref_of result.now ≡ heads.on_way (letter_of letter) (ref_of this.now) (ref_of other.now) }
    ensures placed { result.now ≡ way_of letter this.now other.now }
{
    match letter {
        Letter::Left => this,
        Letter::Right => other,
    }
}

fn picked(proto: &Proto, letter: Letter) -> Option<&Ref>
    ensures { option_map ref_of (option_copied result) ≡ spec.picked (letter_of letter) (proto_of proto.now).equation }
{
    match &proto.equation {
        Equation::Branch(_, _, this, other) => Some(on_way(letter, this, other)),
        _ => None,
    }
}

/// Where a letter goes on from the protocol with this name.
fn picked_at<'a>(protos: &'a [Proto], name: &Ident, letter: Letter) -> Option<&'a Ref>
    ensures { option_map ref_of (option_copied result) ≡ spec.picked_at (letter_of letter) (equations.proto_named name.now (map proto_of protos.now)) }
{
    match proto_named(protos, name) {
        Some(proto) => picked(proto, letter),
        None => None,
    }
}

fn ends_here(equation: &Equation) -> bool
    ensures { result ≡ spec.ends_here (equation_of equation.now) }
{
    !matches!(equation, Equation::Branch(..))
}

fn stops(protos: &[Proto], name: &Ident) -> bool
    ensures { result ≡ spec.stops (equations.proto_named name.now (map proto_of protos.now)) }
{
    match proto_named(protos, name) {
        Some(proto) => ends_here(&proto.equation),
        None => false,
    }
}

/// Whether the path has one letter for each `if` equation on the way from the protocol.
pub(crate) fn has_form(protos: &[Proto], path: &[Letter], from: &Ident) -> bool
    ensures { result ≡ spec.has_form (map proto_of protos.now) (map letter_of path.now) from.now }
{
    let mut name = from;
    for letter in path {
        match picked_at(protos, name, *letter) {
            Some(next) => name = &next.name,
            None => return false,
        }
    }
    stops(protos, name)
}
