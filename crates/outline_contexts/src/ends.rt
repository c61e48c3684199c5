//! Whether an end is left.
ghost use Rattle.std.specs.Prelude.{◌≡◌, length, Ok, Err, OnOk, IfErr};
ghost use Rattle.outline_language.specs.Contexts as spec;
ghost use Rattle.outline_obligations.specs.Reasons.{IsReason};
ghost use Rattle.outline_contexts.specs.Trails.{context_in};
ghost use Rattle.outline_contexts.specs.Kept.{entries_by};

use crate::trail::Context;
use chan_syntax::Ident;
use nameless_shapes::Shape;
use outline_obligations::{ContextFault, Why};

fn left(name: &Ident) -> ContextFault
    ensures { IsReason {A = Unit {0}} (Err (spec.Left name.now)) result }
{
    match name.copy() {
        Ok(name) => ContextFault::Why(Why::Left(name)),
        Err(_) => ContextFault::Memory,
    }
}

fn check_left(held: &[bool], names: &[Ident], shapes: &[Shape]) -> Result<(), ContextFault>
    requires names { length names.now ≡ length shapes.now }
    requires held { length held.now ≡ length shapes.now }
    ensures ok { OnOk result (spec.nothing_left (entries_by held.now names.now shapes.now) ≡ Ok spec.nothing) }
    ensures err { IfErr result (IsReason (spec.nothing_left (entries_by held.now names.now shapes.now))) }
{
    for index in 0..shapes.len() {
        if held[index] && shapes[index].has_end() {
            return Err(left(&names[index]));
        }
    }
    Ok(())
}

impl Context {
    /// Left with the first held entry in which an end stands.
    pub fn nothing_left(&self) -> Result<(), ContextFault>
        ensures ok { OnOk result (spec.nothing_left (context_in self.now).entries ≡ Ok spec.nothing) }
        ensures err { IfErr result (IsReason (spec.nothing_left (context_in self.now).entries)) }
    {
        check_left(
            self.held.as_slice(),
            self.names.as_slice(),
            self.shapes.as_slice(),
        )
    }
}
