//! Entries: held, and taken.
ghost use Rattle.std.specs.Prelude.{◌≡◌, ◌<◌, [], ◌∷◌, ◌++◌, length, slice_set, false, Ok, Err, OnOk, OnErr, IfOk, IfErr};
ghost use Rattle.outline_language.specs.Contexts as spec;
ghost use Rattle.outline_obligations.specs.Reasons.{IsReason};
ghost use Rattle.outline_contexts.specs.Trails.{IsAfter, context_in};
ghost use Rattle.outline_contexts.specs.Reading.{taken_as};

use crate::trail::Context;
use chan_base::Memory;
use chan_syntax::Ident;
use nameless_shapes::Shape;
use outline_obligations::{ContextFault, Why};

fn not_held(name: &Ident) -> ContextFault
    ensures { IsReason {A = spec.Taken} (Err (spec.NotHeld name.now)) result }
{
    match name.copy() {
        Ok(name) => ContextFault::Why(Why::NotHeld(name)),
        Err(_) => ContextFault::Memory,
    }
}

/// The entry at this place is no longer held.
fn release(taken: &mut Vec<usize>, held: &mut Vec<bool>, place: usize) -> Result<(), Memory>
    requires { place < length held.old.items }
    ensures taken { OnOk result (taken.new.items ≡ taken.old.items ++ place ∷ []) }
    ensures held { OnOk result (held.new.items ≡ slice_set held.old.items place false) }
    ensures stays { OnErr result ((taken.new.items ≡ taken.old.items) × (held.new.items ≡ held.old.items)) }
{
    taken.push(place)?;
    held[place] = false;
    Ok(())
}

impl Context {
    /// Adds an entry, which is held.
    pub fn hold(&mut self, name: &Ident, shape: Shape) -> Result<(), Memory>
        ensures context { OnOk result (context_in self.new ≡ spec.hold (context_in self.old) name.now shape) }
        ensures after { IsAfter self.old self.new }
    {
        self.shapes.reserve(1)?;
        self.held.reserve(1)?;
        self.names.push(name)?;
        self.held.push(true)?;
        self.shapes.push(shape)?;
        Ok(())
    }

    /// The shape of a held entry, which is no longer held where an end stands in it.
    pub fn take(&mut self, name: &Ident) -> Result<Shape, ContextFault>
        ensures ok { IfOk result (λ shape. spec.take (context_in self.old) name.now ≡ Ok (taken_as shape self.new)) }
        ensures err { IfErr result (IsReason (spec.take (context_in self.old) name.now)) }
        ensures refused { OnErr result (self.new ≡ self.old) }
        ensures after { IsAfter self.old self.new }
    {
        match self.names.place(name) {
            None => Err(not_held(name)),
            Some(place) => {
                if !self.held[place] {
                    return Err(not_held(name));
                }
                let shape = self.shapes[place].copy()?;
                if shape.has_end() {
                    release(&mut self.taken, &mut self.held, place)?;
                    return Ok(shape);
                }
                Ok(shape)
            }
        }
    }
}
