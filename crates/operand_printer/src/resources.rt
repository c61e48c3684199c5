//! References, shapes, resources and parameters.
#![tactic(auto, using(surface_spelling::proofs::Bytes::byte_rules, std::proofs::lemmas::Grind::common_steps), unfolding(surface_spelling::specs::Operands::res, surface_spelling::specs::Operands::param))]

ghost use Rattle.std.specs.Prelude.{◌≡◌, ◌++◌, OnOk};
ghost use Rattle.chan_syntax.specs.declared.resources.Shape.TheVariants as variant;
ghost use Rattle.surface_spelling.specs.Layout.{bytes, listed};
ghost use Rattle.surface_spelling.specs.Operands as spec;

use crate::terms::put_binds_before;
use crate::words::{Spell, put, put_in_parens};
use chan_base::Memory;
use chan_syntax::{Param, Ref, Res, Shape, Term};
use std::alloc::Global;

#[tactic(auto, using(surface_spelling::proofs::Bytes::byte_rules, std::proofs::lemmas::Grind::common_steps), unfolding(surface_spelling::specs::Operands::reference))]
pub fn put_reference(alloc: Global, text: &mut Vec<u8>, reference: &Ref) -> Result<(), Memory>
    ensures { OnOk result (text.new.items ≡ text.old.items ++ bytes (spec.reference reference.now)) }
{
    if reference.dual {
        put(text, b"~")?;
    }
    put(text, reference.name.as_slice())?;
    put_in_parens(alloc, text, reference.args.as_slice())
}

/// An integer of this value.
#[tactic(auto, using(surface_spelling::proofs::Bytes::byte_rules, surface_spelling::proofs::Spelled::shapes, std::proofs::lemmas::Grind::common_steps))]
fn put_int(alloc: Global, text: &mut Vec<u8>, term: &Term) -> Result<(), Memory>
    ensures { OnOk result (text.new.items ≡ text.old.items ++ bytes (spec.shape (variant.Int term.now))) }
{
    put(text, b"int(")?;
    term.spell(alloc, text)?;
    put(text, b")")
}

/// The end of a channel.
#[tactic(auto, using(surface_spelling::proofs::Bytes::byte_rules, surface_spelling::proofs::Spelled::shapes, std::proofs::lemmas::Grind::common_steps))]
fn put_end(alloc: Global, text: &mut Vec<u8>, reference: &Ref) -> Result<(), Memory>
    ensures { OnOk result (text.new.items ≡ text.old.items ++ bytes (spec.shape (variant.End reference.now))) }
{
    put(text, b"end ")?;
    put_reference(alloc, text, reference)
}

#[cycle(shapes)]
#[tactic(auto, using(surface_spelling::proofs::Bytes::byte_rules, surface_spelling::proofs::Spelled::shapes, std::proofs::lemmas::Grind::common_steps))]
pub fn put_shape(alloc: Global, text: &mut Vec<u8>, shape: &Shape) -> Result<(), Memory>
    ensures { OnOk result (text.new.items ≡ text.old.items ++ bytes (spec.shape shape.now)) }
{
    match shape {
        Shape::Unit => put(text, b"unit"),
        Shape::Int(term) => put_int(alloc, text, term),
        Shape::End(reference) => put_end(alloc, text, reference),
        Shape::Pair(first, second) => {
            put(text, b"(")?;
            put_res(alloc, text, first.get())?;
            put(text, b", ")?;
            put_res(alloc, text, second.get())?;
            put(text, b")")
        }
        Shape::Sum(arms) => {
            put(text, b"sum(")?;
            put_resources(alloc, text, arms.as_slice())?;
            put(text, b")")
        }
    }
}

/// The resources with commas between them.
#[cycle(shapes)]
#[tactic(auto, using(surface_spelling::proofs::Bytes::byte_rules, std::proofs::lemmas::Grind::common_steps), unfolding(surface_spelling::specs::Layout::behind_commas, surface_spelling::specs::Layout::listed))]
fn put_resources(alloc: Global, text: &mut Vec<u8>, resources: &[Res]) -> Result<(), Memory>
    ensures { OnOk result (text.new.items ≡ text.old.items ++ bytes (listed spec.res resources.now)) }
{
    let mut behind = false;
    for res in resources {
        put(text, if behind { b", " } else { b"" })?;
        put_res(alloc, text, res)?;
        behind = true;
    }
    Ok(())
}

#[cycle(shapes)]
pub fn put_res(alloc: Global, text: &mut Vec<u8>, res: &Res) -> Result<(), Memory>
    ensures { OnOk result (text.new.items ≡ text.old.items ++ bytes (spec.res res.now)) }
{
    put_binds_before(alloc, text, &res.bound)?;
    put_shape(alloc, text, &res.shape)
}

impl Spell for Param {
    ghost pieces = { spec.param };

    fn spell(&self, alloc: Global, text: &mut Vec<u8>) -> Result<(), Memory>
        ensures { OnOk result (text.new.items ≡ text.old.items ++ bytes (spec.param self.now)) }
    {
        put(text, self.name.as_slice())?;
        put(text, b": ")?;
        put_shape(alloc, text, &self.shape)
    }
}
