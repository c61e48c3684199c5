//! Linear terms, limits and binders.
#![tactic(auto, using(surface_spelling::proofs::Bytes::byte_rules, std::proofs::lemmas::Grind::common_steps), unfolding(surface_spelling::specs::Operands::product, surface_spelling::specs::Operands::first_part, surface_spelling::specs::Operands::next_part, surface_spelling::specs::Operands::more_parts, surface_spelling::specs::Operands::term, surface_spelling::specs::Operands::sum, surface_spelling::specs::Operands::limit, surface_spelling::specs::Operands::limits, surface_spelling::specs::Operands::binds, surface_spelling::specs::Operands::binds_before, surface_spelling::specs::Operands::binds_behind))]

ghost use Rattle.std.specs.Prelude.{◌≡◌, [], ◌∷◌, ◌++◌, unsigned_abs, OnOk};
ghost use Rattle.surface_spelling.specs.Layout.{bytes};
ghost use Rattle.surface_spelling.specs.Operands as spec;

use crate::words::{Spell, put, put_listed, put_number};
use chan_base::Memory;
use chan_syntax::{Bound, Limit, Part, Relation, Term};
use std::alloc::Global;

fn put_product(alloc: Global, text: &mut Vec<u8>, part: &Part) -> Result<(), Memory>
    ensures { OnOk result (text.new.items ≡ text.old.items ++ bytes (spec.product (unsigned_abs part.now.factor) part.now.name)) }
{
    let factor = part.factor.unsigned_abs();
    match &part.name {
        None => put_number(alloc, text, factor),
        Some(name) if factor == 1 => put(text, name.as_slice()),
        Some(name) => {
            put_number(alloc, text, factor)?;
            put(text, b"*")?;
            put(text, name.as_slice())
        }
    }
}

#[tactic(auto, using(std::proofs::lemmas::Grind::common_steps), unfolding(surface_spelling::specs::Operands::has_minus))]
fn has_minus(part: &Part) -> bool
    ensures { result ≡ spec.has_minus part.now }
{
    part.negative || part.factor.is_negative()
}

fn put_first_part(alloc: Global, text: &mut Vec<u8>, part: &Part) -> Result<(), Memory>
    ensures { OnOk result (text.new.items ≡ text.old.items ++ bytes (spec.first_part part.now)) }
{
    if has_minus(part) {
        put(text, b"-")?;
    }
    put_product(alloc, text, part)
}

fn put_next_part(alloc: Global, text: &mut Vec<u8>, part: &Part) -> Result<(), Memory>
    ensures { OnOk result (text.new.items ≡ text.old.items ++ bytes (spec.next_part part.now)) }
{
    put(text, if has_minus(part) { b" - " } else { b" + " })?;
    put_product(alloc, text, part)
}

fn put_more_parts(alloc: Global, text: &mut Vec<u8>, parts: &[Part]) -> Result<(), Memory>
    ensures { OnOk result (text.new.items ≡ text.old.items ++ bytes (spec.more_parts parts.now)) }
{
    for part in parts {
        put_next_part(alloc, text, part)?;
    }
    Ok(())
}

impl Spell for Term {
    ghost pieces = { spec.term };

    fn spell(&self, alloc: Global, text: &mut Vec<u8>) -> Result<(), Memory>
        ensures { OnOk result (text.new.items ≡ text.old.items ++ bytes (spec.term self.now)) }
    {
        match self.parts.as_slice().split_first() {
            None => put_number(alloc, text, 0),
            Some((first, more)) => {
                put_first_part(alloc, text, first)?;
                put_more_parts(alloc, text, more)
            }
        }
    }
}

/// The mark of a relation, with its spaces.
fn relation_mark(relation: Relation) -> &'static [u8]
    ensures { result.now ≡ 32 ∷ bytes (spec.relation_mark relation ∷ []) ++ 32 ∷ [] }
{
    match relation {
        Relation::AtMost => b" <= ",
        Relation::Less => b" < ",
        Relation::Same => b" = ",
    }
}

impl Spell for Limit {
    ghost pieces = { spec.limit };

    fn spell(&self, alloc: Global, text: &mut Vec<u8>) -> Result<(), Memory>
        ensures { OnOk result (text.new.items ≡ text.old.items ++ bytes (spec.limit self.now)) }
    {
        self.left.spell(alloc, text)?;
        put(text, relation_mark(self.relation))?;
        self.right.spell(alloc, text)
    }
}

fn put_limits(alloc: Global, text: &mut Vec<u8>, limits: &[Limit]) -> Result<(), Memory>
    ensures { OnOk result (text.new.items ≡ text.old.items ++ bytes (spec.limits limits.now)) }
{
    if !limits.is_empty() {
        put(text, b": ")?;
        put_listed(alloc, text, limits)?;
    }
    Ok(())
}

fn put_binds(alloc: Global, text: &mut Vec<u8>, bound: &Bound) -> Result<(), Memory>
    ensures { OnOk result (text.new.items ≡ text.old.items ++ bytes (spec.binds bound.now.names bound.now.limits)) }
{
    put(text, b"[")?;
    put_listed(alloc, text, bound.names.as_slice())?;
    put_limits(alloc, text, bound.limits.as_slice())?;
    put(text, b"]")
}

/// The binders of a resource, where there are some.
pub fn put_binds_before(alloc: Global, text: &mut Vec<u8>, bound: &Bound) -> Result<(), Memory>
    ensures { OnOk result (text.new.items ≡ text.old.items ++ bytes (spec.binds_before bound.now.names bound.now.limits)) }
{
    if !bound.names.is_empty() || !bound.limits.is_empty() {
        put_binds(alloc, text, bound)?;
        put(text, b" ")?;
    }
    Ok(())
}

/// The binders of a header, where there are some.
pub fn put_binds_behind(alloc: Global, text: &mut Vec<u8>, bound: &Bound) -> Result<(), Memory>
    ensures { OnOk result (text.new.items ≡ text.old.items ++ bytes (spec.binds_behind bound.now.names bound.now.limits)) }
{
    if !bound.names.is_empty() || !bound.limits.is_empty() {
        put(text, b" ")?;
        put_binds(alloc, text, bound)?;
    }
    Ok(())
}
