//! Values, patterns, paths, proofs and starts.
#![tactic(auto, using(surface_spelling::proofs::Bytes::byte_rules, std::proofs::lemmas::Grind::common_steps), unfolding(surface_spelling::specs::Operands::values, surface_spelling::specs::Operands::names_behind, surface_spelling::specs::Operands::pat, surface_spelling::specs::Operands::path, surface_spelling::specs::Operands::mention, surface_spelling::specs::Operands::mentions_behind, surface_spelling::specs::Operands::cert, surface_spelling::specs::Operands::instances, surface_spelling::specs::Operands::certificates, surface_spelling::specs::Operands::proof))]

ghost use Rattle.std.specs.Prelude.{◌≡◌, ◌++◌, map, OnOk};
ghost use Rattle.surface_spelling.specs.Layout.{bytes};
ghost use Rattle.surface_spelling.specs.Operands as spec;
ghost use Rattle.surface_spelling.specs.Blocks.{start};

use crate::resources::put_shape;
use crate::words::{Spell, put, put_in_parens, put_listed, put_number};
use chan_base::Memory;
use chan_syntax::{Ident, Letter, Pat, Proof, Start, Supply, Term, WrittenCert, WrittenMention};
use std::alloc::Global;

/// The tag of an arm.
#[tactic(auto, using(surface_spelling::proofs::Bytes::byte_rules, std::proofs::lemmas::Grind::common_steps), unfolding(surface_spelling::specs::Operands::tag))]
pub fn put_tag(alloc: Global, text: &mut Vec<u8>, number: u64) -> Result<(), Memory>
    ensures { OnOk result (text.new.items ≡ text.old.items ++ bytes (spec.tag number)) }
{
    if number == 0 {
        put(text, b"inl")
    } else if number == 1 {
        put(text, b"inr")
    } else {
        put(text, b"#")?;
        put_number(alloc, text, number)
    }
}

#[tactic(auto, using(surface_spelling::proofs::Bytes::byte_rules, surface_spelling::proofs::Spelled::values, std::proofs::lemmas::Grind::common_steps))]
pub fn put_value(alloc: Global, text: &mut Vec<u8>, value: &Supply) -> Result<(), Memory>
    ensures { OnOk result (text.new.items ≡ text.old.items ++ bytes (spec.value value.now)) }
{
    match value {
        Supply::Unit => put(text, b"()"),
        Supply::Pair(first, second) => {
            put(text, b"(")?;
            put_value(alloc, text, first.get())?;
            put(text, b", ")?;
            put_value(alloc, text, second.get())?;
            put(text, b")")
        }
        Supply::Arm(number, inner) => {
            put_tag(alloc, text, u64::from(*number))?;
            put(text, b" ")?;
            put_value(alloc, text, inner.get())
        }
        Supply::Sum(term) => term.spell(alloc, text),
    }
}

impl Spell for Supply {
    ghost pieces = { spec.value };

    fn spell(&self, alloc: Global, text: &mut Vec<u8>) -> Result<(), Memory>
        ensures { OnOk result (text.new.items ≡ text.old.items ++ bytes (spec.value self.now)) }
    {
        put_value(alloc, text, self)
    }
}

/// What a loop or a task starts with.
#[tactic(auto, using(surface_spelling::proofs::Bytes::byte_rules, std::proofs::lemmas::Grind::common_steps), unfolding(surface_spelling::specs::Blocks::start))]
impl Spell for Start {
    ghost pieces = { start };

    fn spell(&self, alloc: Global, text: &mut Vec<u8>) -> Result<(), Memory>
        ensures { OnOk result (text.new.items ≡ text.old.items ++ bytes (start self.now)) }
    {
        put(text, self.name.as_slice())?;
        put(text, b": ")?;
        put_shape(alloc, text, &self.shape)?;
        put(text, b" = ")?;
        put_value(alloc, text, &self.value)
    }
}

/// Values in parentheses.
pub fn put_values(alloc: Global, text: &mut Vec<u8>, values: &[Supply]) -> Result<(), Memory>
    ensures { OnOk result (text.new.items ≡ text.old.items ++ bytes (spec.values values.now)) }
{
    put_in_parens(alloc, text, values)
}

/// Names in brackets, where there are some.
pub fn put_names_behind(alloc: Global, text: &mut Vec<u8>, names: &[Ident]) -> Result<(), Memory>
    ensures { OnOk result (text.new.items ≡ text.old.items ++ bytes (spec.names_behind names.now)) }
{
    if !names.is_empty() {
        put(text, b" [")?;
        put_listed(alloc, text, names)?;
        put(text, b"]")?;
    }
    Ok(())
}

pub fn put_pat(alloc: Global, text: &mut Vec<u8>, pat: &Pat) -> Result<(), Memory>
    ensures { OnOk result (text.new.items ≡ text.old.items ++ bytes (spec.pat pat.now)) }
{
    put(text, pat.name.as_slice())?;
    put_names_behind(alloc, text, pat.names.as_slice())
}

/// Two patterns in parentheses.
#[tactic(auto, using(surface_spelling::proofs::Bytes::byte_rules, std::proofs::lemmas::Grind::common_steps), unfolding(surface_spelling::specs::Operands::two_pats))]
pub fn put_two_pats(
    alloc: Global,
    text: &mut Vec<u8>,
    first: &Pat,
    second: &Pat,
) -> Result<(), Memory>
    ensures { OnOk result (text.new.items ≡ text.old.items ++ bytes (spec.two_pats first.now second.now)) }
{
    put(text, b"(")?;
    put_pat(alloc, text, first)?;
    put(text, b", ")?;
    put_pat(alloc, text, second)?;
    put(text, b")")
}

fn letter_byte(letter: Letter) -> u8
    ensures { result ≡ spec.letter_byte letter }
{
    match letter {
        Letter::Left => b'l',
        Letter::Right => b'r',
    }
}

fn put_letters(text: &mut Vec<u8>, letters: &[Letter]) -> Result<(), Memory>
    ensures { OnOk result (text.new.items ≡ text.old.items ++ map spec.letter_byte letters.now) }
{
    for letter in letters {
        text.push(letter_byte(*letter))?;
    }
    Ok(())
}

/// A path, where it has letters.
pub fn put_path(text: &mut Vec<u8>, path: &[Letter]) -> Result<(), Memory>
    ensures { OnOk result (text.new.items ≡ text.old.items ++ bytes (spec.path path.now)) }
{
    if !path.is_empty() {
        put(text, b" via ")?;
        put_letters(text, path)?;
    }
    Ok(())
}

impl Spell for WrittenMention {
    ghost pieces = { spec.mention };

    fn spell(&self, alloc: Global, text: &mut Vec<u8>) -> Result<(), Memory>
        ensures { OnOk result (text.new.items ≡ text.old.items ++ bytes (spec.mention self.now)) }
    {
        if self.negative {
            put(text, b"-")?;
        }
        put_number(alloc, text, self.factor)?;
        put(text, b" #")?;
        put_number(alloc, text, self.index)
    }
}

/// Mentions behind a divisor.
fn put_mentions_behind(
    alloc: Global,
    text: &mut Vec<u8>,
    mentions: &[WrittenMention],
) -> Result<(), Memory>
    ensures { OnOk result (text.new.items ≡ text.old.items ++ bytes (spec.mentions_behind mentions.now)) }
{
    if !mentions.is_empty() {
        put(text, b" ")?;
        put_listed(alloc, text, mentions)?;
    }
    Ok(())
}

impl Spell for WrittenCert {
    ghost pieces = { spec.cert };

    fn spell(&self, alloc: Global, text: &mut Vec<u8>) -> Result<(), Memory>
        ensures { OnOk result (text.new.items ≡ text.old.items ++ bytes (spec.cert self.now)) }
    {
        put(text, b"{")?;
        if self.divisor == 1 {
            put_listed(alloc, text, self.mentions.as_slice())?;
        } else {
            put_number(alloc, text, self.divisor)?;
            put(text, b":")?;
            put_mentions_behind(alloc, text, self.mentions.as_slice())?;
        }
        put(text, b"}")
    }
}

fn put_instances(alloc: Global, text: &mut Vec<u8>, instances: &[Term]) -> Result<(), Memory>
    ensures { OnOk result (text.new.items ≡ text.old.items ++ bytes (spec.instances instances.now)) }
{
    if !instances.is_empty() {
        put(text, b" with [")?;
        put_listed(alloc, text, instances)?;
        put(text, b"]")?;
    }
    Ok(())
}

fn put_certificates(alloc: Global, text: &mut Vec<u8>, certs: &[WrittenCert]) -> Result<(), Memory>
    ensures { OnOk result (text.new.items ≡ text.old.items ++ bytes (spec.certificates certs.now)) }
{
    if !certs.is_empty() {
        put(text, b" by [")?;
        put_listed(alloc, text, certs)?;
        put(text, b"]")?;
    }
    Ok(())
}

pub fn put_proof(alloc: Global, text: &mut Vec<u8>, proof: &Proof) -> Result<(), Memory>
    ensures { OnOk result (text.new.items ≡ text.old.items ++ bytes (spec.proof proof.now)) }
{
    put_instances(alloc, text, proof.instances.as_slice())?;
    put_certificates(alloc, text, proof.certs.as_slice())
}
