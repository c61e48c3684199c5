//! Words, numbers, lines and lists.
#![tactic(auto, using(surface_spelling::proofs::Bytes::byte_rules, crate::proofs::Spaces::repeat_more, std::proofs::lemmas::Grind::common_steps), unfolding(surface_spelling::specs::Layout::behind_commas, surface_spelling::specs::Layout::listed))]

ghost use Rattle.std.specs.Prelude.{◌≡◌, ◌+◌, [], ◌∷◌, ◌++◌, List, IfOk, OnOk};
ghost use Rattle.std.specs.List.{repeat};
ghost use Rattle.std.specs.Fmt.{decimal};
ghost use Rattle.text_tokens.specs.Text.{Piece};
ghost use Rattle.surface_spelling.specs.Layout.{bytes, line, step, listed, behind_commas, in_parens};
ghost use Rattle.surface_spelling.specs.Operands.{a_name};

use chan_base::Memory;
use chan_syntax::Ident;
use std::alloc::Global;

/// What is written in a list with commas.
pub trait Spell {
    ghost pieces: { Self → List Piece };

    fn spell(&self, alloc: Global, text: &mut Vec<u8>) -> Result<(), Memory>
        ensures { OnOk result (text.new.items ≡ text.old.items ++ bytes (pieces self.now)) };
}

pub fn put(text: &mut Vec<u8>, word: &[u8]) -> Result<(), Memory>
    ensures { OnOk result (text.new.items ≡ text.old.items ++ word.now) }
{
    text.extend_from_slice(word)?;
    Ok(())
}

pub fn put_number(alloc: Global, text: &mut Vec<u8>, number: u64) -> Result<(), Memory>
    ensures { OnOk result (text.new.items ≡ text.old.items ++ decimal number) }
{
    let digits = number.to_string(alloc)?;
    put(text, digits.as_bytes())
}

/// How much deeper the lines of a block stand.
const STEP: usize = 4;

/// No depth that memory can hold comes near the limit of `usize`.
pub fn deeper(depth: usize) -> Result<usize, Memory>
    ensures { IfOk result (λ inner. inner ≡ depth + step) }
{
    depth.checked_add(STEP).ok_or(Memory)
}

fn put_spaces(text: &mut Vec<u8>, count: usize) -> Result<(), Memory>
    ensures { OnOk result (text.new.items ≡ text.old.items ++ repeat count (32 ∷ [])) }
{
    for _turn in 0..count {
        text.push(b' ')?;
    }
    Ok(())
}

/// Starts a line at a depth.
pub fn put_line(text: &mut Vec<u8>, depth: usize) -> Result<(), Memory>
    ensures { OnOk result (text.new.items ≡ text.old.items ++ bytes (line depth)) }
{
    text.push(b'\n')?;
    put_spaces(text, depth)
}

impl Spell for Ident {
    ghost pieces = { a_name };

    fn spell(&self, _: Global, text: &mut Vec<u8>) -> Result<(), Memory>
        ensures { OnOk result (text.new.items ≡ text.old.items ++ bytes (a_name self.now)) }
    {
        put(text, self.as_slice())
    }
}

/// Each item behind a comma.
pub fn put_behind_commas<T: Spell>(
    alloc: Global,
    text: &mut Vec<u8>,
    items: &[T],
) -> Result<(), Memory>
    ensures { OnOk result (text.new.items ≡ text.old.items ++ bytes (behind_commas T.pieces items.now)) }
{
    for item in items {
        put(text, b", ")?;
        item.spell(alloc, text)?;
    }
    Ok(())
}

/// The items with commas between them.
pub fn put_listed<T: Spell>(alloc: Global, text: &mut Vec<u8>, items: &[T]) -> Result<(), Memory>
    ensures { OnOk result (text.new.items ≡ text.old.items ++ bytes (listed T.pieces items.now)) }
{
    if let Some((first, more)) = items.split_first() {
        first.spell(alloc, text)?;
        put_behind_commas(alloc, text, more)?;
    }
    Ok(())
}

/// Items in parentheses.
pub fn put_in_parens<T: Spell>(alloc: Global, text: &mut Vec<u8>, items: &[T]) -> Result<(), Memory>
    ensures { OnOk result (text.new.items ≡ text.old.items ++ bytes (in_parens (listed T.pieces items.now))) }
{
    put(text, b"(")?;
    put_listed(alloc, text, items)?;
    put(text, b")")
}
