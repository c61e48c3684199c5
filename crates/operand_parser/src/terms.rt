//! Terms, limits, references and resources.

ghost use Rattle.std.specs.Prelude.{◌≡◌, ℕ, ◌≤◌, [], ◌∷◌, IfOk};
ghost use Rattle.grammar_laws.specs.Grammar.{next_in};
ghost use Rattle.surface_grammar.specs.Words.{code};
ghost use Rattle.surface_grammar.specs.Grammar.{yes};
ghost use Rattle.surface_grammar.specs.Language.{At};
ghost use Rattle.text_tokens.specs.Word.{limit};
ghost use Rattle.surface_grammar.specs.Terms as spec;
ghost use Rattle.token_cursor.specs.Syntax.{Answers};

use chan_syntax::{Part, Ref, Term, TermParts, Terms};
use sqlite_items::Items;
use std::alloc::{AllocError, Global};
use surface_grammar::{Digits, Named, Word};
use token_cursor::{Cursor, Stop};

pub fn part(factor: u64, name: Option<Named>) -> Part
    requires { factor ≤ limit }
    ensures { result ≡ spec.part_of factor name }
{
    let factor = factor as i64;
    match name {
        None => Part {
            negative: false,
            factor,
            name: None,
            name_span: None,
        },
        Some(named) => Part {
            negative: false,
            factor,
            name: Some(named.name),
            name_span: Some(named.span),
        },
    }
}

#[tactic(auto, unfolding(surface_grammar::specs::Terms::times, token_cursor::specs::Syntax::sees, token_cursor::specs::Syntax::skip, token_cursor::specs::Syntax::name_at, surface_grammar::specs::Grammar::name))]
fn times(cursor: &mut Cursor<'_>, depth: usize) -> Result<Option<Named>, Stop>
    ensures { Answers (At depth spec.times cursor.old) result cursor.new }
{
    if cursor.sees(Word::Star) {
        cursor.skip(Word::Star)?;
        Ok(Some(cursor.name()?))
    } else {
        Ok(None)
    }
}

#[tactic(auto, unfolding(surface_grammar::specs::Terms::number_prod, token_cursor::specs::Syntax::number_at, surface_grammar::specs::Grammar::number))]
fn number_prod(cursor: &mut Cursor<'_>, depth: usize) -> Result<Part, Stop>
    ensures { Answers (At depth spec.number_prod cursor.old) result cursor.new }
{
    let digits = cursor.number()?;
    Ok(part(digits.value, times(cursor, depth)?))
}

#[tactic(auto, unfolding(surface_grammar::specs::Terms::prod, token_cursor::specs::Syntax::name_at, surface_grammar::specs::Grammar::name, token_cursor::specs::Syntax::sees_number))]
fn prod(cursor: &mut Cursor<'_>, depth: usize) -> Result<Part, Stop>
    ensures { Answers (At depth spec.prod cursor.old) result cursor.new }
{
    if cursor.sees_number() {
        number_prod(cursor, depth)
    } else {
        Ok(part(1, Some(cursor.name()?)))
    }
}

#[tactic(auto, unfolding(surface_grammar::specs::Terms::minus_prod, token_cursor::specs::Syntax::skip))]
fn minus_prod(cursor: &mut Cursor<'_>, depth: usize) -> Result<Part, Stop>
    ensures { Answers (At depth spec.minus_prod cursor.old) result cursor.new }
{
    cursor.skip(Word::Minus)?;
    let part = prod(cursor, depth)?;
    Ok(Part {
        negative: true,
        ..part
    })
}

#[tactic(auto, unfolding(surface_grammar::specs::Terms::first_part, token_cursor::specs::Syntax::sees))]
fn first_part(cursor: &mut Cursor<'_>, depth: usize) -> Result<Part, Stop>
    ensures { Answers (At depth spec.first_part cursor.old) result cursor.new }
{
    if cursor.sees(Word::Minus) {
        minus_prod(cursor, depth)
    } else {
        prod(cursor, depth)
    }
}

#[tactic(auto, unfolding(surface_grammar::specs::Terms::next_part, token_cursor::specs::Syntax::sees, token_cursor::specs::Syntax::skip))]
fn next_part(cursor: &mut Cursor<'_>, depth: usize) -> Result<Part, Stop>
    ensures { Answers (At depth spec.next_part cursor.old) result cursor.new }
{
    if cursor.sees(Word::Plus) {
        cursor.skip(Word::Plus)?;
        prod(cursor, depth)
    } else {
        minus_prod(cursor, depth)
    }
}

fn sees_sign(cursor: &Cursor<'_>) -> bool
    ensures { result ≡ next_in code (yes (Word.Plus ∷ Word.Minus ∷ [])) cursor.now }
{
    cursor.sees_any(&[Word::Plus, Word::Minus])
}

#[tactic(auto, using(token_cursor::proofs::Turns::one_more, token_cursor::proofs::Turns::no_more), unfolding(surface_grammar::specs::Terms::more_parts))]
pub fn more_parts(cursor: &mut Cursor<'_>, depth: usize) -> Result<TermParts, Stop>
    ensures { Answers (At depth spec.more_parts cursor.old) result cursor.new }
{
    let mut found = Items::new(cursor.alloc());
    for _turn in 0..cursor.left() {
        if !sees_sign(cursor) {
            return Ok(found);
        }
        found.push(next_part(cursor, depth)?)?;
    }
    Ok(found)
}

/// The first part, with room for no other: most terms have one.
fn alone(alloc: Global, first: Part) -> Result<TermParts, AllocError>
    ensures { IfOk result (λ parts. parts ≡ first ∷ []) }
{
    let mut parts = Vec::with_capacity(alloc, 1)?;
    parts.push(first)?;
    Ok(Items::from_vec(parts))
}

#[tactic(auto, unfolding(surface_grammar::specs::Terms::term))]
pub fn term(cursor: &mut Cursor<'_>, depth: usize) -> Result<Term, Stop>
    ensures { Answers (At depth spec.term cursor.old) result cursor.new }
{
    let start = cursor.mark();
    let first = first_part(cursor, depth)?;
    let mut parts = alone(cursor.alloc(), first)?;
    parts.append(more_parts(cursor, depth)?)?;
    Ok(Term {
        parts,
        span: cursor.since(&start),
    })
}

#[tactic(auto, unfolding(surface_grammar::specs::Terms::number_part, token_cursor::specs::Syntax::sees))]
fn number_part(cursor: &mut Cursor<'_>, depth: usize) -> Result<Part, Stop>
    ensures { Answers (At depth spec.number_part cursor.old) result cursor.new }
{
    if cursor.sees(Word::Minus) {
        minus_prod(cursor, depth)
    } else {
        number_prod(cursor, depth)
    }
}

/// A term that doesn't begin with a NAME.
#[tactic(auto, unfolding(surface_grammar::specs::Terms::number_term))]
pub fn number_term(cursor: &mut Cursor<'_>, depth: usize) -> Result<Term, Stop>
    ensures { Answers (At depth spec.number_term cursor.old) result cursor.new }
{
    let start = cursor.mark();
    let first = number_part(cursor, depth)?;
    let mut parts = alone(cursor.alloc(), first)?;
    parts.append(more_parts(cursor, depth)?)?;
    Ok(Term {
        parts,
        span: cursor.since(&start),
    })
}

#[tactic(auto, unfolding(surface_grammar::specs::Terms::terms, token_cursor::specs::Syntax::sees, token_cursor::specs::Syntax::skip))]
pub fn terms(cursor: &mut Cursor<'_>, depth: usize) -> Result<Terms, Stop>
    ensures { Answers (At depth spec.terms cursor.old) result cursor.new }
{
    let mut found = Items::new(cursor.alloc());
    found.push(term(cursor, depth)?)?;
    for _turn in 0..cursor.left() {
        if !cursor.sees(Word::Comma) {
            return Ok(found);
        }
        cursor.skip(Word::Comma)?;
        found.push(term(cursor, depth)?)?;
    }
    Ok(found)
}

#[tactic(auto, using(token_cursor::proofs::Opens::opens_paren), unfolding(surface_grammar::specs::Terms::one_term, token_cursor::specs::Syntax::skip))]
pub fn one_term(cursor: &mut Cursor<'_>, depth: usize) -> Result<Term, Stop>
    ensures { Answers (At depth spec.one_term cursor.old) result cursor.new }
{
    let depth = cursor.open(Word::LeftParen, depth)?;
    let term = term(cursor, depth)?;
    cursor.skip(Word::RightParen)?;
    Ok(term)
}

#[tactic(auto, using(token_cursor::proofs::Opens::opens_paren), unfolding(surface_grammar::specs::Terms::two_terms, token_cursor::specs::Syntax::skip))]
pub fn two_terms(cursor: &mut Cursor<'_>, depth: usize) -> Result<(Term, Term), Stop>
    ensures { Answers (At depth spec.two_terms cursor.old) result cursor.new }
{
    let depth = cursor.open(Word::LeftParen, depth)?;
    let left = term(cursor, depth)?;
    cursor.skip(Word::Comma)?;
    let right = term(cursor, depth)?;
    cursor.skip(Word::RightParen)?;
    Ok((left, right))
}

#[tactic(auto, using(token_cursor::proofs::Opens::opens_paren), unfolding(surface_grammar::specs::Terms::term_and_number, token_cursor::specs::Syntax::skip, token_cursor::specs::Syntax::number_at, surface_grammar::specs::Grammar::number))]
pub fn term_and_number(cursor: &mut Cursor<'_>, depth: usize) -> Result<(Term, Digits), Stop>
    ensures { Answers (At depth spec.term_and_number cursor.old) result cursor.new }
{
    let depth = cursor.open(Word::LeftParen, depth)?;
    let term = term(cursor, depth)?;
    cursor.skip(Word::Comma)?;
    let divisor = cursor.number()?;
    cursor.skip(Word::RightParen)?;
    Ok((term, divisor))
}

#[tactic(auto, using(token_cursor::proofs::Opens::opens_paren), unfolding(surface_grammar::specs::Terms::args, token_cursor::specs::Syntax::sees, token_cursor::specs::Syntax::skip))]
fn args(cursor: &mut Cursor<'_>, depth: usize) -> Result<Terms, Stop>
    ensures { Answers (At depth spec.args cursor.old) result cursor.new }
{
    let depth = cursor.open(Word::LeftParen, depth)?;
    if cursor.sees(Word::RightParen) {
        cursor.skip(Word::RightParen)?;
        return Ok(Items::new(cursor.alloc()));
    }
    let terms = terms(cursor, depth)?;
    cursor.skip(Word::RightParen)?;
    Ok(terms)
}

#[tactic(auto, unfolding(surface_grammar::specs::Terms::dual, token_cursor::specs::Syntax::sees, token_cursor::specs::Syntax::skip))]
fn dual(cursor: &mut Cursor<'_>, depth: usize) -> Result<bool, Stop>
    ensures { Answers (At depth spec.dual cursor.old) result cursor.new }
{
    if cursor.sees(Word::Tilde) {
        cursor.skip(Word::Tilde)?;
        Ok(true)
    } else {
        Ok(false)
    }
}

/// A reference.
#[tactic(auto, unfolding(surface_grammar::specs::Terms::reference, token_cursor::specs::Syntax::name_at, surface_grammar::specs::Grammar::name))]
pub fn reference(cursor: &mut Cursor<'_>, depth: usize) -> Result<Ref, Stop>
    ensures { Answers (At depth spec.reference cursor.old) result cursor.new }
{
    let start = cursor.mark();
    let dual = dual(cursor, depth)?;
    let named = cursor.name()?;
    let args = args(cursor, depth)?;
    Ok(Ref {
        dual,
        name: named.name,
        name_span: named.span,
        args,
        span: cursor.since(&start),
    })
}
