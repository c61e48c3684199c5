//! Values, patterns and paths.

ghost use Rattle.std.specs.Prelude.{◌≡◌, None, []};
ghost use Rattle.chan_syntax.specs.declared.operands.Supply.TheVariants as v;
ghost use Rattle.grammar_laws.specs.Grammar.{call};
ghost use Rattle.surface_grammar.specs.Grammar.{AValue};
ghost use Rattle.surface_grammar.specs.Language.{At};
ghost use Rattle.surface_grammar.specs.Operands as spec;
ghost use Rattle.token_cursor.specs.Syntax.{Answers};

use crate::name_lists::names;
use crate::terms::term;
use chan_syntax::{Pat, Supplies, Supply};
use sqlite_items::{Boxed, Items};
use surface_grammar::{Names, Route, Word};
use token_cursor::{Cursor, Stop};

#[cycle(value)]
#[tactic(auto, using(token_cursor::proofs::Opens::value_is), unfolding(surface_grammar::specs::Operands::pair, token_cursor::specs::Syntax::skip))]
fn pair(cursor: &mut Cursor<'_>, depth: usize) -> Result<Supply, Stop>
    ensures { Answers (At depth spec.pair cursor.old) result cursor.new }
{
    let first = Boxed::new(cursor.alloc(), value(cursor, depth)?)?;
    cursor.skip(Word::Comma)?;
    let second = Boxed::new(cursor.alloc(), value(cursor, depth)?)?;
    cursor.skip(Word::RightParen)?;
    Ok(Supply::Pair(first, second))
}

#[cycle(value)]
#[tactic(auto, unfolding(surface_grammar::specs::Operands::parenthesized, token_cursor::specs::Syntax::sees, token_cursor::specs::Syntax::skip))]
fn parenthesized(cursor: &mut Cursor<'_>, depth: usize) -> Result<Supply, Stop>
    ensures { Answers (At depth spec.parenthesized cursor.old) result cursor.new }
{
    if cursor.sees(Word::RightParen) {
        cursor.skip(Word::RightParen)?;
        Ok(Supply::Unit)
    } else {
        pair(cursor, depth)
    }
}

/// The value of the arm with this number.
#[cycle(value)]
#[tactic(auto, using(token_cursor::proofs::Opens::value_is))]
fn arm(cursor: &mut Cursor<'_>, depth: usize, number: u8) -> Result<Supply, Stop>
    ensures { Answers (At depth (call AValue (v.Arm number)) cursor.old) result cursor.new }
{
    let value = Boxed::new(cursor.alloc(), value(cursor, depth)?)?;
    Ok(Supply::Arm(number, value))
}

#[cycle(value)]
#[tactic(auto, using(token_cursor::proofs::Opens::value_is), unfolding(surface_grammar::specs::Operands::numbered_value, token_cursor::specs::Syntax::arm_number_at, surface_grammar::specs::Grammar::arm_number))]
fn numbered_value(cursor: &mut Cursor<'_>, depth: usize) -> Result<Supply, Stop>
    ensures { Answers (At depth spec.numbered_value cursor.old) result cursor.new }
{
    let number = cursor.arm_number()?;
    let value = Boxed::new(cursor.alloc(), value(cursor, depth)?)?;
    Ok(Supply::Arm(number, value))
}

#[cycle(value)]
#[tactic(auto, using(token_cursor::proofs::Opens::opens_paren, token_cursor::proofs::Opens::opens_inl, token_cursor::proofs::Opens::opens_inr, token_cursor::proofs::Opens::opens_hash), unfolding(surface_grammar::specs::Operands::value, token_cursor::specs::Syntax::sees))]
pub fn value(cursor: &mut Cursor<'_>, depth: usize) -> Result<Supply, Stop>
    ensures { Answers (At depth spec.value cursor.old) result cursor.new }
{
    if cursor.sees(Word::LeftParen) {
        let inner = cursor.open(Word::LeftParen, depth)?;
        parenthesized(cursor, inner)
    } else if cursor.sees(Word::Inl) {
        let inner = cursor.open(Word::Inl, depth)?;
        arm(cursor, inner, 0)
    } else if cursor.sees(Word::Inr) {
        let inner = cursor.open(Word::Inr, depth)?;
        arm(cursor, inner, 1)
    } else if cursor.sees(Word::Hash) {
        let inner = cursor.open(Word::Hash, depth)?;
        numbered_value(cursor, inner)
    } else {
        Ok(Supply::Sum(term(cursor, depth)?))
    }
}

#[tactic(auto, unfolding(surface_grammar::specs::Operands::values, token_cursor::specs::Syntax::sees, token_cursor::specs::Syntax::skip))]
fn values(cursor: &mut Cursor<'_>, depth: usize) -> Result<Supplies, Stop>
    ensures { Answers (At depth spec.values cursor.old) result cursor.new }
{
    let mut found = Items::new(cursor.alloc());
    found.push(value(cursor, depth)?)?;
    for _turn in 0..cursor.left() {
        if !cursor.sees(Word::Comma) {
            return Ok(found);
        }
        cursor.skip(Word::Comma)?;
        found.push(value(cursor, depth)?)?;
    }
    Ok(found)
}

#[tactic(auto, using(token_cursor::proofs::Opens::opens_paren), unfolding(surface_grammar::specs::Operands::given_values, token_cursor::specs::Syntax::sees, token_cursor::specs::Syntax::skip))]
pub fn given_values(cursor: &mut Cursor<'_>, depth: usize) -> Result<Supplies, Stop>
    ensures { Answers (At depth spec.given_values cursor.old) result cursor.new }
{
    let depth = cursor.open(Word::LeftParen, depth)?;
    if cursor.sees(Word::RightParen) {
        cursor.skip(Word::RightParen)?;
        return Ok(Items::new(cursor.alloc()));
    }
    let values = values(cursor, depth)?;
    cursor.skip(Word::RightParen)?;
    Ok(values)
}

#[tactic(auto, using(token_cursor::proofs::Opens::opens_bracket), unfolding(surface_grammar::specs::Operands::bracketed, token_cursor::specs::Syntax::skip))]
pub fn bracketed(cursor: &mut Cursor<'_>, depth: usize) -> Result<Names, Stop>
    ensures { Answers (At depth spec.bracketed cursor.old) result cursor.new }
{
    let depth = cursor.open(Word::LeftBracket, depth)?;
    let names = names(cursor, depth)?;
    cursor.skip(Word::RightBracket)?;
    Ok(names)
}

pub fn no_names(cursor: &Cursor<'_>) -> Names
    ensures { result ≡ spec.no_names }
{
    Names {
        names: Items::new(cursor.alloc()),
        spans: Items::new(cursor.alloc()),
    }
}

#[tactic(auto, unfolding(surface_grammar::specs::Operands::names_if_any, token_cursor::specs::Syntax::sees))]
fn names_if_any(cursor: &mut Cursor<'_>, depth: usize) -> Result<Names, Stop>
    ensures { Answers (At depth spec.names_if_any cursor.old) result cursor.new }
{
    if cursor.sees(Word::LeftBracket) {
        bracketed(cursor, depth)
    } else {
        Ok(no_names(cursor))
    }
}

/// A pattern.
#[tactic(auto, unfolding(surface_grammar::specs::Operands::pat, token_cursor::specs::Syntax::name_at, surface_grammar::specs::Grammar::name))]
pub fn pat(cursor: &mut Cursor<'_>, depth: usize) -> Result<Pat, Stop>
    ensures { Answers (At depth spec.pat cursor.old) result cursor.new }
{
    let named = cursor.name()?;
    let names = names_if_any(cursor, depth)?;
    Ok(Pat {
        name: named.name,
        name_span: named.span,
        names: names.names,
        names_spans: names.spans,
    })
}

/// A path, or none.
#[tactic(auto, unfolding(surface_grammar::specs::Operands::route, token_cursor::specs::Syntax::sees, token_cursor::specs::Syntax::skip, token_cursor::specs::Syntax::letters_at, surface_grammar::specs::Grammar::letters))]
pub fn route(cursor: &mut Cursor<'_>, depth: usize) -> Result<Route, Stop>
    ensures { Answers (At depth spec.route cursor.old) result cursor.new }
{
    if cursor.sees(Word::Via) {
        cursor.skip(Word::Via)?;
        cursor.letters()
    } else {
        Ok(Route {
            path: Items::new(cursor.alloc()),
            span: None,
        })
    }
}
