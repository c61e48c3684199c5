//! What several statements have.

ghost use Rattle.std.specs.Prelude.{◌≡◌};
ghost use Rattle.grammar_laws.specs.Grammar as g;
ghost use Rattle.surface_grammar.specs.declared.words.Word.TheVariants as w;
ghost use Rattle.surface_grammar.specs.Grammar.{word, ◌▷◌, ◌◁◌};
ghost use Rattle.surface_grammar.specs.Language.{At};
ghost use Rattle.surface_grammar.specs.Operands as operands;
ghost use Rattle.surface_grammar.specs.Statements as spec;
ghost use Rattle.token_cursor.specs.Syntax.{Answers};

use chan_syntax::{Param, Pat, Proof, Start, Starts, Supply, Term};
use operand_parser::{given_values, param, pat, proof, reference, route, shape, term, value};
use sqlite_items::Items;
use surface_grammar::{Access, Called, Named, Target, Word};
use token_cursor::{Cursor, Stop};

#[tactic(auto, unfolding(surface_grammar::specs::Statements::access, token_cursor::specs::Syntax::name_at, surface_grammar::specs::Grammar::name))]
pub fn access(cursor: &mut Cursor<'_>, depth: usize) -> Result<Access, Stop>
    ensures { Answers (At depth spec.access cursor.old) result cursor.new }
{
    let channel = cursor.name()?;
    let route = route(cursor, depth)?;
    let proof = proof(cursor, depth)?;
    Ok(Access {
        channel,
        route,
        proof,
    })
}

#[tactic(auto, unfolding(surface_grammar::specs::Statements::target, token_cursor::specs::Syntax::name_at, surface_grammar::specs::Grammar::name, token_cursor::specs::Syntax::skip))]
pub fn target(cursor: &mut Cursor<'_>, depth: usize) -> Result<Target, Stop>
    ensures { Answers (At depth spec.target cursor.old) result cursor.new }
{
    let channel = cursor.name()?;
    cursor.skip(Word::Colon)?;
    let proto = reference(cursor, depth)?;
    let route = route(cursor, depth)?;
    Ok(Target {
        channel,
        proto,
        route,
    })
}

#[tactic(auto, unfolding(surface_grammar::specs::Statements::call, token_cursor::specs::Syntax::name_at, surface_grammar::specs::Grammar::name))]
pub fn call(cursor: &mut Cursor<'_>, depth: usize) -> Result<Called, Stop>
    ensures { Answers (At depth spec.call cursor.old) result cursor.new }
{
    let func = cursor.name()?;
    let values = given_values(cursor, depth)?;
    let proof = proof(cursor, depth)?;
    Ok(Called {
        func,
        values,
        proof,
    })
}

/// A value, and the proof that it is as it has to be.
pub fn value_and_proof(cursor: &mut Cursor<'_>, depth: usize) -> Result<(Supply, Proof), Stop>
    ensures { Answers (At depth (g.seq (λ x y. (x, y)) operands.value operands.proof) cursor.old) result cursor.new }
{
    let value = value(cursor, depth)?;
    let proof = proof(cursor, depth)?;
    Ok((value, proof))
}

/// The value that a name begins with.
#[tactic(auto, unfolding(token_cursor::specs::Syntax::skip))]
fn first_value(cursor: &mut Cursor<'_>, depth: usize) -> Result<Supply, Stop>
    ensures { Answers (At depth (word w.Equals ▷ operands.value) cursor.old) result cursor.new }
{
    cursor.skip(Word::Equals)?;
    value(cursor, depth)
}

#[tactic(auto, unfolding(surface_grammar::specs::Statements::start, token_cursor::specs::Syntax::name_at, surface_grammar::specs::Grammar::name, token_cursor::specs::Syntax::skip))]
fn start(cursor: &mut Cursor<'_>, depth: usize) -> Result<Start, Stop>
    ensures { Answers (At depth spec.start cursor.old) result cursor.new }
{
    let named = cursor.name()?;
    cursor.skip(Word::Colon)?;
    let shape = shape(cursor, depth)?;
    let value = first_value(cursor, depth)?;
    Ok(Start {
        name: named.name,
        name_span: named.span,
        shape,
        value,
    })
}

#[tactic(auto, unfolding(token_cursor::specs::Syntax::skip))]
fn next_start(cursor: &mut Cursor<'_>, depth: usize) -> Result<Start, Stop>
    ensures { Answers (At depth (word w.Comma ▷ spec.start) cursor.old) result cursor.new }
{
    cursor.skip(Word::Comma)?;
    start(cursor, depth)
}

#[tactic(auto, using(token_cursor::proofs::Turns::one_more, token_cursor::proofs::Turns::no_more), unfolding(surface_grammar::specs::Statements::more_starts, token_cursor::specs::Syntax::sees))]
fn more_starts(cursor: &mut Cursor<'_>, depth: usize) -> Result<Starts, Stop>
    ensures { Answers (At depth spec.more_starts cursor.old) result cursor.new }
{
    let mut found = Items::new(cursor.alloc());
    for _turn in 0..cursor.left() {
        if !cursor.sees(Word::Comma) {
            return Ok(found);
        }
        found.push(next_start(cursor, depth)?)?;
    }
    Ok(found)
}

#[tactic(auto, unfolding(surface_grammar::specs::Statements::starts, token_cursor::specs::Syntax::sees, token_cursor::specs::Syntax::skip))]
fn starts(cursor: &mut Cursor<'_>, depth: usize) -> Result<Starts, Stop>
    ensures { Answers (At depth spec.starts cursor.old) result cursor.new }
{
    let mut found = Items::new(cursor.alloc());
    found.push(start(cursor, depth)?)?;
    for _turn in 0..cursor.left() {
        if !cursor.sees(Word::Comma) {
            return Ok(found);
        }
        found.push(next_start(cursor, depth)?)?;
    }
    Ok(found)
}

/// The starts behind a parameter, to the end of their list.
#[tactic(auto, unfolding(token_cursor::specs::Syntax::skip))]
fn last_starts(cursor: &mut Cursor<'_>, depth: usize) -> Result<Starts, Stop>
    ensures { Answers (At depth (spec.more_starts ◁ word w.RightParen) cursor.old) result cursor.new }
{
    let more = more_starts(cursor, depth)?;
    cursor.skip(Word::RightParen)?;
    Ok(more)
}

#[tactic(auto, using(token_cursor::proofs::Opens::opens_paren), unfolding(surface_grammar::specs::Statements::task_params))]
pub fn task_params(cursor: &mut Cursor<'_>, depth: usize) -> Result<(Param, Starts), Stop>
    ensures { Answers (At depth spec.task_params cursor.old) result cursor.new }
{
    let depth = cursor.open(Word::LeftParen, depth)?;
    let first = param(cursor, depth)?;
    let more = last_starts(cursor, depth)?;
    Ok((first, more))
}

#[tactic(auto, using(token_cursor::proofs::Opens::opens_paren), unfolding(surface_grammar::specs::Statements::loop_params, token_cursor::specs::Syntax::sees, token_cursor::specs::Syntax::skip))]
pub fn loop_params(cursor: &mut Cursor<'_>, depth: usize) -> Result<Starts, Stop>
    ensures { Answers (At depth spec.loop_params cursor.old) result cursor.new }
{
    let depth = cursor.open(Word::LeftParen, depth)?;
    if cursor.sees(Word::RightParen) {
        cursor.skip(Word::RightParen)?;
        return Ok(Items::new(cursor.alloc()));
    }
    let starts = starts(cursor, depth)?;
    cursor.skip(Word::RightParen)?;
    Ok(starts)
}

#[tactic(auto, unfolding(token_cursor::specs::Syntax::skip))]
fn second_pat(cursor: &mut Cursor<'_>, depth: usize) -> Result<Pat, Stop>
    ensures { Answers (At depth (word w.Comma ▷ (operands.pat ◁ word w.RightParen)) cursor.old) result cursor.new }
{
    cursor.skip(Word::Comma)?;
    let pat = pat(cursor, depth)?;
    cursor.skip(Word::RightParen)?;
    Ok(pat)
}

#[tactic(auto, using(token_cursor::proofs::Opens::opens_paren), unfolding(surface_grammar::specs::Statements::two_pats))]
pub fn two_pats(cursor: &mut Cursor<'_>, depth: usize) -> Result<(Pat, Pat), Stop>
    ensures { Answers (At depth spec.two_pats cursor.old) result cursor.new }
{
    let depth = cursor.open(Word::LeftParen, depth)?;
    let first = pat(cursor, depth)?;
    let second = second_pat(cursor, depth)?;
    Ok((first, second))
}

#[tactic(auto, unfolding(surface_grammar::specs::Statements::at_most, token_cursor::specs::Syntax::skip))]
pub fn at_most(cursor: &mut Cursor<'_>, depth: usize) -> Result<(Term, Term), Stop>
    ensures { Answers (At depth spec.at_most cursor.old) result cursor.new }
{
    let left = term(cursor, depth)?;
    cursor.skip(Word::AtMost)?;
    let right = term(cursor, depth)?;
    Ok((left, right))
}

#[tactic(auto, unfolding(surface_grammar::specs::Statements::as_names, token_cursor::specs::Syntax::skip, token_cursor::specs::Syntax::name_at, surface_grammar::specs::Grammar::name))]
pub fn as_names(cursor: &mut Cursor<'_>, depth: usize) -> Result<(Named, Named), Stop>
    ensures { Answers (At depth spec.as_names cursor.old) result cursor.new }
{
    cursor.skip(Word::As)?;
    let bit = cursor.name()?;
    cursor.skip(Word::Comma)?;
    let rest = cursor.name()?;
    Ok((bit, rest))
}
