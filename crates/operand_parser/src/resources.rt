//! Limits, binders and resources.

ghost use Rattle.std.specs.Prelude.{◌≡◌, [], ◌∷◌};
ghost use Rattle.chan_syntax.specs.declared.resources.Shape.TheVariants as s;
ghost use Rattle.surface_grammar.specs.declared.words.Word.TheVariants as w;
ghost use Rattle.surface_grammar.specs.Grammar.{word, ◌▷◌, ◌⇒◌, more_arms_than_two};
ghost use Rattle.surface_grammar.specs.Language.{At};
ghost use Rattle.surface_grammar.specs.Terms as spec;
ghost use Rattle.token_cursor.specs.Syntax.{Answers, up_to_turns};

use crate::name_lists::names;
use crate::terms::{one_term, reference, term};
use chan_syntax::{Bound, Limit, Limits, Param, Relation, Res, Resources, Shape};
use sqlite_items::{Boxed, Items};
use surface_grammar::Word;
use token_cursor::{Cursor, MORE_ARMS_THAN_TWO, Stop};

#[tactic(auto, unfolding(surface_grammar::specs::Terms::relation, token_cursor::specs::Syntax::sees, token_cursor::specs::Syntax::skip))]
fn relation(cursor: &mut Cursor<'_>, depth: usize) -> Result<Relation, Stop>
    ensures { Answers (At depth spec.relation cursor.old) result cursor.new }
{
    if cursor.sees(Word::AtMost) {
        cursor.skip(Word::AtMost)?;
        Ok(Relation::AtMost)
    } else if cursor.sees(Word::Less) {
        cursor.skip(Word::Less)?;
        Ok(Relation::Less)
    } else {
        cursor.skip(Word::Equals)?;
        Ok(Relation::Same)
    }
}

#[tactic(auto, unfolding(surface_grammar::specs::Terms::limit))]
fn limit(cursor: &mut Cursor<'_>, depth: usize) -> Result<Limit, Stop>
    ensures { Answers (At depth spec.limit cursor.old) result cursor.new }
{
    let left = term(cursor, depth)?;
    let relation = relation(cursor, depth)?;
    let right = term(cursor, depth)?;
    Ok(Limit {
        left,
        relation,
        right,
    })
}

#[tactic(auto, unfolding(surface_grammar::specs::Terms::limits, token_cursor::specs::Syntax::sees, token_cursor::specs::Syntax::skip))]
fn limits(cursor: &mut Cursor<'_>, depth: usize) -> Result<Limits, Stop>
    ensures { Answers (At depth spec.limits cursor.old) result cursor.new }
{
    let mut found = Items::new(cursor.alloc());
    found.push(limit(cursor, depth)?)?;
    for _turn in 0..cursor.left() {
        if !cursor.sees(Word::Comma) {
            return Ok(found);
        }
        cursor.skip(Word::Comma)?;
        found.push(limit(cursor, depth)?)?;
    }
    Ok(found)
}

#[tactic(auto, unfolding(surface_grammar::specs::Terms::limits_to_bracket, token_cursor::specs::Syntax::sees, token_cursor::specs::Syntax::skip))]
fn limits_to_bracket(cursor: &mut Cursor<'_>, depth: usize) -> Result<Limits, Stop>
    ensures { Answers (At depth spec.limits_to_bracket cursor.old) result cursor.new }
{
    if cursor.sees(Word::Colon) {
        cursor.skip(Word::Colon)?;
        let limits = limits(cursor, depth)?;
        cursor.skip(Word::RightBracket)?;
        Ok(limits)
    } else {
        cursor.skip(Word::RightBracket)?;
        Ok(Items::new(cursor.alloc()))
    }
}

#[tactic(auto, using(token_cursor::proofs::Opens::opens_bracket), unfolding(surface_grammar::specs::Terms::binds))]
fn binds(cursor: &mut Cursor<'_>, depth: usize) -> Result<Bound, Stop>
    ensures { Answers (At depth spec.binds cursor.old) result cursor.new }
{
    let depth = cursor.open(Word::LeftBracket, depth)?;
    let names = names(cursor, depth)?;
    let limits = limits_to_bracket(cursor, depth)?;
    Ok(Bound {
        names: names.names,
        names_spans: names.spans,
        limits,
    })
}

/// Binders, or none.
#[tactic(auto, unfolding(surface_grammar::specs::Terms::bound, token_cursor::specs::Syntax::sees))]
pub fn bound(cursor: &mut Cursor<'_>, depth: usize) -> Result<Bound, Stop>
    ensures { Answers (At depth spec.bound cursor.old) result cursor.new }
{
    if cursor.sees(Word::LeftBracket) {
        binds(cursor, depth)
    } else {
        Ok(Bound {
            names: Items::new(cursor.alloc()),
            names_spans: Items::new(cursor.alloc()),
            limits: Items::new(cursor.alloc()),
        })
    }
}

#[cycle(res)]
#[tactic(auto, using(token_cursor::proofs::Opens::opens_paren, token_cursor::proofs::Opens::res_is), unfolding(surface_grammar::specs::Terms::two_res, token_cursor::specs::Syntax::skip))]
fn two_res(cursor: &mut Cursor<'_>, depth: usize) -> Result<(Boxed<Res>, Boxed<Res>), Stop>
    ensures { Answers (At depth spec.two_res cursor.old) result cursor.new }
{
    let depth = cursor.open(Word::LeftParen, depth)?;
    let first = Boxed::new(cursor.alloc(), res(cursor, depth)?)?;
    cursor.skip(Word::Comma)?;
    let second = Boxed::new(cursor.alloc(), res(cursor, depth)?)?;
    cursor.skip(Word::RightParen)?;
    Ok((first, second))
}

#[cycle(res)]
#[tactic(auto, using(token_cursor::proofs::Opens::res_is), unfolding(surface_grammar::specs::Terms::next_res, token_cursor::specs::Syntax::skip))]
fn next_res(cursor: &mut Cursor<'_>, depth: usize) -> Result<Res, Stop>
    ensures { Answers (At depth spec.next_res cursor.old) result cursor.new }
{
    cursor.skip(Word::Comma)?;
    res(cursor, depth)
}

/// The resources of a sum, behind those that are found.
#[cycle(res)]
#[tactic(auto, unfolding(token_cursor::specs::Syntax::sees))]
fn more_res(cursor: &mut Cursor<'_>, depth: usize, found: Resources) -> Result<Resources, Stop>
    ensures { Answers (up_to_turns depth (w.Comma ∷ []) spec.next_res more_arms_than_two found cursor.old) result cursor.new }
{
    let mut found = found;
    for _turn in 0..MORE_ARMS_THAN_TWO {
        if !cursor.sees(Word::Comma) {
            return Ok(found);
        }
        let next = next_res(cursor, depth)?;
        found.push(next)?;
    }
    Ok(found)
}

#[cycle(res)]
#[tactic(auto, using(token_cursor::proofs::Opens::opens_paren, token_cursor::proofs::Opens::res_is), unfolding(surface_grammar::specs::Terms::sum_res, surface_grammar::specs::Terms::more_res, token_cursor::specs::Syntax::skip))]
fn sum_res(cursor: &mut Cursor<'_>, depth: usize) -> Result<Resources, Stop>
    ensures { Answers (At depth spec.sum_res cursor.old) result cursor.new }
{
    let depth = cursor.open(Word::LeftParen, depth)?;
    let mut found = Items::new(cursor.alloc());
    found.push(res(cursor, depth)?)?;
    found.push(next_res(cursor, depth)?)?;
    let found = more_res(cursor, depth, found)?;
    cursor.skip(Word::RightParen)?;
    Ok(found)
}

#[tactic(auto, unfolding(token_cursor::specs::Syntax::skip))]
fn int_shape(cursor: &mut Cursor<'_>, depth: usize) -> Result<Shape, Stop>
    ensures { Answers (At depth (word w.Int ▷ (spec.one_term ⇒ s.Int)) cursor.old) result cursor.new }
{
    cursor.skip(Word::Int)?;
    Ok(Shape::Int(one_term(cursor, depth)?))
}

#[tactic(auto, unfolding(token_cursor::specs::Syntax::skip))]
fn end_shape(cursor: &mut Cursor<'_>, depth: usize) -> Result<Shape, Stop>
    ensures { Answers (At depth (word w.End ▷ (spec.reference ⇒ s.End)) cursor.old) result cursor.new }
{
    cursor.skip(Word::End)?;
    Ok(Shape::End(reference(cursor, depth)?))
}

#[cycle(res)]
#[tactic(auto, unfolding(token_cursor::specs::Syntax::skip))]
fn sum_shape(cursor: &mut Cursor<'_>, depth: usize) -> Result<Shape, Stop>
    ensures { Answers (At depth (word w.Sum ▷ (spec.sum_res ⇒ s.Sum)) cursor.old) result cursor.new }
{
    cursor.skip(Word::Sum)?;
    Ok(Shape::Sum(sum_res(cursor, depth)?))
}

#[cycle(res)]
#[tactic(auto, unfolding(surface_grammar::specs::Terms::shape, token_cursor::specs::Syntax::sees, token_cursor::specs::Syntax::skip))]
pub fn shape(cursor: &mut Cursor<'_>, depth: usize) -> Result<Shape, Stop>
    ensures { Answers (At depth spec.shape cursor.old) result cursor.new }
{
    if cursor.sees(Word::Unit) {
        cursor.skip(Word::Unit)?;
        Ok(Shape::Unit)
    } else if cursor.sees(Word::Int) {
        int_shape(cursor, depth)
    } else if cursor.sees(Word::End) {
        end_shape(cursor, depth)
    } else if cursor.sees(Word::Sum) {
        sum_shape(cursor, depth)
    } else {
        let (first, second) = two_res(cursor, depth)?;
        Ok(Shape::Pair(first, second))
    }
}

#[cycle(res)]
#[tactic(auto, unfolding(surface_grammar::specs::Terms::res))]
pub fn res(cursor: &mut Cursor<'_>, depth: usize) -> Result<Res, Stop>
    ensures { Answers (At depth spec.res cursor.old) result cursor.new }
{
    let bound = bound(cursor, depth)?;
    let shape = shape(cursor, depth)?;
    Ok(Res { bound, shape })
}

#[tactic(auto, unfolding(surface_grammar::specs::Terms::param, token_cursor::specs::Syntax::skip, token_cursor::specs::Syntax::name_at, surface_grammar::specs::Grammar::name))]
pub fn param(cursor: &mut Cursor<'_>, depth: usize) -> Result<Param, Stop>
    ensures { Answers (At depth spec.param cursor.old) result cursor.new }
{
    let named = cursor.name()?;
    cursor.skip(Word::Colon)?;
    let shape = shape(cursor, depth)?;
    Ok(Param {
        name: named.name,
        name_span: named.span,
        shape,
    })
}
