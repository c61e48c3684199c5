//! Programs and their declarations.

ghost use Rattle.std.specs.Prelude.{◌≡◌, [], ◌∷◌};
ghost use Rattle.chan_syntax.specs.declared.resources.Equation.TheVariants as e;
ghost use Rattle.grammar_laws.specs.Grammar as g;
ghost use Rattle.grammar_laws.specs.Grammar.{next_in};
ghost use Rattle.surface_grammar.specs.Words.{code};
ghost use Rattle.surface_grammar.specs.declared.words.Word.TheVariants as w;
ghost use Rattle.surface_grammar.specs.Grammar.{ABlock, word, ◌▷◌, ◌◁◌, yes, more_arms_than_two};
ghost use Rattle.surface_grammar.specs.Language.{At};
ghost use Rattle.surface_grammar.specs.Declarations as spec;
ghost use Rattle.surface_grammar.specs.Terms as terms;
ghost use Rattle.token_cursor.specs.Syntax.{Answers, up_to_turns};

use block_parser::{at_most, block};
use chan_syntax::{
    Block, Body, Decl, Decls, Equation, Params, Ref, Refs, Res, Surface, SurfaceFunc, SurfaceProto,
};
use operand_parser::{bound, names, no_names, param, reference, res};
use sqlite_items::{Boxed, Items};
use surface_grammar::{Named, Names, Word};
use token_cursor::{Cursor, MORE_ARMS_THAN_TWO, Stop};

#[tactic(auto, unfolding(surface_grammar::specs::Declarations::then_ref, token_cursor::specs::Syntax::sees, token_cursor::specs::Syntax::skip))]
fn then_ref(cursor: &mut Cursor<'_>, depth: usize) -> Result<Option<Ref>, Stop>
    ensures { Answers (At depth spec.then_ref cursor.old) result cursor.new }
{
    if cursor.sees(Word::Then) {
        cursor.skip(Word::Then)?;
        Ok(Some(reference(cursor, depth)?))
    } else {
        Ok(None)
    }
}

#[tactic(auto, unfolding(surface_grammar::specs::Declarations::two_refs, token_cursor::specs::Syntax::skip))]
fn two_refs(cursor: &mut Cursor<'_>, depth: usize) -> Result<(Ref, Ref), Stop>
    ensures { Answers (At depth spec.two_refs cursor.old) result cursor.new }
{
    cursor.skip(Word::Then)?;
    let yes = reference(cursor, depth)?;
    cursor.skip(Word::Else)?;
    let no = reference(cursor, depth)?;
    Ok((yes, no))
}

#[tactic(auto, unfolding(surface_grammar::specs::Declarations::branch))]
fn branch(cursor: &mut Cursor<'_>, depth: usize) -> Result<Equation, Stop>
    ensures { Answers (At depth spec.branch cursor.old) result cursor.new }
{
    let (left, right) = at_most(cursor, depth)?;
    let (yes, no) = two_refs(cursor, depth)?;
    Ok(Equation::Branch(left, right, yes, no))
}

fn sends(cursor: &mut Cursor<'_>, depth: usize) -> Result<Equation, Stop>
    ensures { Answers (At depth (g.seq e.Send terms.res spec.then_ref) cursor.old) result cursor.new }
{
    let message = res(cursor, depth)?;
    Ok(Equation::Send(message, then_ref(cursor, depth)?))
}

fn receives(cursor: &mut Cursor<'_>, depth: usize) -> Result<Equation, Stop>
    ensures { Answers (At depth (g.seq e.Recv terms.res spec.then_ref) cursor.old) result cursor.new }
{
    let message = res(cursor, depth)?;
    Ok(Equation::Recv(message, then_ref(cursor, depth)?))
}

#[tactic(auto, unfolding(surface_grammar::specs::Declarations::equation, token_cursor::specs::Syntax::sees, token_cursor::specs::Syntax::skip))]
fn equation(cursor: &mut Cursor<'_>, depth: usize) -> Result<Equation, Stop>
    ensures { Answers (At depth spec.equation cursor.old) result cursor.new }
{
    if cursor.sees(Word::Send) {
        cursor.skip(Word::Send)?;
        sends(cursor, depth)
    } else if cursor.sees(Word::Recv) {
        cursor.skip(Word::Recv)?;
        receives(cursor, depth)
    } else if cursor.sees(Word::Close) {
        cursor.skip(Word::Close)?;
        Ok(Equation::Close)
    } else if cursor.sees(Word::Wait) {
        cursor.skip(Word::Wait)?;
        Ok(Equation::Wait)
    } else {
        cursor.skip(Word::If)?;
        branch(cursor, depth)
    }
}

#[tactic(auto, unfolding(surface_grammar::specs::Declarations::next_ref, token_cursor::specs::Syntax::skip))]
fn next_ref(cursor: &mut Cursor<'_>, depth: usize) -> Result<Ref, Stop>
    ensures { Answers (At depth spec.next_ref cursor.old) result cursor.new }
{
    cursor.skip(Word::Bar)?;
    reference(cursor, depth)
}

/// The references of a choice, behind those that are found.
#[tactic(auto, unfolding(token_cursor::specs::Syntax::sees))]
fn more_refs(cursor: &mut Cursor<'_>, depth: usize, found: Refs) -> Result<Refs, Stop>
    ensures { Answers (up_to_turns depth (w.Bar ∷ []) spec.next_ref more_arms_than_two found cursor.old) result cursor.new }
{
    let mut found = found;
    for _turn in 0..MORE_ARMS_THAN_TWO {
        if !cursor.sees(Word::Bar) {
            return Ok(found);
        }
        let next = next_ref(cursor, depth)?;
        found.push(next)?;
    }
    Ok(found)
}

#[tactic(auto, unfolding(surface_grammar::specs::Declarations::alternatives, surface_grammar::specs::Declarations::more_refs))]
fn alternatives(cursor: &mut Cursor<'_>, depth: usize) -> Result<Refs, Stop>
    ensures { Answers (At depth spec.alternatives cursor.old) result cursor.new }
{
    let mut found = Items::new(cursor.alloc());
    found.push(reference(cursor, depth)?)?;
    found.push(next_ref(cursor, depth)?)?;
    more_refs(cursor, depth, found)
}

#[tactic(auto, unfolding(surface_grammar::specs::Declarations::choice, token_cursor::specs::Syntax::skip, token_cursor::specs::Syntax::name_at, surface_grammar::specs::Grammar::name))]
fn choice(cursor: &mut Cursor<'_>, depth: usize) -> Result<(Named, Refs), Stop>
    ensures { Answers (At depth spec.choice cursor.old) result cursor.new }
{
    let next = cursor.name()?;
    cursor.skip(Word::Of)?;
    let alternatives = alternatives(cursor, depth)?;
    Ok((next, alternatives))
}

fn choice_of(offer: bool, choice: (Named, Refs)) -> Body
    ensures { result ≡ spec.choice_of offer choice }
{
    let (next, refs) = choice;
    Body::Choice {
        offer,
        next: next.name,
        next_span: next.span,
        refs,
    }
}

#[tactic(auto, unfolding(surface_grammar::specs::Declarations::pbody, token_cursor::specs::Syntax::sees, token_cursor::specs::Syntax::skip))]
fn pbody(cursor: &mut Cursor<'_>, depth: usize) -> Result<Body, Stop>
    ensures { Answers (At depth spec.pbody cursor.old) result cursor.new }
{
    if cursor.sees(Word::Choice) {
        cursor.skip(Word::Choice)?;
        Ok(choice_of(false, choice(cursor, depth)?))
    } else if cursor.sees(Word::Offer) {
        cursor.skip(Word::Offer)?;
        Ok(choice_of(true, choice(cursor, depth)?))
    } else {
        Ok(Body::Plain(equation(cursor, depth)?))
    }
}

#[tactic(auto, unfolding(surface_grammar::specs::Declarations::names_to_paren, token_cursor::specs::Syntax::sees, token_cursor::specs::Syntax::skip))]
fn names_to_paren(cursor: &mut Cursor<'_>, depth: usize) -> Result<Names, Stop>
    ensures { Answers (At depth spec.names_to_paren cursor.old) result cursor.new }
{
    if cursor.sees(Word::RightParen) {
        cursor.skip(Word::RightParen)?;
        return Ok(no_names(cursor));
    }
    let names = names(cursor, depth)?;
    cursor.skip(Word::RightParen)?;
    Ok(names)
}

#[tactic(auto, using(token_cursor::proofs::Opens::opens_paren), unfolding(surface_grammar::specs::Declarations::proto_params))]
fn proto_params(cursor: &mut Cursor<'_>, depth: usize) -> Result<Names, Stop>
    ensures { Answers (At depth spec.proto_params cursor.old) result cursor.new }
{
    let inner = cursor.open(Word::LeftParen, depth)?;
    names_to_paren(cursor, inner)
}

#[tactic(auto, unfolding(token_cursor::specs::Syntax::skip))]
fn proto_body(cursor: &mut Cursor<'_>, depth: usize) -> Result<Body, Stop>
    ensures { Answers (At depth (word w.Equals ▷ (spec.pbody ◁ word w.Semicolon)) cursor.old) result cursor.new }
{
    cursor.skip(Word::Equals)?;
    let body = Boxed::new(cursor.alloc(), pbody(cursor, depth)?)?;
    cursor.skip(Word::Semicolon)?;
    Ok(body.into_inner())
}

#[tactic(auto, unfolding(surface_grammar::specs::Declarations::proto, token_cursor::specs::Syntax::skip, token_cursor::specs::Syntax::name_at, surface_grammar::specs::Grammar::name))]
fn proto(cursor: &mut Cursor<'_>, depth: usize) -> Result<SurfaceProto, Stop>
    ensures { Answers (At depth spec.proto cursor.old) result cursor.new }
{
    let start = cursor.mark();
    cursor.skip(Word::Proto)?;
    let named = cursor.name()?;
    let params = proto_params(cursor, depth)?;
    let body = proto_body(cursor, depth)?;
    Ok(SurfaceProto {
        name: named.name,
        name_span: named.span,
        params: params.names,
        params_spans: params.spans,
        body,
        span: cursor.since(&start),
    })
}

#[tactic(auto, unfolding(surface_grammar::specs::Declarations::params, token_cursor::specs::Syntax::sees, token_cursor::specs::Syntax::skip))]
fn params(cursor: &mut Cursor<'_>, depth: usize) -> Result<Params, Stop>
    ensures { Answers (At depth spec.params cursor.old) result cursor.new }
{
    let mut found = Items::new(cursor.alloc());
    found.push(param(cursor, depth)?)?;
    for _turn in 0..cursor.left() {
        if !cursor.sees(Word::Comma) {
            return Ok(found);
        }
        cursor.skip(Word::Comma)?;
        found.push(param(cursor, depth)?)?;
    }
    Ok(found)
}

#[tactic(auto, using(token_cursor::proofs::Opens::opens_paren), unfolding(surface_grammar::specs::Declarations::func_params, token_cursor::specs::Syntax::sees, token_cursor::specs::Syntax::skip))]
fn func_params(cursor: &mut Cursor<'_>, depth: usize) -> Result<Params, Stop>
    ensures { Answers (At depth spec.func_params cursor.old) result cursor.new }
{
    let depth = cursor.open(Word::LeftParen, depth)?;
    if cursor.sees(Word::RightParen) {
        cursor.skip(Word::RightParen)?;
        return Ok(Items::new(cursor.alloc()));
    }
    let params = params(cursor, depth)?;
    cursor.skip(Word::RightParen)?;
    Ok(params)
}

/// What follows the parameters of a function.
#[tactic(auto, using(token_cursor::proofs::Opens::block_is), unfolding(token_cursor::specs::Syntax::skip))]
fn result_and_block(cursor: &mut Cursor<'_>, depth: usize) -> Result<(Res, Block), Stop>
    ensures { Answers (At depth (g.seq (λ r x. (r, x)) (word w.Arrow ▷ terms.res) (g.call ABlock (λ x. x))) cursor.old) result cursor.new }
{
    cursor.skip(Word::Arrow)?;
    let result = res(cursor, depth)?;
    let block = block(cursor, depth)?;
    Ok((result, block))
}

#[tactic(auto, unfolding(surface_grammar::specs::Declarations::func, token_cursor::specs::Syntax::skip, token_cursor::specs::Syntax::name_at, surface_grammar::specs::Grammar::name))]
fn func(cursor: &mut Cursor<'_>, depth: usize) -> Result<SurfaceFunc, Stop>
    ensures { Answers (At depth spec.func cursor.old) result cursor.new }
{
    let start = cursor.mark();
    cursor.skip(Word::Fn)?;
    let named = cursor.name()?;
    let bound = bound(cursor, depth)?;
    let params = func_params(cursor, depth)?;
    let (result, block) = result_and_block(cursor, depth)?;
    Ok(SurfaceFunc {
        name: named.name,
        name_span: named.span,
        bound,
        params,
        result,
        block,
        span: cursor.since(&start),
    })
}

#[tactic(auto, unfolding(surface_grammar::specs::Declarations::decl, token_cursor::specs::Syntax::sees))]
fn decl(cursor: &mut Cursor<'_>, depth: usize) -> Result<Decl, Stop>
    ensures { Answers (At depth spec.decl cursor.old) result cursor.new }
{
    if cursor.sees(Word::Proto) {
        Ok(Decl::Proto(proto(cursor, depth)?))
    } else {
        Ok(Decl::Func(func(cursor, depth)?))
    }
}

fn sees_decl(cursor: &Cursor<'_>) -> bool
    ensures { result ≡ next_in code (yes (Word.Proto ∷ Word.Fn ∷ [])) cursor.now }
{
    cursor.sees_any(&[Word::Proto, Word::Fn])
}

#[tactic(auto, using(token_cursor::proofs::Turns::one_more, token_cursor::proofs::Turns::no_more), unfolding(surface_grammar::specs::Declarations::decls))]
fn decls(cursor: &mut Cursor<'_>, depth: usize) -> Result<Decls, Stop>
    ensures { Answers (At depth spec.decls cursor.old) result cursor.new }
{
    let mut found = Items::new(cursor.alloc());
    for _turn in 0..cursor.left() {
        if !sees_decl(cursor) {
            return Ok(found);
        }
        found.push(decl(cursor, depth)?)?;
    }
    Ok(found)
}

#[tactic(auto, unfolding(surface_grammar::specs::Declarations::program))]
pub fn program(cursor: &mut Cursor<'_>, depth: usize) -> Result<Surface, Stop>
    ensures { Answers (At depth spec.program cursor.old) result cursor.new }
{
    Ok(Surface {
        decls: decls(cursor, depth)?,
    })
}
