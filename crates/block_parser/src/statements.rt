//! Statements and ends of blocks that have no block in them.

ghost use Rattle.std.specs.Prelude.{◌≡◌};
ghost use Rattle.surface_grammar.specs.Language.{At};
ghost use Rattle.surface_grammar.specs.Statements as spec;
ghost use Rattle.token_cursor.specs.Syntax.{Answers};

use crate::parts::{access, call, value_and_proof};
use chan_syntax::{Last, Stmt};
use operand_parser::{given_values, proof, route, term};
use surface_grammar::Word;
use token_cursor::{Cursor, Stop};

#[tactic(auto, unfolding(surface_grammar::specs::Statements::send1_stmt, token_cursor::specs::Syntax::skip, token_cursor::specs::Syntax::name_at, surface_grammar::specs::Grammar::name))]
pub fn send1_stmt(cursor: &mut Cursor<'_>, depth: usize) -> Result<Stmt, Stop>
    ensures { Answers (At depth spec.send1_stmt cursor.old) result cursor.new }
{
    let start = cursor.mark();
    cursor.skip(Word::Send1)?;
    let channel = cursor.name()?;
    let route = route(cursor, depth)?;
    let (value, proof) = value_and_proof(cursor, depth)?;
    Ok(Stmt::Send1 {
        channel: channel.name,
        channel_span: channel.span,
        path: route.path,
        path_span: route.span,
        value,
        proof,
        span: cursor.since(&start),
    })
}

#[tactic(auto, unfolding(surface_grammar::specs::Statements::close_stmt, token_cursor::specs::Syntax::skip))]
pub fn close_stmt(cursor: &mut Cursor<'_>, depth: usize) -> Result<Stmt, Stop>
    ensures { Answers (At depth spec.close_stmt cursor.old) result cursor.new }
{
    let start = cursor.mark();
    cursor.skip(Word::Close)?;
    let access = access(cursor, depth)?;
    Ok(Stmt::Close {
        channel: access.channel.name,
        channel_span: access.channel.span,
        path: access.route.path,
        path_span: access.route.span,
        proof: access.proof,
        span: cursor.since(&start),
    })
}

#[tactic(auto, unfolding(surface_grammar::specs::Statements::wait_stmt, token_cursor::specs::Syntax::skip))]
pub fn wait_stmt(cursor: &mut Cursor<'_>, depth: usize) -> Result<Stmt, Stop>
    ensures { Answers (At depth spec.wait_stmt cursor.old) result cursor.new }
{
    let start = cursor.mark();
    cursor.skip(Word::Wait)?;
    let access = access(cursor, depth)?;
    Ok(Stmt::Wait {
        channel: access.channel.name,
        channel_span: access.channel.span,
        path: access.route.path,
        path_span: access.route.span,
        proof: access.proof,
        span: cursor.since(&start),
    })
}

#[tactic(auto, unfolding(surface_grammar::specs::Statements::print_stmt, token_cursor::specs::Syntax::skip))]
pub fn print_stmt(cursor: &mut Cursor<'_>, depth: usize) -> Result<Stmt, Stop>
    ensures { Answers (At depth spec.print_stmt cursor.old) result cursor.new }
{
    let start = cursor.mark();
    cursor.skip(Word::Print)?;
    let term = term(cursor, depth)?;
    Ok(Stmt::Print {
        term,
        span: cursor.since(&start),
    })
}

#[tactic(auto, unfolding(surface_grammar::specs::Statements::ret_last, token_cursor::specs::Syntax::skip))]
pub fn ret_last(cursor: &mut Cursor<'_>, depth: usize) -> Result<Last, Stop>
    ensures { Answers (At depth spec.ret_last cursor.old) result cursor.new }
{
    let start = cursor.mark();
    cursor.skip(Word::Ret)?;
    let (value, proof) = value_and_proof(cursor, depth)?;
    Ok(Last::Ret {
        value,
        proof,
        span: cursor.since(&start),
    })
}

#[tactic(auto, unfolding(surface_grammar::specs::Statements::tail_last))]
pub fn tail_last(cursor: &mut Cursor<'_>, depth: usize) -> Result<Last, Stop>
    ensures { Answers (At depth spec.tail_last cursor.old) result cursor.new }
{
    let start = cursor.mark();
    let called = call(cursor, depth)?;
    Ok(Last::Tail {
        func: called.func.name,
        func_span: called.func.span,
        values: called.values,
        proof: called.proof,
        span: cursor.since(&start),
    })
}

#[tactic(auto, unfolding(surface_grammar::specs::Statements::absurd_last, token_cursor::specs::Syntax::skip))]
pub fn absurd_last(cursor: &mut Cursor<'_>, depth: usize) -> Result<Last, Stop>
    ensures { Answers (At depth spec.absurd_last cursor.old) result cursor.new }
{
    let start = cursor.mark();
    cursor.skip(Word::Absurd)?;
    let proof = proof(cursor, depth)?;
    Ok(Last::Absurd {
        proof,
        span: cursor.since(&start),
    })
}

#[tactic(auto, unfolding(surface_grammar::specs::Statements::again_last, token_cursor::specs::Syntax::skip))]
pub fn again_last(cursor: &mut Cursor<'_>, depth: usize) -> Result<Last, Stop>
    ensures { Answers (At depth spec.again_last cursor.old) result cursor.new }
{
    let start = cursor.mark();
    cursor.skip(Word::Again)?;
    let values = given_values(cursor, depth)?;
    let proof = proof(cursor, depth)?;
    Ok(Last::Again {
        values,
        proof,
        span: cursor.since(&start),
    })
}
