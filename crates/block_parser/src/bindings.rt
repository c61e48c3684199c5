//! What `let` gives to names, and the statements that come of it.

ghost use Rattle.std.specs.Prelude.{◌≡◌, IfOk};
ghost use Rattle.chan_syntax.specs.declared.operands.Proof as proof;
ghost use Rattle.chan_syntax.specs.declared.operands.Supply as supply;
ghost use Rattle.grammar_laws.specs.Grammar as g;
ghost use Rattle.surface_grammar.specs.declared.parts.Given.TheVariants as v;
ghost use Rattle.surface_grammar.specs.Language.{At};
ghost use Rattle.surface_grammar.specs.Operands as operands;
ghost use Rattle.surface_grammar.specs.Statements as spec;
ghost use Rattle.token_cursor.specs.Syntax.{Answers};

use crate::parts::{access, call, target, value_and_proof};
use chan_base::Span;
use chan_syntax::{Pat, Proof, Ref, Stmt, Supply, Term};
use operand_parser::{bracketed, given_values, more_parts, no_names, number_term, part, proof};
use sqlite_items::Items;
use std::alloc::{AllocError, Global};
use surface_grammar::{
    Access, Binding, Called, Forked, Given, Named, Names, PairGiven, Tail, Target, Word,
};
use token_cursor::{Cursor, Stop};

#[tactic(auto, unfolding(surface_grammar::specs::Statements::tail, token_cursor::specs::Syntax::sees))]
fn tail(cursor: &mut Cursor<'_>, depth: usize) -> Result<Tail, Stop>
    ensures { Answers (At depth spec.tail cursor.old) result cursor.new }
{
    if cursor.sees(Word::LeftParen) {
        let values = given_values(cursor, depth)?;
        let proof = proof(cursor, depth)?;
        Ok(Tail::Values(values, proof))
    } else {
        Ok(Tail::Parts(more_parts(cursor, depth)?))
    }
}

fn named_given(alloc: Global, named: Named, tail: Tail, span: Span) -> Result<Given, AllocError>
    ensures { IfOk result (λ given. given ≡ spec.named_given named tail span) }
{
    match tail {
        Tail::Values(values, proof) => Ok(Given::Call(Called {
            func: named,
            values,
            proof,
        })),
        Tail::Parts(more) => {
            let mut parts = Items::new(alloc);
            parts.push(part(1, Some(named)))?;
            parts.append(more)?;
            Ok(Given::Term(Term { parts, span }))
        }
    }
}

#[tactic(auto, unfolding(surface_grammar::specs::Statements::given_name, token_cursor::specs::Syntax::name_at, surface_grammar::specs::Grammar::name))]
fn given_name(cursor: &mut Cursor<'_>, depth: usize) -> Result<Given, Stop>
    ensures { Answers (At depth spec.given_name cursor.old) result cursor.new }
{
    let start = cursor.mark();
    let named = cursor.name()?;
    let tail = tail(cursor, depth)?;
    let span = cursor.since(&start);
    Ok(named_given(cursor.alloc(), named, tail, span)?)
}

#[tactic(auto, unfolding(surface_grammar::specs::Statements::given_term, token_cursor::specs::Syntax::sees_name))]
fn given_term(cursor: &mut Cursor<'_>, depth: usize) -> Result<Given, Stop>
    ensures { Answers (At depth spec.given_term cursor.old) result cursor.new }
{
    if cursor.sees_name() {
        given_name(cursor, depth)
    } else {
        Ok(Given::Term(number_term(cursor, depth)?))
    }
}

fn sent(cursor: &mut Cursor<'_>, depth: usize) -> Result<Given, Stop>
    ensures { Answers (At depth (g.seq (λ x (p : supply.Supply × proof.Proof). v.Send x p.0 p.1) spec.target (g.seq (λ x y. (x, y)) operands.value operands.proof)) cursor.old) result cursor.new }
{
    let target = target(cursor, depth)?;
    let (value, proof) = value_and_proof(cursor, depth)?;
    Ok(Given::Send(target, value, proof))
}

fn chosen(cursor: &mut Cursor<'_>, depth: usize, arm: u8) -> Result<Given, Stop>
    ensures { Answers (At depth (g.seq (v.Choose arm) spec.target operands.proof) cursor.old) result cursor.new }
{
    let target = target(cursor, depth)?;
    let proof = proof(cursor, depth)?;
    Ok(Given::Choose(arm, target, proof))
}

#[tactic(auto, unfolding(surface_grammar::specs::Statements::numbered_choice, token_cursor::specs::Syntax::arm_number_at, surface_grammar::specs::Grammar::arm_number))]
fn numbered_choice(cursor: &mut Cursor<'_>, depth: usize) -> Result<Given, Stop>
    ensures { Answers (At depth spec.numbered_choice cursor.old) result cursor.new }
{
    let arm = cursor.arm_number()?;
    let target = target(cursor, depth)?;
    let proof = proof(cursor, depth)?;
    Ok(Given::Choose(arm, target, proof))
}

#[tactic(auto, unfolding(surface_grammar::specs::Statements::given_target, token_cursor::specs::Syntax::sees, token_cursor::specs::Syntax::skip))]
pub fn given_target(cursor: &mut Cursor<'_>, depth: usize) -> Result<Given, Stop>
    ensures { Answers (At depth spec.given_target cursor.old) result cursor.new }
{
    if cursor.sees(Word::Send) {
        cursor.skip(Word::Send)?;
        sent(cursor, depth)
    } else if cursor.sees(Word::Left) {
        cursor.skip(Word::Left)?;
        chosen(cursor, depth, 0)
    } else if cursor.sees(Word::Right) {
        cursor.skip(Word::Right)?;
        chosen(cursor, depth, 1)
    } else if cursor.sees(Word::Hash) {
        cursor.skip(Word::Hash)?;
        numbered_choice(cursor, depth)
    } else {
        given_term(cursor, depth)
    }
}

#[tactic(auto, unfolding(surface_grammar::specs::Statements::given_to_pattern, token_cursor::specs::Syntax::sees, token_cursor::specs::Syntax::skip))]
pub fn given_to_pattern(cursor: &mut Cursor<'_>, depth: usize) -> Result<Given, Stop>
    ensures { Answers (At depth spec.given_to_pattern cursor.old) result cursor.new }
{
    if cursor.sees(Word::Recv1) {
        cursor.skip(Word::Recv1)?;
        Ok(Given::Recv1(access(cursor, depth)?))
    } else {
        Ok(Given::Call(call(cursor, depth)?))
    }
}

#[tactic(auto, unfolding(surface_grammar::specs::Statements::given_to_pair, token_cursor::specs::Syntax::sees, token_cursor::specs::Syntax::skip, token_cursor::specs::Syntax::name_at, surface_grammar::specs::Grammar::name))]
fn given_to_pair(cursor: &mut Cursor<'_>, depth: usize) -> Result<PairGiven, Stop>
    ensures { Answers (At depth spec.given_to_pair cursor.old) result cursor.new }
{
    if cursor.sees(Word::Recv) {
        cursor.skip(Word::Recv)?;
        let access = access(cursor, depth)?;
        Ok(PairGiven::Recv(no_names(cursor), access))
    } else {
        Ok(PairGiven::Split(cursor.name()?))
    }
}

#[tactic(auto, unfolding(surface_grammar::specs::Statements::behind_pats, token_cursor::specs::Syntax::sees, token_cursor::specs::Syntax::skip))]
pub fn behind_pats(cursor: &mut Cursor<'_>, depth: usize) -> Result<PairGiven, Stop>
    ensures { Answers (At depth spec.behind_pats cursor.old) result cursor.new }
{
    if cursor.sees(Word::LeftBracket) {
        let names = bracketed(cursor, depth)?;
        cursor.skip(Word::Equals)?;
        cursor.skip(Word::Recv)?;
        let access = access(cursor, depth)?;
        Ok(PairGiven::Recv(names, access))
    } else {
        cursor.skip(Word::Equals)?;
        given_to_pair(cursor, depth)
    }
}

fn pat_of(named: Named, names: Names) -> Pat
    ensures { result ≡ operands.pat_of named names }
{
    Pat {
        name: named.name,
        name_span: named.span,
        names: names.names,
        names_spans: names.spans,
    }
}

fn let_fork(named: Named, proto: Ref, forked: Forked, span: Span) -> Stmt
    ensures { result ≡ spec.let_fork named proto forked span }
{
    match forked {
        Forked::Call(called) => Stmt::Fork {
            name: named.name,
            name_span: named.span,
            proto,
            func: called.func.name,
            func_span: called.func.span,
            values: called.values,
            proof: called.proof,
            span,
        },
        Forked::Block(task) => Stmt::ForkDo {
            name: named.name,
            name_span: named.span,
            proto,
            func: task.func.name,
            func_span: task.func.span,
            bound: task.bound,
            param: task.param,
            starts: task.starts,
            proof: task.proof,
            block: task.block,
            span,
        },
    }
}

fn let_call(pat: Pat, called: Called, span: Span) -> Stmt
    ensures { result ≡ spec.let_call pat called span }
{
    Stmt::Call {
        pat,
        func: called.func.name,
        func_span: called.func.span,
        values: called.values,
        proof: called.proof,
        span,
    }
}

fn let_recv1(pat: Pat, access: Access, span: Span) -> Stmt
    ensures { result ≡ spec.let_recv1 pat access span }
{
    Stmt::Recv1 {
        pat,
        channel: access.channel.name,
        channel_span: access.channel.span,
        path: access.route.path,
        path_span: access.route.span,
        proof: access.proof,
        span,
    }
}

fn let_send(named: Named, target: Target, value: Supply, proof: Proof, span: Span) -> Stmt
    ensures { result ≡ spec.let_send named target value proof span }
{
    Stmt::Send {
        name: named.name,
        name_span: named.span,
        channel: target.channel.name,
        channel_span: target.channel.span,
        proto: target.proto,
        path: target.route.path,
        path_span: target.route.span,
        value,
        proof,
        span,
    }
}

fn let_choose(arm: u8, named: Named, target: Target, proof: Proof, span: Span) -> Stmt
    ensures { result ≡ spec.let_choose arm named target proof span }
{
    Stmt::Choose {
        arm,
        name: named.name,
        name_span: named.span,
        channel: target.channel.name,
        channel_span: target.channel.span,
        proto: target.proto,
        path: target.route.path,
        path_span: target.route.span,
        proof,
        span,
    }
}

fn let_given(named: Named, names: Names, given: Given, span: Span) -> Stmt
    ensures { result ≡ spec.let_given named names given span }
{
    match given {
        Given::Term(term) => Stmt::Let {
            name: named.name,
            name_span: named.span,
            term,
            span,
        },
        Given::Mul(left, right) => Stmt::Mul {
            name: named.name,
            name_span: named.span,
            left,
            right,
            span,
        },
        Given::Div(term, digits) => Stmt::Div {
            name: named.name,
            name_span: named.span,
            term,
            divisor: digits.value,
            divisor_span: digits.span,
            span,
        },
        Given::Rem(term, digits) => Stmt::Rem {
            name: named.name,
            name_span: named.span,
            term,
            divisor: digits.value,
            divisor_span: digits.span,
            span,
        },
        Given::Call(called) => let_call(pat_of(named, names), called, span),
        Given::Fork(proto, forked) => let_fork(named, proto, forked, span),
        Given::Recv1(access) => let_recv1(pat_of(named, names), access, span),
        Given::Send(target, value, proof) => let_send(named, target, value, proof, span),
        Given::Choose(arm, target, proof) => let_choose(arm, named, target, proof, span),
    }
}

fn let_pair(first: Pat, second: Pat, given: PairGiven, span: Span) -> Stmt
    ensures { result ≡ spec.let_pair first second given span }
{
    match given {
        PairGiven::Recv(names, access) => Stmt::Recv {
            first,
            second,
            names: names.names,
            names_spans: names.spans,
            channel: access.channel.name,
            channel_span: access.channel.span,
            path: access.route.path,
            path_span: access.route.span,
            proof: access.proof,
            span,
        },
        PairGiven::Split(named) => Stmt::Split {
            first,
            second,
            name: named.name,
            name_span: named.span,
            span,
        },
    }
}

pub fn let_of(binding: Binding, span: Span) -> Stmt
    ensures { result ≡ spec.let_of binding span }
{
    match binding {
        Binding::Name(named, behind) => let_given(named, behind.names, behind.given, span),
        Binding::Pair(first, second, given) => let_pair(first, second, given, span),
    }
}
