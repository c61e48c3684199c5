//! Blocks, and the statements and ends that have blocks in them.

ghost use Rattle.std.specs.Prelude.{◌≡◌, [], ◌∷◌};
ghost use Rattle.grammar_laws.specs.Grammar as g;
ghost use Rattle.grammar_laws.specs.Grammar.{next_in};
ghost use Rattle.surface_grammar.specs.Words.{code};
ghost use Rattle.surface_grammar.specs.declared.words.Word.TheVariants as w;
ghost use Rattle.surface_grammar.specs.Grammar.{ABlock, word, ◌▷◌, yes, more_arms_than_two};
ghost use Rattle.surface_grammar.specs.Language.{At};
ghost use Rattle.surface_grammar.specs.Operands as operands;
ghost use Rattle.surface_grammar.specs.Statements as spec;
ghost use Rattle.surface_grammar.specs.Terms as terms;
ghost use Rattle.token_cursor.specs.Syntax.{Answers, up_to_turns};
ghost use Rattle.block_parser.specs.Turns.{arms_turns};

use crate::bindings::{behind_pats, given_target, given_to_pattern, let_of};
use crate::parts::{access, as_names, at_most, call, loop_params, task_params, two_pats};
use crate::statements::{
    absurd_last, again_last, close_stmt, print_stmt, ret_last, send1_stmt, tail_last, wait_stmt,
};
use chan_syntax::{Block, Blocks, Last, Pat, Proof, Res, Stmt, Stmts, SurfaceArm, SurfaceArms};
use operand_parser::{
    bound, bracketed, no_names, pat, proof, reference, res, term_and_number, two_terms,
};
use sqlite_items::{Boxed, Items};
use surface_grammar::{Binding, Forked, Given, NamedGiven, Task, Word};
use token_cursor::{Cursor, MORE_ARMS_THAN_TWO, Stop};

/// A proof, and the block that it is for.
#[cycle(block)]
#[tactic(auto, using(token_cursor::proofs::Opens::block_is))]
fn proof_and_block(cursor: &mut Cursor<'_>, depth: usize) -> Result<(Proof, Block), Stop>
    ensures { Answers (At depth (g.seq (λ x y. (x, y)) operands.proof (g.call ABlock (λ x. x))) cursor.old) result cursor.new }
{
    let proof = proof(cursor, depth)?;
    let block = block(cursor, depth)?;
    Ok((proof, block))
}

#[cycle(block)]
#[tactic(auto, unfolding(surface_grammar::specs::Statements::task, token_cursor::specs::Syntax::name_at, surface_grammar::specs::Grammar::name))]
fn task(cursor: &mut Cursor<'_>, depth: usize) -> Result<Task, Stop>
    ensures { Answers (At depth spec.task cursor.old) result cursor.new }
{
    let func = cursor.name()?;
    let bound = bound(cursor, depth)?;
    let (param, starts) = task_params(cursor, depth)?;
    let (proof, block) = proof_and_block(cursor, depth)?;
    Ok(Task {
        func,
        bound,
        param,
        starts,
        proof,
        block,
    })
}

#[cycle(block)]
#[tactic(auto, unfolding(surface_grammar::specs::Statements::forked, token_cursor::specs::Syntax::sees, token_cursor::specs::Syntax::skip))]
fn forked(cursor: &mut Cursor<'_>, depth: usize) -> Result<Forked, Stop>
    ensures { Answers (At depth spec.forked cursor.old) result cursor.new }
{
    if cursor.sees(Word::Do) {
        cursor.skip(Word::Do)?;
        Ok(Forked::Block(task(cursor, depth)?))
    } else {
        Ok(Forked::Call(call(cursor, depth)?))
    }
}

#[cycle(block)]
#[tactic(auto, unfolding(surface_grammar::specs::Statements::given_end, token_cursor::specs::Syntax::sees, token_cursor::specs::Syntax::skip))]
fn given_end(cursor: &mut Cursor<'_>, depth: usize) -> Result<Given, Stop>
    ensures { Answers (At depth spec.given_end cursor.old) result cursor.new }
{
    if cursor.sees(Word::Fork) {
        cursor.skip(Word::Fork)?;
        let proto = reference(cursor, depth)?;
        Ok(Given::Fork(proto, forked(cursor, depth)?))
    } else if cursor.sees(Word::Recv1) {
        cursor.skip(Word::Recv1)?;
        Ok(Given::Recv1(access(cursor, depth)?))
    } else {
        given_target(cursor, depth)
    }
}

#[cycle(block)]
#[tactic(auto, unfolding(surface_grammar::specs::Statements::given, token_cursor::specs::Syntax::sees, token_cursor::specs::Syntax::skip))]
fn given(cursor: &mut Cursor<'_>, depth: usize) -> Result<Given, Stop>
    ensures { Answers (At depth spec.given cursor.old) result cursor.new }
{
    if cursor.sees(Word::Mul) {
        cursor.skip(Word::Mul)?;
        let (left, right) = two_terms(cursor, depth)?;
        Ok(Given::Mul(left, right))
    } else if cursor.sees(Word::Div) {
        cursor.skip(Word::Div)?;
        let (term, divisor) = term_and_number(cursor, depth)?;
        Ok(Given::Div(term, divisor))
    } else if cursor.sees(Word::Rem) {
        cursor.skip(Word::Rem)?;
        let (term, divisor) = term_and_number(cursor, depth)?;
        Ok(Given::Rem(term, divisor))
    } else {
        given_end(cursor, depth)
    }
}

#[cycle(block)]
#[tactic(auto, unfolding(surface_grammar::specs::Statements::behind_name, token_cursor::specs::Syntax::sees, token_cursor::specs::Syntax::skip))]
fn behind_name(cursor: &mut Cursor<'_>, depth: usize) -> Result<NamedGiven, Stop>
    ensures { Answers (At depth spec.behind_name cursor.old) result cursor.new }
{
    if cursor.sees(Word::LeftBracket) {
        let names = bracketed(cursor, depth)?;
        cursor.skip(Word::Equals)?;
        let given = given_to_pattern(cursor, depth)?;
        Ok(NamedGiven { names, given })
    } else {
        cursor.skip(Word::Equals)?;
        let given = given(cursor, depth)?;
        Ok(NamedGiven {
            names: no_names(cursor),
            given,
        })
    }
}

#[cycle(block)]
#[tactic(auto, unfolding(surface_grammar::specs::Statements::binding, token_cursor::specs::Syntax::sees, token_cursor::specs::Syntax::name_at, surface_grammar::specs::Grammar::name))]
fn binding(cursor: &mut Cursor<'_>, depth: usize) -> Result<Binding, Stop>
    ensures { Answers (At depth spec.binding cursor.old) result cursor.new }
{
    if cursor.sees(Word::LeftParen) {
        let (first, second) = two_pats(cursor, depth)?;
        Ok(Binding::Pair(first, second, behind_pats(cursor, depth)?))
    } else {
        let named = cursor.name()?;
        Ok(Binding::Name(named, behind_name(cursor, depth)?))
    }
}

#[cycle(block)]
#[tactic(auto, unfolding(surface_grammar::specs::Statements::let_stmt, token_cursor::specs::Syntax::skip))]
fn let_stmt(cursor: &mut Cursor<'_>, depth: usize) -> Result<Stmt, Stop>
    ensures { Answers (At depth spec.let_stmt cursor.old) result cursor.new }
{
    let start = cursor.mark();
    cursor.skip(Word::Let)?;
    let binding = binding(cursor, depth)?;
    Ok(let_of(binding, cursor.since(&start)))
}

#[cycle(block)]
#[tactic(auto, unfolding(surface_grammar::specs::Statements::stmt, token_cursor::specs::Syntax::sees))]
fn stmt(cursor: &mut Cursor<'_>, depth: usize) -> Result<Stmt, Stop>
    ensures { Answers (At depth spec.stmt cursor.old) result cursor.new }
{
    if cursor.sees(Word::Let) {
        let_stmt(cursor, depth)
    } else if cursor.sees(Word::Send1) {
        send1_stmt(cursor, depth)
    } else if cursor.sees(Word::Close) {
        close_stmt(cursor, depth)
    } else if cursor.sees(Word::Wait) {
        wait_stmt(cursor, depth)
    } else {
        print_stmt(cursor, depth)
    }
}

fn sees_stmt(cursor: &Cursor<'_>) -> bool
    ensures { result ≡ next_in code (yes spec.stmt_words) cursor.now }
{
    cursor.sees_any(&[Word::Let, Word::Send1, Word::Close, Word::Wait, Word::Print])
}

#[cycle(block)]
#[tactic(auto, using(token_cursor::proofs::Turns::one_more, token_cursor::proofs::Turns::no_more), unfolding(surface_grammar::specs::Statements::stmts, token_cursor::specs::Syntax::skip))]
fn stmts(cursor: &mut Cursor<'_>, depth: usize) -> Result<Stmts, Stop>
    ensures { Answers (At depth spec.stmts cursor.old) result cursor.new }
{
    let mut found = Items::new(cursor.alloc());
    for _turn in 0..cursor.left() {
        if !sees_stmt(cursor) {
            return Ok(found);
        }
        found.push(stmt(cursor, depth)?)?;
        cursor.skip(Word::Semicolon)?;
    }
    Ok(found)
}

#[cycle(block)]
#[tactic(auto, using(token_cursor::proofs::Opens::block_is), unfolding(surface_grammar::specs::Statements::two_blocks, token_cursor::specs::Syntax::skip))]
fn two_blocks(cursor: &mut Cursor<'_>, depth: usize) -> Result<(Block, Block), Stop>
    ensures { Answers (At depth spec.two_blocks cursor.old) result cursor.new }
{
    let yes = block(cursor, depth)?;
    cursor.skip(Word::Else)?;
    let no = block(cursor, depth)?;
    Ok((yes, no))
}

#[cycle(block)]
#[tactic(auto, unfolding(surface_grammar::specs::Statements::if_last, token_cursor::specs::Syntax::skip))]
fn if_last(cursor: &mut Cursor<'_>, depth: usize) -> Result<Last, Stop>
    ensures { Answers (At depth spec.if_last cursor.old) result cursor.new }
{
    let start = cursor.mark();
    cursor.skip(Word::If)?;
    let (left, right) = at_most(cursor, depth)?;
    let (yes, no) = two_blocks(cursor, depth)?;
    Ok(Last::If {
        left,
        right,
        yes,
        no,
        span: cursor.since(&start),
    })
}

/// The tag of an arm is open to the end of the pattern.
#[tactic(auto, using(token_cursor::proofs::Opens::opens_hash), unfolding(surface_grammar::specs::Statements::hash_pat, token_cursor::specs::Syntax::the_number_at, surface_grammar::specs::Grammar::the_number))]
fn hash_pat(cursor: &mut Cursor<'_>, depth: usize, number: u64) -> Result<Pat, Stop>
    ensures { Answers (At depth (spec.hash_pat number) cursor.old) result cursor.new }
{
    let inner = cursor.open(Word::Hash, depth)?;
    cursor.the_number(number)?;
    pat(cursor, inner)
}

#[tactic(auto, using(token_cursor::proofs::Opens::opens_inl), unfolding(surface_grammar::specs::Statements::left_pat, token_cursor::specs::Syntax::sees))]
fn left_pat(cursor: &mut Cursor<'_>, depth: usize) -> Result<Pat, Stop>
    ensures { Answers (At depth spec.left_pat cursor.old) result cursor.new }
{
    if cursor.sees(Word::Inl) {
        let inner = cursor.open(Word::Inl, depth)?;
        pat(cursor, inner)
    } else {
        hash_pat(cursor, depth, 0)
    }
}

#[tactic(auto, using(token_cursor::proofs::Opens::opens_inr), unfolding(surface_grammar::specs::Statements::right_pat, token_cursor::specs::Syntax::sees))]
fn right_pat(cursor: &mut Cursor<'_>, depth: usize) -> Result<Pat, Stop>
    ensures { Answers (At depth spec.right_pat cursor.old) result cursor.new }
{
    if cursor.sees(Word::Inr) {
        let inner = cursor.open(Word::Inr, depth)?;
        pat(cursor, inner)
    } else {
        hash_pat(cursor, depth, 1)
    }
}

/// The tag of the arm with this number, and its pattern.
#[tactic(auto, using(crate::proofs::Arms::tags))]
fn tagged_pat(cursor: &mut Cursor<'_>, depth: usize, number: u64) -> Result<Pat, Stop>
    ensures { Answers (At depth (spec.tagged_pat number) cursor.old) result cursor.new }
{
    if number == 0 {
        left_pat(cursor, depth)
    } else if number == 1 {
        right_pat(cursor, depth)
    } else {
        hash_pat(cursor, depth, number)
    }
}

/// The arm with this number.
#[cycle(block)]
#[tactic(auto, using(token_cursor::proofs::Opens::block_is), unfolding(surface_grammar::specs::Statements::arm))]
fn arm(cursor: &mut Cursor<'_>, depth: usize, number: u64) -> Result<SurfaceArm, Stop>
    ensures { Answers (At depth (spec.arm number) cursor.old) result cursor.new }
{
    let pat = tagged_pat(cursor, depth, number)?;
    let block = block(cursor, depth)?;
    Ok(SurfaceArm { pat, block })
}

/// The arms from the third on, behind those that are found.
#[cycle(block)]
#[tactic(auto, unfolding(token_cursor::specs::Syntax::sees))]
fn more_arms(cursor: &mut Cursor<'_>, depth: usize, found: SurfaceArms) -> Result<SurfaceArms, Stop>
    ensures { Answers (arms_turns depth 2 found cursor.old) result cursor.new }
{
    let mut found = found;
    for turn in 2..16 {
        if !cursor.sees(Word::Hash) {
            return Ok(found);
        }
        let next = arm(cursor, depth, turn)?;
        found.push(next)?;
    }
    Ok(found)
}

#[cycle(block)]
#[tactic(auto, using(token_cursor::proofs::Opens::opens_brace), unfolding(surface_grammar::specs::Statements::arms, surface_grammar::specs::Statements::more_arms, token_cursor::specs::Syntax::skip))]
fn arms(cursor: &mut Cursor<'_>, depth: usize) -> Result<SurfaceArms, Stop>
    ensures { Answers (At depth spec.arms cursor.old) result cursor.new }
{
    let inner = cursor.open(Word::LeftBrace, depth)?;
    let mut found = Items::new(cursor.alloc());
    found.push(arm(cursor, inner, 0)?)?;
    found.push(arm(cursor, inner, 1)?)?;
    let found = more_arms(cursor, inner, found)?;
    cursor.skip(Word::RightBrace)?;
    Ok(found)
}

#[cycle(block)]
#[tactic(auto, unfolding(surface_grammar::specs::Statements::match_last, token_cursor::specs::Syntax::skip, token_cursor::specs::Syntax::name_at, surface_grammar::specs::Grammar::name))]
fn match_last(cursor: &mut Cursor<'_>, depth: usize) -> Result<Last, Stop>
    ensures { Answers (At depth spec.match_last cursor.old) result cursor.new }
{
    let start = cursor.mark();
    cursor.skip(Word::Match)?;
    let named = cursor.name()?;
    let arms = arms(cursor, depth)?;
    Ok(Last::Match {
        name: named.name,
        name_span: named.span,
        arms,
        span: cursor.since(&start),
    })
}

#[cycle(block)]
#[tactic(auto, using(token_cursor::proofs::Opens::block_is), unfolding(surface_grammar::specs::Statements::next_block, token_cursor::specs::Syntax::skip))]
fn next_block(cursor: &mut Cursor<'_>, depth: usize) -> Result<Block, Stop>
    ensures { Answers (At depth spec.next_block cursor.old) result cursor.new }
{
    cursor.skip(Word::Else)?;
    block(cursor, depth)
}

/// The blocks of a branch, behind those that are found.
#[cycle(block)]
#[tactic(auto, unfolding(token_cursor::specs::Syntax::sees))]
fn more_blocks(cursor: &mut Cursor<'_>, depth: usize, found: Blocks) -> Result<Blocks, Stop>
    ensures { Answers (up_to_turns depth (w.Else ∷ []) spec.next_block more_arms_than_two found cursor.old) result cursor.new }
{
    let mut found = found;
    for _turn in 0..MORE_ARMS_THAN_TWO {
        if !cursor.sees(Word::Else) {
            return Ok(found);
        }
        let next = next_block(cursor, depth)?;
        found.push(next)?;
    }
    Ok(found)
}

#[cycle(block)]
#[tactic(auto, using(token_cursor::proofs::Opens::block_is), unfolding(surface_grammar::specs::Statements::blocks, surface_grammar::specs::Statements::more_blocks))]
fn blocks(cursor: &mut Cursor<'_>, depth: usize) -> Result<Blocks, Stop>
    ensures { Answers (At depth spec.blocks cursor.old) result cursor.new }
{
    let mut found = Items::new(cursor.alloc());
    found.push(block(cursor, depth)?)?;
    found.push(next_block(cursor, depth)?)?;
    more_blocks(cursor, depth, found)
}

#[cycle(block)]
#[tactic(auto, unfolding(surface_grammar::specs::Statements::branch_last, token_cursor::specs::Syntax::skip))]
fn branch_last(cursor: &mut Cursor<'_>, depth: usize) -> Result<Last, Stop>
    ensures { Answers (At depth spec.branch_last cursor.old) result cursor.new }
{
    let start = cursor.mark();
    cursor.skip(Word::Branch)?;
    let access = access(cursor, depth)?;
    let (bit, rest) = as_names(cursor, depth)?;
    let blocks = blocks(cursor, depth)?;
    Ok(Last::Branch {
        channel: access.channel.name,
        channel_span: access.channel.span,
        path: access.route.path,
        path_span: access.route.span,
        proof: access.proof,
        bit: bit.name,
        bit_span: bit.span,
        rest: rest.name,
        rest_span: rest.span,
        blocks,
        span: cursor.since(&start),
    })
}

/// What follows the parameters of a loop.
#[cycle(block)]
#[tactic(auto, unfolding(token_cursor::specs::Syntax::skip))]
fn loop_rest(cursor: &mut Cursor<'_>, depth: usize) -> Result<(Res, (Proof, Block)), Stop>
    ensures { Answers (At depth (g.seq (λ x y. (x, y)) (word w.Arrow ▷ terms.res) (g.seq (λ x y. (x, y)) operands.proof (g.call ABlock (λ x. x)))) cursor.old) result cursor.new }
{
    cursor.skip(Word::Arrow)?;
    let result = res(cursor, depth)?;
    let (proof, block) = proof_and_block(cursor, depth)?;
    Ok((result, (proof, block)))
}

#[cycle(block)]
#[tactic(auto, unfolding(surface_grammar::specs::Statements::loop_last, token_cursor::specs::Syntax::skip, token_cursor::specs::Syntax::name_at, surface_grammar::specs::Grammar::name))]
fn loop_last(cursor: &mut Cursor<'_>, depth: usize) -> Result<Last, Stop>
    ensures { Answers (At depth spec.loop_last cursor.old) result cursor.new }
{
    let start = cursor.mark();
    cursor.skip(Word::Loop)?;
    let named = cursor.name()?;
    let bound = bound(cursor, depth)?;
    let starts = loop_params(cursor, depth)?;
    let (result, (proof, block)) = loop_rest(cursor, depth)?;
    Ok(Last::Loop {
        name: named.name,
        name_span: named.span,
        bound,
        starts,
        result,
        proof,
        block,
        span: cursor.since(&start),
    })
}

#[cycle(block)]
#[tactic(auto, unfolding(surface_grammar::specs::Statements::other_last, token_cursor::specs::Syntax::sees))]
fn other_last(cursor: &mut Cursor<'_>, depth: usize) -> Result<Last, Stop>
    ensures { Answers (At depth spec.other_last cursor.old) result cursor.new }
{
    if cursor.sees(Word::Match) {
        match_last(cursor, depth)
    } else if cursor.sees(Word::Branch) {
        branch_last(cursor, depth)
    } else if cursor.sees(Word::Absurd) {
        absurd_last(cursor, depth)
    } else if cursor.sees(Word::Loop) {
        loop_last(cursor, depth)
    } else {
        again_last(cursor, depth)
    }
}

#[cycle(block)]
#[tactic(auto, unfolding(surface_grammar::specs::Statements::last, token_cursor::specs::Syntax::sees, token_cursor::specs::Syntax::sees_name))]
fn last(cursor: &mut Cursor<'_>, depth: usize) -> Result<Last, Stop>
    ensures { Answers (At depth spec.last cursor.old) result cursor.new }
{
    if cursor.sees(Word::Ret) {
        ret_last(cursor, depth)
    } else if cursor.sees_name() {
        tail_last(cursor, depth)
    } else if cursor.sees(Word::If) {
        if_last(cursor, depth)
    } else {
        other_last(cursor, depth)
    }
}

#[cycle(block)]
#[tactic(auto, using(token_cursor::proofs::Opens::opens_brace), unfolding(surface_grammar::specs::Statements::block, token_cursor::specs::Syntax::skip))]
pub fn block(cursor: &mut Cursor<'_>, depth: usize) -> Result<Block, Stop>
    ensures { Answers (At depth spec.block cursor.old) result cursor.new }
{
    let inner = cursor.open(Word::LeftBrace, depth)?;
    let stmts = stmts(cursor, inner)?;
    let last = Boxed::new(cursor.alloc(), last(cursor, inner)?)?;
    cursor.skip(Word::RightBrace)?;
    Ok(Block { stmts, last })
}
