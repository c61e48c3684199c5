//! The lines of statements, without blocks.
#![tactic(auto, using(surface_spelling::proofs::Bytes::byte_rules, std::proofs::lemmas::Grind::common_steps), unfolding(surface_spelling::specs::Blocks::let_is, surface_spelling::specs::Blocks::call, surface_spelling::specs::Blocks::access, surface_spelling::specs::Blocks::target, surface_spelling::specs::Blocks::task_head, surface_spelling::specs::Blocks::loop_head, surface_spelling::specs::Blocks::let_fork, surface_spelling::specs::Blocks::sent, surface_spelling::specs::Blocks::condition, surface_spelling::specs::Blocks::match_head, surface_spelling::specs::Blocks::as_names, surface_spelling::specs::Blocks::at_most, surface_spelling::specs::Blocks::name_and_binds, surface_spelling::specs::Blocks::header, surface_spelling::specs::Blocks::result_behind, surface_spelling::specs::Blocks::branch_head))]

ghost use Rattle.std.specs.Prelude.{◌≡◌, [], ◌∷◌, ◌++◌, OnOk};
ghost use Rattle.surface_spelling.specs.Layout.{bytes, line, name as name_word, pair, in_parens, listed, behind_commas};
ghost use Rattle.surface_spelling.specs.Layout.{number as number_word};
ghost use Rattle.surface_spelling.specs.Operands as operand;
ghost use Rattle.surface_spelling.specs.Blocks as spec;

use chan_base::Memory;
use chan_syntax::{Bound, Ident, Letter, Param, Pat, Proof, Ref, Res, Start, Supply, Term};
use operand_printer::{
    Spell, put, put_behind_commas, put_binds_behind, put_in_parens, put_line, put_names_behind,
    put_number, put_pat, put_path, put_proof, put_reference, put_res, put_tag, put_two_pats,
    put_value, put_values,
};
use std::alloc::Global;

/// What a name is bound to stands behind this.
pub fn put_let_name(text: &mut Vec<u8>, name: &Ident) -> Result<(), Memory>
    ensures { OnOk result (text.new.items ≡ text.old.items ++ bytes (spec.let_is (name_word name.now ∷ []))) }
{
    put(text, b"let ")?;
    put(text, name.as_slice())?;
    put(text, b" = ")
}

pub fn put_let_pat(alloc: Global, text: &mut Vec<u8>, pat: &Pat) -> Result<(), Memory>
    ensures { OnOk result (text.new.items ≡ text.old.items ++ bytes (spec.let_is (operand.pat pat.now))) }
{
    put(text, b"let ")?;
    put_pat(alloc, text, pat)?;
    put(text, b" = ")
}

/// Two patterns, and the names of integers.
pub fn put_let_pair(
    alloc: Global,
    text: &mut Vec<u8>,
    first: &Pat,
    second: &Pat,
    names: &[Ident],
) -> Result<(), Memory>
    ensures { OnOk result (text.new.items ≡ text.old.items ++ bytes (spec.let_is (operand.two_pats first.now second.now ++ operand.names_behind names.now))) }
{
    put(text, b"let ")?;
    put_two_pats(alloc, text, first, second)?;
    put_names_behind(alloc, text, names)?;
    put(text, b" = ")
}

/// Two terms in parentheses.
pub fn put_two_terms(
    alloc: Global,
    text: &mut Vec<u8>,
    left: &Term,
    right: &Term,
) -> Result<(), Memory>
    ensures { OnOk result (text.new.items ≡ text.old.items ++ bytes (pair (operand.term left.now) (operand.term right.now))) }
{
    put(text, b"(")?;
    left.spell(alloc, text)?;
    put(text, b", ")?;
    right.spell(alloc, text)?;
    put(text, b")")
}

/// A term and a number in parentheses.
pub fn put_term_and_number(
    alloc: Global,
    text: &mut Vec<u8>,
    term: &Term,
    number: u64,
) -> Result<(), Memory>
    ensures { OnOk result (text.new.items ≡ text.old.items ++ bytes (pair (operand.term term.now) (number_word number ∷ []))) }
{
    put(text, b"(")?;
    term.spell(alloc, text)?;
    put(text, b", ")?;
    put_number(alloc, text, number)?;
    put(text, b")")
}

pub fn put_call(
    alloc: Global,
    text: &mut Vec<u8>,
    func: &Ident,
    values: &[Supply],
    proof: &Proof,
) -> Result<(), Memory>
    ensures { OnOk result (text.new.items ≡ text.old.items ++ bytes (spec.call func.now values.now proof.now)) }
{
    put(text, func.as_slice())?;
    put_values(alloc, text, values)?;
    put_proof(alloc, text, proof)
}

/// A channel, the path along its reference, and a proof.
pub fn put_access(
    alloc: Global,
    text: &mut Vec<u8>,
    channel: &Ident,
    path: &[Letter],
    proof: &Proof,
) -> Result<(), Memory>
    ensures { OnOk result (text.new.items ≡ text.old.items ++ bytes (spec.access channel.now path.now proof.now)) }
{
    put(text, channel.as_slice())?;
    put_path(text, path)?;
    put_proof(alloc, text, proof)
}

/// The arm that a choice goes into.
#[tactic(auto, using(surface_spelling::proofs::Bytes::byte_rules, std::proofs::lemmas::Grind::common_steps), unfolding(surface_spelling::specs::Blocks::chosen))]
pub fn put_chosen(alloc: Global, text: &mut Vec<u8>, number: u64) -> Result<(), Memory>
    ensures { OnOk result (text.new.items ≡ text.old.items ++ bytes (spec.chosen number)) }
{
    if number == 0 {
        put(text, b"left")
    } else if number == 1 {
        put(text, b"right")
    } else {
        put(text, b"#")?;
        put_number(alloc, text, number)
    }
}

/// A channel, its reference, and the path along it.
pub fn put_target(
    alloc: Global,
    text: &mut Vec<u8>,
    channel: &Ident,
    proto: &Ref,
    path: &[Letter],
) -> Result<(), Memory>
    ensures { OnOk result (text.new.items ≡ text.old.items ++ bytes (spec.target channel.now proto.now path.now)) }
{
    put(text, channel.as_slice())?;
    put(text, b": ")?;
    put_reference(alloc, text, proto)?;
    put_path(text, path)
}

fn put_name_and_binds(
    alloc: Global,
    text: &mut Vec<u8>,
    name: &Ident,
    bound: &Bound,
) -> Result<(), Memory>
    ensures { OnOk result (text.new.items ≡ text.old.items ++ bytes (spec.name_and_binds name.now bound.now)) }
{
    put(text, name.as_slice())?;
    put_binds_behind(alloc, text, bound)
}

/// A name, its binders, and items in parentheses.
pub fn put_header<T: Spell>(
    alloc: Global,
    text: &mut Vec<u8>,
    name: &Ident,
    bound: &Bound,
    items: &[T],
) -> Result<(), Memory>
    ensures { OnOk result (text.new.items ≡ text.old.items ++ bytes (spec.header name.now bound.now (listed T.pieces items.now))) }
{
    put_name_and_binds(alloc, text, name, bound)?;
    put_in_parens(alloc, text, items)
}

pub fn put_result_behind(alloc: Global, text: &mut Vec<u8>, res: &Res) -> Result<(), Memory>
    ensures { OnOk result (text.new.items ≡ text.old.items ++ bytes (spec.result_behind res.now)) }
{
    put(text, b" -> ")?;
    put_res(alloc, text, res)
}

fn put_task_params(
    alloc: Global,
    text: &mut Vec<u8>,
    param: &Param,
    starts: &[Start],
) -> Result<(), Memory>
    ensures { OnOk result (text.new.items ≡ text.old.items ++ bytes (in_parens (operand.param param.now ++ behind_commas spec.start starts.now))) }
{
    put(text, b"(")?;
    param.spell(alloc, text)?;
    put_behind_commas(alloc, text, starts)?;
    put(text, b")")
}

/// The head of a forked block: the parameter for the channel stands first.
#[tactic(auto, using(surface_spelling::proofs::Bytes::byte_rules, std::proofs::lemmas::Grind::common_steps), unfolding(surface_spelling::specs::Blocks::task_head))]
pub fn put_task_head(
    alloc: Global,
    text: &mut Vec<u8>,
    func: &Ident,
    bound: &Bound,
    param: &Param,
    starts: &[Start],
    proof: &Proof,
) -> Result<(), Memory>
    ensures { OnOk result (text.new.items ≡ text.old.items ++ bytes (spec.task_head func.now bound.now param.now starts.now proof.now)) }
{
    put_name_and_binds(alloc, text, func, bound)?;
    put_task_params(alloc, text, param, starts)?;
    put_proof(alloc, text, proof)?;
    put(text, b" ")
}

#[tactic(auto, using(surface_spelling::proofs::Bytes::byte_rules, std::proofs::lemmas::Grind::common_steps), unfolding(surface_spelling::specs::Blocks::loop_head))]
pub fn put_loop_head(
    alloc: Global,
    text: &mut Vec<u8>,
    name: &Ident,
    bound: &Bound,
    starts: &[Start],
    res: &Res,
    proof: &Proof,
) -> Result<(), Memory>
    ensures { OnOk result (text.new.items ≡ text.old.items ++ bytes (spec.loop_head name.now bound.now starts.now res.now proof.now)) }
{
    put_header(alloc, text, name, bound, starts)?;
    put_result_behind(alloc, text, res)?;
    put_proof(alloc, text, proof)?;
    put(text, b" ")
}

/// `let NAME = fork` and the reference.
#[tactic(auto, using(surface_spelling::proofs::Bytes::byte_rules, std::proofs::lemmas::Grind::common_steps), unfolding(surface_spelling::specs::Blocks::let_fork))]
pub fn put_let_fork(
    alloc: Global,
    text: &mut Vec<u8>,
    name: &Ident,
    proto: &Ref,
) -> Result<(), Memory>
    ensures { OnOk result (text.new.items ≡ text.old.items ++ bytes (spec.let_fork name.now proto.now)) }
{
    put_let_name(text, name)?;
    put(text, b"fork ")?;
    put_reference(alloc, text, proto)?;
    put(text, b" ")
}

/// A value that is sent, and a proof.
pub fn put_sent(
    alloc: Global,
    text: &mut Vec<u8>,
    value: &Supply,
    proof: &Proof,
) -> Result<(), Memory>
    ensures { OnOk result (text.new.items ≡ text.old.items ++ bytes (spec.sent value.now proof.now)) }
{
    put(text, b" ")?;
    put_value(alloc, text, value)?;
    put_proof(alloc, text, proof)
}

/// The head of a split, with two patterns.
pub fn put_let_two_pats(
    alloc: Global,
    text: &mut Vec<u8>,
    first: &Pat,
    second: &Pat,
) -> Result<(), Memory>
    ensures { OnOk result (text.new.items ≡ text.old.items ++ bytes (spec.let_is (operand.two_pats first.now second.now))) }
{
    put(text, b"let ")?;
    put_two_pats(alloc, text, first, second)?;
    put(text, b" = ")
}

fn put_at_most(alloc: Global, text: &mut Vec<u8>, left: &Term, right: &Term) -> Result<(), Memory>
    ensures { OnOk result (text.new.items ≡ text.old.items ++ bytes (spec.at_most left.now right.now)) }
{
    left.spell(alloc, text)?;
    put(text, b" <= ")?;
    right.spell(alloc, text)
}

/// What an `if` asks.
pub fn put_condition(
    alloc: Global,
    text: &mut Vec<u8>,
    left: &Term,
    right: &Term,
) -> Result<(), Memory>
    ensures { OnOk result (text.new.items ≡ text.old.items ++ bytes (spec.condition left.now right.now)) }
{
    put(text, b"if ")?;
    put_at_most(alloc, text, left, right)?;
    put(text, b" ")
}

pub fn put_match_head(text: &mut Vec<u8>, name: &Ident) -> Result<(), Memory>
    ensures { OnOk result (text.new.items ≡ text.old.items ++ bytes (spec.match_head name.now)) }
{
    put(text, b"match ")?;
    put(text, name.as_slice())?;
    put(text, b" {")
}

fn put_arm_tag(alloc: Global, text: &mut Vec<u8>, number: u64, depth: usize) -> Result<(), Memory>
    ensures { OnOk result (text.new.items ≡ text.old.items ++ (bytes (line depth) ++ (bytes (operand.tag number) ++ 32 ∷ []))) }
{
    put_line(text, depth)?;
    put_tag(alloc, text, number)?;
    put(text, b" ")
}

/// What stands before the block of an arm, on a line of its own.
#[tactic(auto, using(surface_spelling::proofs::Bytes::byte_rules, std::proofs::lemmas::Grind::common_steps), unfolding(surface_spelling::specs::Blocks::arm_head))]
pub fn put_arm_head(
    alloc: Global,
    text: &mut Vec<u8>,
    number: u64,
    pat: &Pat,
    depth: usize,
) -> Result<(), Memory>
    ensures { OnOk result (text.new.items ≡ text.old.items ++ bytes (spec.arm_head depth number pat.now)) }
{
    put_arm_tag(alloc, text, number, depth)?;
    put_pat(alloc, text, pat)?;
    put(text, b" ")
}

/// The names that a branch binds.
fn put_as_names(text: &mut Vec<u8>, bit: &Ident, rest: &Ident) -> Result<(), Memory>
    ensures { OnOk result (text.new.items ≡ text.old.items ++ bytes (spec.as_names bit.now rest.now)) }
{
    put(text, b" as ")?;
    put(text, bit.as_slice())?;
    put(text, b", ")?;
    put(text, rest.as_slice())?;
    put(text, b" ")
}

pub fn put_branch_head(
    alloc: Global,
    text: &mut Vec<u8>,
    channel: &Ident,
    path: &[Letter],
    proof: &Proof,
    bit: &Ident,
    rest: &Ident,
) -> Result<(), Memory>
    ensures { OnOk result (text.new.items ≡ text.old.items ++ bytes (spec.branch_head channel.now path.now proof.now bit.now rest.now)) }
{
    put(text, b"branch ")?;
    put_access(alloc, text, channel, path, proof)?;
    put_as_names(text, bit, rest)
}
