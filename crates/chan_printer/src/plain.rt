//! Statements and lasts that hold no block, a function for each group of forms.
#![tactic(auto, using(surface_spelling::proofs::Bytes::byte_rules, surface_spelling::proofs::SpelledBlocks::statements, surface_spelling::proofs::SpelledBlocks::lasts, std::proofs::lemmas::Grind::common_steps))]

ghost use Rattle.std.specs.Prelude.{◌≡◌, ◌++◌, ℕ, OnOk};
ghost use Rattle.surface_spelling.specs.Layout.{bytes};
ghost use Rattle.surface_spelling.specs.Blocks as spec;
ghost use Rattle.chan_printer.specs.Groups.{group, group_of_last, computation, start, exchange, message, signal, end};

use crate::heads::{
    put_access, put_call, put_chosen, put_let_fork, put_let_name, put_let_pair, put_let_pat,
    put_let_two_pats, put_sent, put_target, put_term_and_number, put_two_terms,
};
use chan_base::Memory;
use chan_syntax::{Last, Stmt};
use operand_printer::{Spell, put, put_path, put_proof};
use std::alloc::Global;

/// A Let, Mul, Div or Rem.
pub fn put_computation(alloc: Global, text: &mut Vec<u8>, stmt: &Stmt) -> Result<(), Memory>
    requires form { group stmt.now ≡ computation }
    ensures { (depth : ℕ) → OnOk result (text.new.items ≡ text.old.items ++ bytes (spec.stmt depth stmt.now)) }
{
    match stmt {
        Stmt::Let { name, term, .. } => {
            put_let_name(text, name)?;
            term.spell(alloc, text)
        }
        Stmt::Mul {
            name,
            left,
            right,
            ..
        } => {
            put_let_name(text, name)?;
            put(text, b"mul")?;
            put_two_terms(alloc, text, left, right)
        }
        Stmt::Div {
            name,
            term,
            divisor,
            ..
        } => {
            put_let_name(text, name)?;
            put(text, b"div")?;
            put_term_and_number(alloc, text, term, *divisor)
        }
        Stmt::Rem {
            name,
            term,
            divisor,
            ..
        } => {
            put_let_name(text, name)?;
            put(text, b"rem")?;
            put_term_and_number(alloc, text, term, *divisor)
        }
        _ => unreachable!(),
    }
}

/// A Call, Fork or Print.
pub fn put_started(alloc: Global, text: &mut Vec<u8>, stmt: &Stmt) -> Result<(), Memory>
    requires form { group stmt.now ≡ start }
    ensures { (depth : ℕ) → OnOk result (text.new.items ≡ text.old.items ++ bytes (spec.stmt depth stmt.now)) }
{
    match stmt {
        Stmt::Call {
            pat,
            func,
            values,
            proof,
            ..
        } => {
            put_let_pat(alloc, text, pat)?;
            put_call(alloc, text, func, values.as_slice(), proof)
        }
        Stmt::Fork {
            name,
            proto,
            func,
            values,
            proof,
            ..
        } => {
            put_let_fork(alloc, text, name, proto)?;
            put_call(alloc, text, func, values.as_slice(), proof)
        }
        Stmt::Print { term, .. } => {
            put(text, b"print ")?;
            term.spell(alloc, text)
        }
        _ => unreachable!(),
    }
}

/// A Send1, Recv1 or Split.
pub fn put_exchange(alloc: Global, text: &mut Vec<u8>, stmt: &Stmt) -> Result<(), Memory>
    requires form { group stmt.now ≡ exchange }
    ensures { (depth : ℕ) → OnOk result (text.new.items ≡ text.old.items ++ bytes (spec.stmt depth stmt.now)) }
{
    match stmt {
        Stmt::Send1 {
            channel,
            path,
            value,
            proof,
            ..
        } => {
            put(text, b"send1 ")?;
            put(text, channel.as_slice())?;
            put_path(text, path.as_slice())?;
            put_sent(alloc, text, value, proof)
        }
        Stmt::Recv1 {
            pat,
            channel,
            path,
            proof,
            ..
        } => {
            put_let_pat(alloc, text, pat)?;
            put(text, b"recv1 ")?;
            put_access(alloc, text, channel, path.as_slice(), proof)
        }
        Stmt::Split {
            first,
            second,
            name,
            ..
        } => {
            put_let_two_pats(alloc, text, first, second)?;
            put(text, name.as_slice())
        }
        _ => unreachable!(),
    }
}

/// A Send or Recv.
pub fn put_message(alloc: Global, text: &mut Vec<u8>, stmt: &Stmt) -> Result<(), Memory>
    requires form { group stmt.now ≡ message }
    ensures { (depth : ℕ) → OnOk result (text.new.items ≡ text.old.items ++ bytes (spec.stmt depth stmt.now)) }
{
    match stmt {
        Stmt::Send {
            name,
            channel,
            proto,
            path,
            value,
            proof,
            ..
        } => {
            put_let_name(text, name)?;
            put(text, b"send ")?;
            put_target(alloc, text, channel, proto, path.as_slice())?;
            put_sent(alloc, text, value, proof)
        }
        Stmt::Recv {
            first,
            second,
            names,
            channel,
            path,
            proof,
            ..
        } => {
            put_let_pair(alloc, text, first, second, names.as_slice())?;
            put(text, b"recv ")?;
            put_access(alloc, text, channel, path.as_slice(), proof)
        }
        _ => unreachable!(),
    }
}

/// A Close, Wait or Choose.
pub fn put_signal(alloc: Global, text: &mut Vec<u8>, stmt: &Stmt) -> Result<(), Memory>
    requires form { group stmt.now ≡ signal }
    ensures { (depth : ℕ) → OnOk result (text.new.items ≡ text.old.items ++ bytes (spec.stmt depth stmt.now)) }
{
    match stmt {
        Stmt::Close {
            channel,
            path,
            proof,
            ..
        } => {
            put(text, b"close ")?;
            put_access(alloc, text, channel, path.as_slice(), proof)
        }
        Stmt::Wait {
            channel,
            path,
            proof,
            ..
        } => {
            put(text, b"wait ")?;
            put_access(alloc, text, channel, path.as_slice(), proof)
        }
        Stmt::Choose {
            arm,
            name,
            channel,
            proto,
            path,
            proof,
            ..
        } => {
            put_let_name(text, name)?;
            put_chosen(alloc, text, u64::from(*arm))?;
            put(text, b" ")?;
            put_target(alloc, text, channel, proto, path.as_slice())?;
            put_proof(alloc, text, proof)
        }
        _ => unreachable!(),
    }
}

/// A Ret, Tail or Absurd.
pub fn put_end(alloc: Global, text: &mut Vec<u8>, last: &Last) -> Result<(), Memory>
    requires form { group_of_last last.now ≡ end }
    ensures { (depth : ℕ) → OnOk result (text.new.items ≡ text.old.items ++ bytes (spec.last depth last.now)) }
{
    match last {
        Last::Ret { value, proof, .. } => {
            put(text, b"ret")?;
            put_sent(alloc, text, value, proof)
        }
        Last::Tail {
            func,
            values,
            proof,
            ..
        } => put_call(alloc, text, func, values.as_slice(), proof),
        Last::Absurd { proof, .. } => {
            put(text, b"absurd")?;
            put_proof(alloc, text, proof)
        }
        _ => unreachable!(),
    }
}
