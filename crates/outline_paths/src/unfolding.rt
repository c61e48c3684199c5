//! Ends that are followed by the letters of a path, to the message that they have there.
ghost use Rattle.std.specs.Prelude.{◌≡◌, ◌≤◌, All, Ok, IfOk, IfErr};
ghost use Rattle.farkas_check.specs.Rows.{IsNarrow};
ghost use Rattle.chan_syntax.specs.Bounds.{IsBounded};
ghost use Rattle.nameless_shapes.specs.Parts.{ref_of};
ghost use Rattle.outline_language.specs.Nameless.{turned_if};
ghost use Rattle.outline_obligations.specs.Reasons.{IsReason};
ghost use Rattle.protocol_tables.specs.Reading.{fork_of, message_of};
ghost use Rattle.outline_paths.specs.Following as spec;
ghost use Rattle.outline_paths.specs.Settings.{followed_of, letter_in, step_in, follow_in, unfolded_in};
ghost use Rattle.outline_paths.specs.Answers.{Unfolds, unfolded_of};

use crate::following::{ask, put_form, put_ref, told};
use crate::paths::{fork_named, is_path, message_named, on_way};
use crate::settings::Setting;
use chan_syntax::{Letter, Proof};
use farkas_check::Rows;
use nameless_shapes::Ref;
use outline_obligations::{ContextFault, Taken, Why};
use protocol_tables::{Fork, Message, ProtocolTable};
use std::alloc::Global;

/// Where a path has come, and how many of the proof's certificates were taken.
#[derive(Drop)]
struct Followed {
    end: Ref,
    taken: Taken,
}

/// What an end sends or receives behind a path, and how much of the proof was taken on the way.
#[derive(Drop)]
pub struct Unfolded {
    pub message: Message,
    pub taken: Taken,
}

/// The end, or its dual.
fn turned(dual: bool, end: Ref) -> Ref
    ensures { ref_of result ≡ turned_if dual (ref_of end) }
{
    Ref {
        dual: end.dual != dual,
        name: end.name,
        args: end.args,
    }
}

/// Shows what the letter asks for, and goes on at the end that it picks.
fn take_letter(
    alloc: Global,
    setting: &Setting<'_>,
    letter: Letter,
    fork: &Fork,
    at: &Followed,
) -> Result<Followed, ContextFault>
    ensures ok { IfOk result (λ next. letter_in setting.now letter (fork_of fork.now) at.now ≡ Ok (followed_of setting.now next)) }
    ensures err { IfErr result (IsReason (letter_in setting.now letter (fork_of fork.now) at.now)) }
{
    let args = at.end.args.as_slice();
    let left = put_form(alloc, args, &fork.left)?;
    let right = put_form(alloc, args, &fork.right)?;
    let taken = ask(alloc, setting, letter, &left, &right, at.taken)?;
    let next = put_ref(alloc, args, on_way(letter, fork))?;
    Ok(Followed {
        end: turned(at.end.dual, next),
        taken,
    })
}

fn follow_letter(
    alloc: Global,
    setting: &Setting<'_>,
    letter: Letter,
    at: &Followed,
) -> Result<Followed, ContextFault>
    ensures ok { IfOk result (λ next. step_in setting.now letter at.now ≡ Ok (followed_of setting.now next)) }
    ensures err { IfErr result (IsReason (step_in setting.now letter at.now)) }
{
    match fork_named(setting.table, &at.end.name) {
        Some(fork) => take_letter(alloc, setting, letter, fork, at),
        None => Err(ContextFault::Why(Why::WrongForm)),
    }
}

fn follow(
    alloc: Global,
    setting: &Setting<'_>,
    path: &[Letter],
    start: Followed,
) -> Result<Followed, ContextFault>
    ensures ok { IfOk result (λ last. follow_in setting.now path.now start ≡ Ok (followed_of setting.now last)) }
    ensures err { IfErr result (IsReason (follow_in setting.now path.now start)) }
{
    let mut at = start;
    for letter in path {
        at = follow_letter(alloc, setting, *letter, &at)?;
    }
    Ok(at)
}

/// What an end sends or receives, with its arguments.
fn message_at(alloc: Global, table: &ProtocolTable, end: &Ref) -> Result<Message, ContextFault>
    ensures ok { IfOk result (λ message. spec.message_of table.now (ref_of end.now) ≡ Ok (message_of message)) }
    ensures err { IfErr result (IsReason (spec.message_of table.now (ref_of end.now))) }
{
    match message_named(table, &end.name) {
        Some(message) => told(alloc, end, message),
        None => Err(ContextFault::Why(Why::WrongForm)),
    }
}

/// Follows the letters of a path that has the form, and takes the message behind it.
fn unfold_in(
    alloc: Global,
    setting: &Setting<'_>,
    end: &Ref,
    path: &[Letter],
    taken: Taken,
) -> Result<Unfolded, ContextFault>
    ensures ok { IfOk result (λ u. unfolded_in setting.now end.now path.now taken ≡ Ok (unfolded_of setting.now.proof.now u)) }
    ensures err { IfErr result (IsReason (unfolded_in setting.now end.now path.now taken)) }
{
    if !is_path(setting.table, path, &end.name) {
        return Err(ContextFault::Why(Why::WrongForm));
    }
    let end = end.copy(alloc)?;
    let last = follow(alloc, setting, path, Followed { end, taken })?;
    let message = message_at(alloc, setting.table, &last.end)?;
    Ok(Unfolded {
        message,
        taken: last.taken,
    })
}

/// What an end sends or receives past the `if` equations of a path, each letter of which a certificate shows, unless its row asks for
/// nothing. The first reason tells why there is no such message.
pub fn unfold(
    alloc: Global,
    table: &ProtocolTable,
    variables: u32,
    hyps: &Rows,
    end: &Ref,
    path: &[Letter],
    proof: &Proof,
    taken: Taken,
) -> Result<Unfolded, ContextFault>
    requires few { variables ≤ 256 }
    requires hypotheses { All IsNarrow hyps.now }
    requires certs { All IsBounded proof.now.certs }
    ensures ok { IfOk result (λ u. Unfolds (λ answer. answer ≡ Ok (unfolded_of proof.now u)) table.now variables hyps.now end.now path.now proof.now taken) }
    ensures err { IfErr result (λ fault. Unfolds (λ answer. IsReason answer fault) table.now variables hyps.now end.now path.now proof.now taken) }
{
    let setting = Setting {
        table,
        variables,
        hyps,
        proof,
    };
    unfold_in(alloc, &setting, end, path, taken)
}
