//! Parts of what a letter does: a number is too large where 64 bits don't hold it.
ghost use Rattle.std.specs.Prelude.{◌≡◌, Ok, IfOk, IfErr};
ghost use Rattle.nameless_shapes.specs.Parts.{ref_of};
ghost use Rattle.outline_language.specs.Nameless as nameless;
ghost use Rattle.outline_language.specs.Contexts.{formed};
ghost use Rattle.outline_language.specs.Paths as path;
ghost use Rattle.outline_language.specs.Paths.{formed_ref, formed_res};
ghost use Rattle.outline_obligations.specs.Reasons.{IsReason};
ghost use Rattle.outline_obligations.specs.Cursors.{cursor_at};
ghost use Rattle.protocol_tables.specs.Reading.{direction_of, message_of};
ghost use Rattle.outline_paths.specs.Following as spec;
ghost use Rattle.outline_paths.specs.Settings.{asked_in};

use crate::settings::Setting;
use chan_syntax::Letter;
use nameless_forms::{Form, form_with};
use nameless_shapes::{Ref, Resource};
use outline_obligations::{ContextFault, Refused, Taken, oblige_at_most, oblige_less};
use protocol_tables::{Direction, Message};
use shape_instances::{ref_with, res_with};
use std::alloc::Global;

/// The form with the arguments of an end.
pub(crate) fn put_form(alloc: Global, args: &[Form], form: &Form) -> Result<Form, ContextFault>
    ensures ok { IfOk result (λ put. formed (nameless.form_with args.now 0 form.now) ≡ Ok put) }
    ensures err { IfErr result (IsReason (formed (nameless.form_with args.now 0 form.now))) }
{
    let put = form_with(alloc, args, 0, form)?;
    Ok(put)
}

/// The reference with the arguments of an end.
pub(crate) fn put_ref(alloc: Global, args: &[Form], end: &Ref) -> Result<Ref, ContextFault>
    ensures ok { IfOk result (λ put. formed_ref (nameless.ref_with args.now 0 (ref_of end.now)) ≡ Ok (ref_of put)) }
    ensures err { IfErr result (IsReason (formed_ref (nameless.ref_with args.now 0 (ref_of end.now)))) }
{
    let put = ref_with(alloc, args, end)?;
    Ok(put)
}

fn put_res(alloc: Global, args: &[Form], res: &Resource) -> Result<Resource, ContextFault>
    ensures ok { IfOk result (λ put. formed_res (nameless.res_with args.now 0 res.now) ≡ Ok put) }
    ensures err { IfErr result (IsReason (formed_res (nameless.res_with args.now 0 res.now))) }
{
    let put = res_with(alloc, args, 0, res)?;
    Ok(put)
}

/// Shows what a letter asks of the two terms: the first is at most the second, or greater.
pub(crate) fn ask(
    alloc: Global,
    setting: &Setting<'_>,
    letter: Letter,
    left: &Form,
    right: &Form,
    taken: Taken,
) -> Result<Taken, ContextFault>
    ensures ok { IfOk result (λ after. asked_in setting.now letter left.now right.now taken ≡ Ok (cursor_at setting.now.proof.now after)) }
    ensures err { IfErr result (IsReason (asked_in setting.now letter left.now right.now taken)) }
{
    match letter {
        Letter::Left => oblige_at_most(
            alloc,
            Refused::OnPath,
            setting.variables,
            setting.hyps,
            left,
            right,
            setting.proof,
            taken,
        ),
        Letter::Right => oblige_less(
            alloc,
            Refused::OnPath,
            setting.variables,
            setting.hyps,
            right,
            left,
            setting.proof,
            taken,
        ),
    }
}

fn turned(dual: bool, direction: Direction) -> Direction
    ensures { direction_of result ≡ path.turned dual (direction_of direction) }
{
    match (dual, direction) {
        (false, direction) => direction,
        (true, Direction::Sends) => Direction::Receives,
        (true, Direction::Receives) => Direction::Sends,
    }
}

/// The message with the arguments of the end; the dual has the other direction.
pub(crate) fn told(alloc: Global, end: &Ref, message: &Message) -> Result<Message, ContextFault>
    ensures ok { IfOk result (λ put. spec.told (ref_of end.now) (message_of message.now) ≡ Ok (message_of put)) }
    ensures err { IfErr result (IsReason (spec.told (ref_of end.now) (message_of message.now))) }
{
    let res = put_res(alloc, end.args.as_slice(), &message.res)?;
    Ok(Message {
        direction: turned(end.dual, message.direction),
        res,
    })
}
