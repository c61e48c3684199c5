//! Ends that are followed past `if` equations, to the message that they have there.
ghost use Rattle.std.specs.Prelude.{◌≡◌, ◌≤◌, [], true, All, length, map, is_some, Ok, Err, OnOk, IfOk, IfErr};
ghost use Rattle.farkas_check.specs.Rows.{IsNarrow};
ghost use Rattle.chan_syntax.specs.Bounds.{IsBounded};
ghost use Rattle.chan_syntax.specs.Reading.{term_of, ref_of, proto_of, letter_of, cert_of};
ghost use Rattle.substitution.specs.declared.faults.SubstFault.TheVariants as cause;
ghost use Rattle.outline_language.specs.Equations.{proto_named};
ghost use Rattle.protocols.specs.Unfolding as spec;
ghost use Rattle.protocols.specs.Unfolding.{On, Stop, HasArity, AreFormed};
ghost use Rattle.protocols.specs.FaultsOf.{IsFault};
ghost use Rattle.protocols.specs.Settings.{under, setting_of, IsReady, ArgumentsFit, IsTheHeadAs, picked_in, IsNext, StepsAs, FollowsAs, UnfoldsAs};
ghost use Rattle.protocols.specs.Answers.{found_of};
ghost use Rattle.protocols.specs.Places.{LeadsTo, LeadTo, IsPlacedHead};
ghost use Rattle.substitution.specs.Places.{ArePlaced, pieces_of_ref};

use crate::asking::{Setting, formed_row, oblige};
use crate::faults::UnfoldFault;
use crate::messages::{Head, head_of};
use crate::paths::{has_form, on_way, proto_named};
use chan_syntax::{Certs, Equation, Letter, Path, Proto, Protos, Ref};
use farkas_check::Rows;
use outline_rules::IntNames;
use std::alloc::Global;
use substitution::{SubstFault, subst_terms};

/// The head of an end, and how many certificates were taken on the way to it.
#[derive(Drop)]
pub struct Unfolded {
    pub head: Head,
    pub used: u32,
}

/// Where a path has led so far, and how many certificates were taken.
#[derive(Drop)]
struct Followed {
    end: Ref,
    used: u32,
}

/// The reference that a letter picked of an end's equation, with the arguments of the end put in.
fn next_end(alloc: Global, proto: &Proto, end: &Ref, picked: &Ref) -> Result<Ref, SubstFault>
    requires { length end.now.args ≡ length proto.now.params }
    ensures places { IfOk result (λ next. ArePlaced proto.now.params end.now.args (pieces_of_ref [] picked.now) (pieces_of_ref [] next)) }
    ensures ok { IfOk result (λ next. IsNext proto.now.params end.now picked.now next) }
    ensures err { IfErr result (λ fault. fault ≡ cause.TooLarge → ArgumentsFit proto.now.params end.now picked.now → ⊥) }
{
    let args = subst_terms(alloc, &picked.args, &proto.params, &end.args)?;
    Ok(Ref {
        dual: picked.dual != end.dual,
        name: picked.name.copy()?,
        name_span: picked.name_span,
        args,
        span: picked.span,
    })
}

/// Follows an end by one letter.
fn step(
    alloc: Global,
    setting: &Setting<'_>,
    at: &Followed,
    letter: Letter,
) -> Result<Followed, UnfoldFault>
    requires ready { IsReady setting.now }
    requires arity { HasArity (setting_of setting.now).protos (ref_of at.now.end) }
    requires goes { is_some (picked_in setting.now letter at.now.end.name) ≡ true }
    ensures places { IfOk result (λ next. LeadsTo setting.now.protos.now letter at.now.end next.end) }
    ensures ok { IfOk result (λ next. StepsAs setting.now at.now.used at.now.end letter (On (ref_of next.end) next.used)) }
    ensures err { IfErr result (IsFault (λ fault. StepsAs setting.now at.now.used at.now.end letter (Stop fault))) }
{
    let Some(proto) = proto_named(setting.protos.as_slice(), &at.end.name) else {
        unreachable!();
    };
    let Equation::Branch(left, right, this, other) = &proto.equation else {
        unreachable!();
    };
    let row = formed_row(
        alloc,
        setting,
        &proto.params,
        &at.end.args,
        letter,
        left,
        right,
    )?;
    let used = oblige(alloc, setting, at.used, &row)?;
    let end = next_end(alloc, proto, &at.end, on_way(letter, this, other))?;
    Ok(Followed { end, used })
}

/// Follows an end by all letters of a path.
fn follow(
    alloc: Global,
    setting: &Setting<'_>,
    from: &Ref,
    path: &[Letter],
) -> Result<Followed, UnfoldFault>
    requires ready { IsReady setting.now }
    requires arity { HasArity (setting_of setting.now).protos (ref_of from.now) }
    requires form { spec.has_form (setting_of setting.now).protos (map letter_of path.now) from.now.name ≡ true }
    ensures places { IfOk result (λ last. LeadTo setting.now.protos.now path.now from.now last.end) }
    ensures ok { IfOk result (λ last. FollowsAs setting.now from.now path.now (On (ref_of last.end) last.used)) }
    ensures arity { IfOk result (λ last. HasArity (setting_of setting.now).protos (ref_of last.end)) }
    ensures stops { IfOk result (λ last. spec.stops (proto_named last.end.name (setting_of setting.now).protos) ≡ true) }
    ensures err { IfErr result (IsFault (λ fault. FollowsAs setting.now from.now path.now (Stop fault))) }
{
    let mut at = Followed {
        end: from.copy(alloc)?,
        used: 0,
    };
    for letter in path {
        at = step(alloc, setting, &at, *letter)?;
    }
    Ok(at)
}

/// The head of an end, past the `if` equations that a path follows: each letter is shown by a
/// certificate, in order, unless its row asks for nothing.
pub fn unfold(
    alloc: Global,
    protos: &Protos,
    from: &Ref,
    path: &Path,
    certs: &Certs,
    hyps: &Rows,
    names: &IntNames,
) -> Result<Unfolded, UnfoldFault>
    requires protos { AreFormed (map proto_of protos.now) }
    requires arity { HasArity (map proto_of protos.now) (ref_of from.now) }
    requires certs { All IsBounded certs.now }
    requires hyps { All IsNarrow hyps.now }
    requires ints { length names.now.ints ≤ 256 }
    ensures ok { IfOk result (λ unfolded. UnfoldsAs (under protos.now names.now.ints hyps.now certs.now) from.now path.now (Ok (found_of unfolded))) }
    ensures err { IfErr result (IsFault (λ fault. UnfoldsAs (under protos.now names.now.ints hyps.now certs.now) from.now path.now (Err fault))) }
    ensures places { IfOk result (λ unfolded. IsPlacedHead protos.now from.now path.now unfolded.head) }
    ensures head { IfOk result (λ unfolded. IsTheHeadAs (under protos.now names.now.ints hyps.now certs.now) from.now path.now (found_of unfolded)) }
{
    if !has_form(protos.as_slice(), path.as_slice(), &from.name) {
        return Err(UnfoldFault::WrongForm);
    }
    let setting = Setting {
        protos,
        ints: &names.ints,
        hyps,
        certs,
    };
    let last = follow(alloc, &setting, from, path.as_slice())?;
    let head = head_of(alloc, protos.as_slice(), &last.end)?;
    Ok(Unfolded {
        head,
        used: last.used,
    })
}
