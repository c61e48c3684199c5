//! The faults of bodies, in one walk over their nodes.
#![tactic(auto, using(form_faults::proofs::Firsts::first_rules, form_faults::proofs::Binders::binder_rules, crate::proofs::Patterns::pattern_rules), unfolding(crate::specs::Passes::call_faults, crate::specs::Passes::operand_faults, crate::specs::Passes::binders_at))]

ghost use Rattle.std.specs.Prelude.{◌≡◌, ◌<◌, ◌+◌, ◌++◌, List, not, true, nat_eq, length, IfOk, OnOk};
ghost use Rattle.std.specs.Option.{option_copied};
ghost use Rattle.form_faults.specs.declared.sorts.Naming.TheVariants.{Variables};
ghost use Rattle.form_faults.specs.declared.signatures.Signature.{Signature};
ghost use Rattle.form_faults.specs.Terms.{term_faults};
ghost use Rattle.form_faults.specs.Operands.{pat_binders, path_faults, proof_faults, supply_faults};
ghost use Rattle.form_faults.specs.Faults.{least, unless};
ghost use Rattle.form_faults.specs.Scopes.{unscoped, bind_all, twice_all};
ghost use Rattle.core_programs.specs.Formed.{IsNumbered};
ghost use Rattle.core_programs.specs.Trees.{tree};
ghost use Rattle.core_programs.specs.Passes as spec;

use crate::follows::next_number;
use crate::nodes::{Arm, Node, Parts};
use chan_base::{Memory, Span};
use chan_syntax::{Ident, Pat, Path, Proof, Supplies, Supply, Term};
use form_faults::{
    Ill, Naming, Scope, Sort, Table, bind_name, bind_pat, check_name, check_path, check_proof,
    check_ref, check_supplies, check_supply, check_term, check_use, note_number,
};
use std::alloc::Global;

/// A node whose bodies from a turn on are still to be walked, and how many names are in scope at it.
#[derive(Clone, Copy)]
pub(crate) struct Later {
    pub number: u32,
    pub mark: usize,
    pub turn: usize,
}

/// No list is so long that there is no number past its length.
fn one_more(count: usize) -> Result<usize, Memory>
    ensures { IfOk result (λ more. more ≡ count + 1) }
{
    count.checked_add(1).ok_or(Memory)
}

fn check_call(
    alloc: Global,
    first: &mut Option<Ill>,
    funcs: &Table,
    scope: &Scope,
    func: &Ident,
    span: Span,
    count: usize,
    values: &Supplies,
    proof: &Proof,
) -> Result<(), Memory>
    ensures { OnOk result (first.new ≡ least first.old (spec.call_faults funcs.now scope.now func.now span count values.now proof.now)) }
{
    check_use(alloc, first, funcs, func, span, count)?;
    check_supplies(alloc, first, scope, values.as_slice())?;
    check_proof(alloc, first, scope, proof)
}

fn check_terms_of(
    alloc: Global,
    first: &mut Option<Ill>,
    scope: &Scope,
    left: &Term,
    right: &Term,
) -> Result<(), Memory>
    ensures { OnOk result (first.new ≡ least first.old (term_faults Variables scope.now left.now ++ term_faults Variables scope.now right.now)) }
{
    check_term(alloc, first, scope, Naming::Variables, left)?;
    check_term(alloc, first, scope, Naming::Variables, right)
}

fn check_division(
    alloc: Global,
    first: &mut Option<Ill>,
    scope: &Scope,
    term: &Term,
    divisor: u64,
    span: Span,
) -> Result<(), Memory>
    ensures { OnOk result (first.new ≡ least first.old (term_faults Variables scope.now term.now ++ unless (not (nat_eq divisor 0)) span)) }
{
    check_term(alloc, first, scope, Naming::Variables, term)?;
    note_number(alloc, first, divisor != 0, span);
    Ok(())
}

/// The faults of a call with the values that it is written with.
fn check_plain_call(
    alloc: Global,
    first: &mut Option<Ill>,
    funcs: &Table,
    scope: &Scope,
    func: &Ident,
    span: Span,
    values: &Supplies,
    proof: &Proof,
) -> Result<(), Memory>
    ensures { OnOk result (first.new ≡ least first.old (spec.call_faults funcs.now scope.now func.now span (length values.now) values.now proof.now)) }
{
    let count = values.len();
    check_call(alloc, first, funcs, scope, func, span, count, values, proof)
}

fn check_variable(
    alloc: Global,
    first: &mut Option<Ill>,
    scope: &Scope,
    name: &Ident,
    span: Span,
) -> Result<(), Memory>
    ensures { OnOk result (first.new ≡ least first.old (unscoped Variables scope.now name.now span)) }
{
    check_name(alloc, first, scope, Naming::Variables, name, span)
}

/// The faults of a channel and of the way through its protocol.
fn check_access(
    alloc: Global,
    first: &mut Option<Ill>,
    scope: &Scope,
    channel: &Ident,
    channel_span: Span,
    path: &Path,
    path_span: Option<Span>,
    span: Span,
) -> Result<(), Memory>
    ensures { OnOk result (first.new ≡ least first.old (unscoped Variables scope.now channel.now channel_span ++ path_faults path.now path_span span)) }
{
    check_variable(alloc, first, scope, channel, channel_span)?;
    check_path(alloc, first, path, path_span, span);
    Ok(())
}

/// The faults of a value that is sent or given, and of the proof that it is as it has to be.
fn check_given(
    alloc: Global,
    first: &mut Option<Ill>,
    scope: &Scope,
    value: &Supply,
    proof: &Proof,
) -> Result<(), Memory>
    ensures { OnOk result (first.new ≡ least first.old (supply_faults scope.now value.now ++ proof_faults scope.now proof.now)) }
{
    check_supply(alloc, first, scope, value)?;
    check_proof(alloc, first, scope, proof)
}

/// The faults of what a node names, at a Send1, Recv1, Absurd or Ret.
fn check_exchange(
    alloc: Global,
    first: &mut Option<Ill>,
    scope: &Scope,
    node: &Node,
) -> Result<(), Memory>
    requires { spec.is_exchange node.now ≡ true }
    ensures { (protos funcs : List Signature) → OnOk result (first.new ≡ least first.old (spec.operand_faults protos funcs scope.now node.now)) }
{
    match node {
        Node::Send1 {
            channel,
            channel_span: from,
            path,
            path_span: way,
            value,
            proof,
            span,
            ..
        } => {
            check_access(alloc, first, scope, channel, *from, path, *way, *span)?;
            check_given(alloc, first, scope, value, proof)
        }
        Node::Recv1 {
            channel,
            channel_span: from,
            path,
            path_span: way,
            proof,
            span,
            ..
        } => {
            check_access(alloc, first, scope, channel, *from, path, *way, *span)?;
            check_proof(alloc, first, scope, proof)
        }
        Node::Absurd { proof, .. } => check_proof(alloc, first, scope, proof),
        Node::Ret { value, proof, .. } => check_given(alloc, first, scope, value, proof),
        _ => unreachable!(),
    }
}

/// The faults of what a node names, at a Call, Tail or Fork.
fn check_called(
    alloc: Global,
    first: &mut Option<Ill>,
    protos: &Table,
    funcs: &Table,
    scope: &Scope,
    node: &Node,
) -> Result<(), Memory>
    requires { spec.is_call node.now ≡ true }
    ensures { OnOk result (first.new ≡ least first.old (spec.operand_faults protos.now funcs.now scope.now node.now)) }
{
    match node {
        Node::Call {
            func,
            func_span,
            values,
            proof,
            ..
        } => check_plain_call(alloc, first, funcs, scope, func, *func_span, values, proof),
        Node::Tail {
            func,
            func_span,
            values,
            proof,
            ..
        } => check_plain_call(alloc, first, funcs, scope, func, *func_span, values, proof),
        Node::Fork {
            proto,
            func,
            func_span: at,
            values,
            proof,
            ..
        } => {
            let count = one_more(values.len())?;
            check_ref(alloc, first, protos, scope, proto)?;
            check_call(alloc, first, funcs, scope, func, *at, count, values, proof)
        }
        _ => unreachable!(),
    }
}

/// The faults of what a node names.
fn check_operands(
    alloc: Global,
    first: &mut Option<Ill>,
    protos: &Table,
    funcs: &Table,
    scope: &Scope,
    node: &Node,
) -> Result<(), Memory>
    ensures { OnOk result (first.new ≡ least first.old (spec.operand_faults protos.now funcs.now scope.now node.now)) }
{
    match node {
        Node::Let { term, .. } => check_term(alloc, first, scope, Naming::Variables, term),
        Node::Mul { left, right, .. } => check_terms_of(alloc, first, scope, left, right),
        Node::Div {
            term,
            divisor,
            divisor_span,
            ..
        } => { check_division(alloc, first, scope, term, *divisor, *divisor_span) }
        Node::Rem {
            term,
            divisor,
            divisor_span,
            ..
        } => { check_division(alloc, first, scope, term, *divisor, *divisor_span) }
        Node::Print { term, .. } => check_term(alloc, first, scope, Naming::Variables, term),
        Node::If { left, right, .. } => check_terms_of(alloc, first, scope, left, right),
        Node::Split {
            name,
            name_span,
            ..
        } => check_variable(alloc, first, scope, name, *name_span),
        Node::Match {
            name,
            name_span,
            ..
        } => check_variable(alloc, first, scope, name, *name_span),
        Node::Call { .. } => check_called(alloc, first, protos, funcs, scope, node),
        Node::Tail { .. } => check_called(alloc, first, protos, funcs, scope, node),
        Node::Fork { .. } => check_called(alloc, first, protos, funcs, scope, node),
        Node::Send1 { .. } => check_exchange(alloc, first, scope, node),
        Node::Recv1 { .. } => check_exchange(alloc, first, scope, node),
        Node::Absurd { .. } => check_exchange(alloc, first, scope, node),
        Node::Ret { .. } => check_exchange(alloc, first, scope, node),
    }
}

fn bind_two(
    alloc: Global,
    first: &mut Option<Ill>,
    scope: &mut Scope,
    left: &Pat,
    right: &Pat,
) -> Result<(), Memory>
    ensures first { OnOk result (first.new ≡ least first.old (twice_all scope.old (pat_binders left.now ++ pat_binders right.now))) }
    ensures scope { OnOk result (scope.new ≡ bind_all scope.old (pat_binders left.now ++ pat_binders right.now)) }
{
    bind_pat(alloc, first, scope, left)?;
    bind_pat(alloc, first, scope, right)
}

fn bind_arm(
    alloc: Global,
    first: &mut Option<Ill>,
    scope: &mut Scope,
    arm: Option<&Arm>,
) -> Result<(), Memory>
    ensures first { OnOk result (first.new ≡ least first.old (twice_all scope.old (spec.arm_binders (option_copied arm.entry)))) }
    ensures scope { OnOk result (scope.new ≡ bind_all scope.old (spec.arm_binders (option_copied arm.entry))) }
{
    match arm {
        Some(arm) => bind_pat(alloc, first, scope, &arm.pat),
        None => Ok(()),
    }
}

/// Binds the names of a node for the body that comes at a turn.
fn bind_at(
    alloc: Global,
    first: &mut Option<Ill>,
    scope: &mut Scope,
    node: &Node,
    turn: usize,
) -> Result<(), Memory>
    ensures first { OnOk result (first.new ≡ least first.old (twice_all scope.old (spec.binders_at node.now turn))) }
    ensures scope { OnOk result (scope.new ≡ bind_all scope.old (spec.binders_at node.now turn)) }
{
    match node {
        Node::Let {
            name,
            name_span,
            ..
        } => { bind_name(alloc, first, scope, name, Sort::Variable, *name_span) }
        Node::Mul {
            name,
            name_span,
            ..
        } => { bind_name(alloc, first, scope, name, Sort::Both, *name_span) }
        Node::Div {
            name,
            name_span,
            ..
        } => { bind_name(alloc, first, scope, name, Sort::Both, *name_span) }
        Node::Rem {
            name,
            name_span,
            ..
        } => { bind_name(alloc, first, scope, name, Sort::Both, *name_span) }
        Node::Call { pat, .. } => bind_pat(alloc, first, scope, pat),
        Node::Fork {
            name,
            name_span,
            ..
        } => { bind_name(alloc, first, scope, name, Sort::Variable, *name_span) }
        Node::Recv1 { pat, .. } => bind_pat(alloc, first, scope, pat),
        Node::Split {
            first: left,
            second,
            ..
        } => bind_two(alloc, first, scope, left, second),
        Node::Match { arms, .. } => bind_arm(alloc, first, scope, arms.as_slice().get(turn)),
        _ => Ok(()),
    }
}

/// The faults of a body, in the scope of its function's header.
pub(crate) fn check_body(
    alloc: Global,
    first: &mut Option<Ill>,
    protos: &Table,
    funcs: &Table,
    scope: &mut Scope,
    parts: &Parts,
    start: u32,
) -> Result<(), Memory>
    requires numbered { IsNumbered parts.now }
    requires within { start < length parts.now.nodes }
    ensures { OnOk result (first.new ≡ least first.old (spec.body_faults protos.now funcs.now scope.old (tree parts.now.nodes start))) }
{
    let nodes = parts.nodes.as_slice();
    let mut later: Vec<Later> = Vec::new(alloc);
    let mut at = Some(start);
    'walk: loop {
        match at {
            Some(number) => {
                let node = &nodes[number as usize];
                check_operands(alloc, first, protos, funcs, scope, node)?;
                later.push(Later {
                    number,
                    mark: scope.len(),
                    turn: 0,
                })?;
                at = None;
            }
            None => match later.pop() {
                None => return Ok(()),
                Some(next) => {
                    let node = &nodes[next.number as usize];
                    scope.cut(next.mark);
                    if let Some(number) = next_number(node, next.turn) {
                        let turn = one_more(next.turn)?;
                        later.push(Later {
                            number: next.number,
                            mark: next.mark,
                            turn,
                        })?;
                        bind_at(alloc, first, scope, node, next.turn)?;
                        at = Some(number);
                    }
                }
            },
        }
    }
}
