//! The rule of each form.
ghost use Rattle.std.specs.Prelude.{◌≡◌, OnOk, IfErr};
ghost use Rattle.outline_contexts.specs.Trails.{IsAfter, context_in};
ghost use Rattle.outline_walk.specs.Forms.{form_at, IsNode, Meets, Fails};
ghost use Rattle.outline_check.specs.Settings.{setting_of};

use call_rules::{Tables, meet_call, meet_fork, meet_recv, meet_ret, meet_send, meet_tail};
use core_programs::Node;
use nameless_shapes::Resource;
use outline_contexts::Context;
use outline_obligations::ContextFault;
use std::alloc::Global;
use value_rules::{
    meet_absurd, meet_div, meet_if, meet_let, meet_match, meet_mul, meet_print, meet_rem,
    meet_split,
};

/// Makes of the context what the rule of a form makes of it.
pub(crate) fn meet_node(
    alloc: Global,
    tables: &Tables<'_>,
    own: &Resource,
    ctx: &mut Context,
    node: &Node,
) -> Result<(), ContextFault>
    requires { IsNode (setting_of tables.now own.now) node.now }
    ensures ok { OnOk result (Meets (setting_of tables.now own.now) (context_in ctx.old) (context_in ctx.new) (form_at (setting_of tables.now own.now) node.now)) }
    ensures err { IfErr result (Fails (setting_of tables.now own.now) (context_in ctx.old) (form_at (setting_of tables.now own.now) node.now)) }
    ensures after { IsAfter ctx.old ctx.new }
{
    let _formed = tables.program.parts();
    match node {
        Node::Let { name, term, .. } => meet_let(alloc, ctx, name, term),
        Node::Mul {
            name,
            left,
            right,
            ..
        } => meet_mul(alloc, ctx, name, left, right),
        Node::Div {
            name,
            term,
            divisor,
            ..
        } => meet_div(alloc, ctx, name, term, *divisor),
        Node::Rem {
            name,
            term,
            divisor,
            ..
        } => meet_rem(alloc, ctx, name, term, *divisor),
        Node::Call {
            pat,
            func,
            values,
            proof,
            ..
        } => meet_call(alloc, tables, ctx, pat, func, values.as_slice(), proof),
        Node::Tail {
            func,
            values,
            proof,
            ..
        } => meet_tail(alloc, tables, own, ctx, func, values.as_slice(), proof),
        Node::Fork {
            name,
            proto,
            func,
            values,
            proof,
            ..
        } => meet_fork(
            alloc,
            tables,
            ctx,
            name,
            proto,
            func,
            values.as_slice(),
            proof,
        ),
        Node::Send1 {
            channel,
            path,
            value,
            proof,
            ..
        } => meet_send(alloc, tables, ctx, channel, path.as_slice(), value, proof),
        Node::Recv1 {
            pat,
            channel,
            path,
            proof,
            ..
        } => meet_recv(alloc, tables, ctx, pat, channel, path.as_slice(), proof),
        Node::Print { term, .. } => meet_print(alloc, ctx, term),
        Node::If { left, right, .. } => meet_if(alloc, ctx, left, right),
        Node::Split {
            first,
            second,
            name,
            ..
        } => meet_split(alloc, ctx, first, second, name),
        Node::Match { name, arms, .. } => meet_match(alloc, ctx, name, arms.as_slice()),
        Node::Absurd { proof, .. } => meet_absurd(alloc, ctx, proof),
        Node::Ret { value, proof, .. } => meet_ret(alloc, own, ctx, value, proof),
    }
}
