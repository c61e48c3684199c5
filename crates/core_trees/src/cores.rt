//! Forms that are no sessions, from statements to trees.
ghost use Rattle.std.specs.Prelude.{◌≡◌};
ghost use Rattle.std.specs.List.{list_all};
ghost use Rattle.core_trees.specs.Core as spec;

use chan_syntax::{Block, Body, Decl, Last, Stmt, Surface, SurfaceArm};

fn is_core_stmt(stmt: &Stmt) -> bool
    ensures { result ≡ spec.is_core_stmt stmt.now }
{
    match stmt {
        Stmt::Let { .. } => true,
        Stmt::Mul { .. } => true,
        Stmt::Div { .. } => true,
        Stmt::Rem { .. } => true,
        Stmt::Call { .. } => true,
        Stmt::Fork { .. } => true,
        Stmt::Send1 { .. } => true,
        Stmt::Recv1 { .. } => true,
        Stmt::Split { .. } => true,
        Stmt::Print { .. } => true,
        _ => false,
    }
}

fn are_core_stmts(stmts: &[Stmt]) -> bool
    ensures { result ≡ list_all spec.is_core_stmt stmts.now }
{
    stmts.iter().all(|stmt| is_core_stmt(stmt))
}

#[cycle(cores)]
#[tactic(auto, using(crate::proofs::CoreBlocks::core_rules, std::proofs::lemmas::Grind::common_steps))]
fn is_core_last(last: &Last) -> bool
    ensures { result ≡ spec.is_core_last last.now }
{
    match last {
        Last::Ret { .. } => true,
        Last::Tail { .. } => true,
        Last::Absurd { .. } => true,
        Last::If { yes, no, .. } => is_core_block(yes) && is_core_block(no),
        Last::Match { arms, .. } => are_core_arms(arms.as_slice()),
        Last::Branch { .. } => false,
        Last::Loop { .. } => false,
        Last::Again { .. } => false,
    }
}

#[cycle(cores)]
fn are_core_arms(arms: &[SurfaceArm]) -> bool
    ensures { result ≡ list_all spec.is_core_arm arms.now }
{
    for arm in arms {
        if !is_core_block(&arm.block) {
            return false;
        }
    }
    true
}

#[cycle(cores)]
#[tactic(auto, unfolding(crate::specs::Core::is_core_block))]
fn is_core_block(block: &Block) -> bool
    ensures { result ≡ spec.is_core_block block.now }
{
    are_core_stmts(block.stmts.as_slice()) && is_core_last(block.last.get())
}

fn is_core_decl(decl: &Decl) -> bool
    ensures { result ≡ spec.is_core_decl decl.now }
{
    match decl {
        Decl::Proto(proto) => match &proto.body {
            Body::Plain(_) => true,
            Body::Choice { .. } => false,
        },
        Decl::Func(func) => is_core_block(&func.block),
    }
}

/// Whether no form of the tree is a session: neither `choice` nor `offer` as an equation; no `do`, `send`, `recv`,
/// `close`, `wait`, `left` or `right` as a statement; no `branch`, `loop` or `again` at the end of a block.
pub fn is_core(surface: &Surface) -> bool
    ensures { result ≡ spec.is_core surface.now }
{
    surface
        .decls
        .as_slice()
        .iter()
        .all(|decl| is_core_decl(decl))
}
