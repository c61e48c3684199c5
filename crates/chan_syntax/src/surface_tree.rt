//! The tree of a text, as it was written.
use crate::identifiers::{Ident, Idents};
use crate::linear::{Bound, Term};
use crate::operands::{Pat, Path, Proof, Supplies, Supply};
use crate::resources::{Equation, Param, Params, Ref, Refs, Res, Shape};
use chan_base::{Span, Spans};
use sqlite_items::{Boxed, Items};

pub type Decls = Items<Decl>;

pub type Starts = Items<Start>;

pub type Stmts = Items<Stmt>;

pub type Blocks = Items<Block>;

pub type SurfaceArms = Items<SurfaceArm>;

#[derive(Drop)]
pub struct Surface {
    pub decls: Decls,
}

#[derive(Drop)]
pub enum Decl {
    Proto(SurfaceProto),
    Func(SurfaceFunc),
}

#[derive(Drop)]
pub struct SurfaceProto {
    pub name: Ident,
    pub name_span: Span,
    pub params: Idents,
    pub params_spans: Spans,
    pub body: Body,
    pub span: Span,
}

/// A plain equation, or a choice that is sent (`choice`) or received (`offer`) as a number; `next`
/// names the protocol that goes on by it.
#[derive(Drop)]
pub enum Body {
    Plain(Equation),
    Choice {
        offer: bool,
        next: Ident,
        next_span: Span,
        refs: Refs,
    },
}

#[derive(Drop)]
pub struct SurfaceFunc {
    pub name: Ident,
    pub name_span: Span,
    pub bound: Bound,
    pub params: Params,
    pub result: Res,
    pub block: Block,
    pub span: Span,
}

/// A parameter of a loop or of a forked block, with the value that it starts with.
#[derive(Drop)]
pub struct Start {
    pub name: Ident,
    pub name_span: Span,
    pub shape: Shape,
    pub value: Supply,
}

#[cycle(surface)]
#[derive(Drop)]
pub struct Block {
    pub stmts: Stmts,
    pub last: Boxed<Last>,
}

#[cycle(surface)]
#[derive(Drop)]
pub enum Stmt {
    Let {
        name: Ident,
        name_span: Span,
        term: Term,
        span: Span,
    },
    Mul {
        name: Ident,
        name_span: Span,
        left: Term,
        right: Term,
        span: Span,
    },
    Div {
        name: Ident,
        name_span: Span,
        term: Term,
        divisor: u64,
        divisor_span: Span,
        span: Span,
    },
    Rem {
        name: Ident,
        name_span: Span,
        term: Term,
        divisor: u64,
        divisor_span: Span,
        span: Span,
    },
    Call {
        pat: Pat,
        func: Ident,
        func_span: Span,
        values: Supplies,
        proof: Proof,
        span: Span,
    },
    Fork {
        name: Ident,
        name_span: Span,
        proto: Ref,
        func: Ident,
        func_span: Span,
        values: Supplies,
        proof: Proof,
        span: Span,
    },
    ForkDo {
        name: Ident,
        name_span: Span,
        proto: Ref,
        func: Ident,
        func_span: Span,
        bound: Bound,
        param: Param,
        starts: Starts,
        proof: Proof,
        block: Block,
        span: Span,
    },
    Send1 {
        channel: Ident,
        channel_span: Span,
        path: Path,
        path_span: Option<Span>,
        value: Supply,
        proof: Proof,
        span: Span,
    },
    Recv1 {
        pat: Pat,
        channel: Ident,
        channel_span: Span,
        path: Path,
        path_span: Option<Span>,
        proof: Proof,
        span: Span,
    },
    Send {
        name: Ident,
        name_span: Span,
        channel: Ident,
        channel_span: Span,
        proto: Ref,
        path: Path,
        path_span: Option<Span>,
        value: Supply,
        proof: Proof,
        span: Span,
    },
    Recv {
        first: Pat,
        second: Pat,
        names: Idents,
        names_spans: Spans,
        channel: Ident,
        channel_span: Span,
        path: Path,
        path_span: Option<Span>,
        proof: Proof,
        span: Span,
    },
    Close {
        channel: Ident,
        channel_span: Span,
        path: Path,
        path_span: Option<Span>,
        proof: Proof,
        span: Span,
    },
    Wait {
        channel: Ident,
        channel_span: Span,
        path: Path,
        path_span: Option<Span>,
        proof: Proof,
        span: Span,
    },
    Choose {
        arm: u8,
        name: Ident,
        name_span: Span,
        channel: Ident,
        channel_span: Span,
        proto: Ref,
        path: Path,
        path_span: Option<Span>,
        proof: Proof,
        span: Span,
    },
    Split {
        first: Pat,
        second: Pat,
        name: Ident,
        name_span: Span,
        span: Span,
    },
    Print {
        term: Term,
        span: Span,
    },
}

/// An arm of a match: what its value is bound to, and what goes on from there.
#[cycle(surface)]
#[derive(Drop)]
pub struct SurfaceArm {
    pub pat: Pat,
    pub block: Block,
}

#[cycle(surface)]
#[derive(Drop)]
pub enum Last {
    Ret {
        value: Supply,
        proof: Proof,
        span: Span,
    },
    Tail {
        func: Ident,
        func_span: Span,
        values: Supplies,
        proof: Proof,
        span: Span,
    },
    If {
        left: Term,
        right: Term,
        yes: Block,
        no: Block,
        span: Span,
    },
    Match {
        name: Ident,
        name_span: Span,
        arms: SurfaceArms,
        span: Span,
    },
    Branch {
        channel: Ident,
        channel_span: Span,
        path: Path,
        path_span: Option<Span>,
        proof: Proof,
        bit: Ident,
        bit_span: Span,
        rest: Ident,
        rest_span: Span,
        blocks: Blocks,
        span: Span,
    },
    Absurd {
        proof: Proof,
        span: Span,
    },
    Loop {
        name: Ident,
        name_span: Span,
        bound: Bound,
        starts: Starts,
        result: Res,
        proof: Proof,
        block: Block,
        span: Span,
    },
    Again {
        values: Supplies,
        proof: Proof,
        span: Span,
    },
}
