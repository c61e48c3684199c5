//! The core program: functions whose bodies are numbered nodes.
use chan_base::Span;
use chan_syntax::{
    Bound, Ident, Params, Pat, Path, Proof, Protos, Ref, Res, Supplies, Supply, Term,
};
use sqlite_items::Items;

pub type Funcs = Items<Func>;

pub type Nodes = Items<Node>;

pub type Arms = Items<Arm>;

/// A function. Its body begins at the node with the number `first`.
#[derive(Drop)]
pub struct Func {
    pub name: Ident,
    pub name_span: Span,
    pub bound: Bound,
    pub params: Params,
    pub result: Res,
    pub first: u32,
    pub span: Span,
}

/// An arm of a match: what its value is bound to, and the number of the node where its body begins.
#[derive(Drop)]
pub struct Arm {
    pub pat: Pat,
    pub next: u32,
}

/// A form of a body. It names the nodes that follow it by their numbers.
#[derive(Drop)]
pub enum Node {
    Let {
        name: Ident,
        name_span: Span,
        term: Term,
        next: u32,
        span: Span,
    },
    Mul {
        name: Ident,
        name_span: Span,
        left: Term,
        right: Term,
        next: u32,
        span: Span,
    },
    Div {
        name: Ident,
        name_span: Span,
        term: Term,
        divisor: u64,
        divisor_span: Span,
        next: u32,
        span: Span,
    },
    Rem {
        name: Ident,
        name_span: Span,
        term: Term,
        divisor: u64,
        divisor_span: Span,
        next: u32,
        span: Span,
    },
    Call {
        pat: Pat,
        func: Ident,
        func_span: Span,
        values: Supplies,
        proof: Proof,
        next: u32,
        span: Span,
    },
    Tail {
        func: Ident,
        func_span: Span,
        values: Supplies,
        proof: Proof,
        span: Span,
    },
    Fork {
        name: Ident,
        name_span: Span,
        proto: Ref,
        func: Ident,
        func_span: Span,
        values: Supplies,
        proof: Proof,
        next: u32,
        span: Span,
    },
    Send1 {
        channel: Ident,
        channel_span: Span,
        path: Path,
        path_span: Option<Span>,
        value: Supply,
        proof: Proof,
        next: u32,
        span: Span,
    },
    Recv1 {
        pat: Pat,
        channel: Ident,
        channel_span: Span,
        path: Path,
        path_span: Option<Span>,
        proof: Proof,
        next: u32,
        span: Span,
    },
    Print {
        term: Term,
        next: u32,
        span: Span,
    },
    If {
        left: Term,
        right: Term,
        yes: u32,
        no: u32,
        span: Span,
    },
    Split {
        first: Pat,
        second: Pat,
        name: Ident,
        name_span: Span,
        next: u32,
        span: Span,
    },
    Match {
        name: Ident,
        name_span: Span,
        arms: Arms,
        span: Span,
    },
    Absurd {
        proof: Proof,
        span: Span,
    },
    Ret {
        value: Supply,
        proof: Proof,
        span: Span,
    },
}

#[derive(Drop)]
pub struct Parts {
    pub protos: Protos,
    pub funcs: Funcs,
    pub nodes: Nodes,
}
