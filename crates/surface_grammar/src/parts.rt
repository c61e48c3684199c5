//! What is read of a statement before all of it is known.
use chan_base::{Span, Spans};
use chan_syntax::{
    Block, Bound, Ident, Idents, Param, Pat, Path, Proof, Ref, Starts, Supplies, Supply, Term,
    TermParts, WrittenMentions,
};

/// A NAME and its place.
#[derive(Drop)]
pub struct Named {
    pub name: Ident,
    pub span: Span,
}

/// NAMEs and their places, in the same order.
#[derive(Drop)]
pub struct Names {
    pub names: Idents,
    pub spans: Spans,
}

/// A NUMBER and its place.
#[derive(Clone, Copy, Debug)]
pub struct Digits {
    pub value: u64,
    pub span: Span,
}

/// A path, and the place of its letters where there are some.
#[derive(Drop)]
pub struct Route {
    pub path: Path,
    pub span: Option<Span>,
}

/// A certificate without its place.
#[derive(Drop)]
pub struct CertParts {
    pub divisor: Option<Digits>,
    pub mentions: WrittenMentions,
}

/// What follows a NUMBER at the head of a certificate: mentions, where it is the divisor, or the
/// index of the first mention, and more.
#[derive(Drop)]
pub enum BehindNumber {
    Mentions(WrittenMentions),
    Mention(Digits, WrittenMentions),
}

/// A channel, the path along its reference, and a proof.
#[derive(Drop)]
pub struct Access {
    pub channel: Named,
    pub route: Route,
    pub proof: Proof,
}

/// A channel, its reference, and the path along it.
#[derive(Drop)]
pub struct Target {
    pub channel: Named,
    pub proto: Ref,
    pub route: Route,
}

/// A function, the values that it is given, and a proof.
#[derive(Drop)]
pub struct Called {
    pub func: Named,
    pub values: Supplies,
    pub proof: Proof,
}

/// A function with its body, the parameter for the channel, and the others with their values.
#[derive(Drop)]
pub struct Task {
    pub func: Named,
    pub bound: Bound,
    pub param: Param,
    pub starts: Starts,
    pub proof: Proof,
    pub block: Block,
}

/// What a fork begins.
#[derive(Drop)]
pub enum Forked {
    Call(Called),
    Block(Task),
}

/// What follows a NAME right of `let NAME =`: values and a proof, or more products.
#[derive(Drop)]
pub enum Tail {
    Values(Supplies, Proof),
    Parts(TermParts),
}

/// What stands right of `let NAME =`.
#[derive(Drop)]
pub enum Given {
    Term(Term),
    Mul(Term, Term),
    Div(Term, Digits),
    Rem(Term, Digits),
    Call(Called),
    Fork(Ref, Forked),
    Recv1(Access),
    Send(Target, Supply, Proof),
    Choose(u8, Target, Proof),
}

/// What stands right of `let NAME`: names in brackets, or none, and what the name is given.
#[derive(Drop)]
pub struct NamedGiven {
    pub names: Names,
    pub given: Given,
}

/// What stands right of `let (PAT, PAT)`.
#[derive(Drop)]
pub enum PairGiven {
    Recv(Names, Access),
    Split(Named),
}

/// What stands right of `let`.
#[derive(Drop)]
pub enum Binding {
    Name(Named, NamedGiven),
    Pair(Pat, Pat, PairGiven),
}
