//! Statements that send and go on, and what the first pass looks at.
use chan_base::Span;
use chan_syntax::{Ident, Path, Proof, Ref, Supply};
use sqlite_items::Items;

pub type Events = Items<Event>;

/// `let z = send c: E via p V with W by B`. A choice sends its number, which is also the first instance.
#[derive(Drop)]
pub struct Sending {
    pub name: Ident,
    pub name_span: Span,
    pub channel: Ident,
    pub channel_span: Span,
    pub proto: Ref,
    pub path: Path,
    pub path_span: Option<Span>,
    pub chooses: bool,
    pub value: Supply,
    pub proof: Proof,
    pub span: Span,
}

#[derive(Drop)]
pub enum Event {
    Sends(Sending),
    /// An `again` outside every loop, at its word.
    Strays(Span),
}
