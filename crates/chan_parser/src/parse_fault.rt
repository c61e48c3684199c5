//! Why a text is not in the grammar.
use chan_base::Span;

#[derive(Clone, Copy)]
pub enum ParseFault {
    /// The first token that no text of the grammar goes on with, or just behind the text where all
    /// of it is only the front of one.
    Unexpected(Span),
    /// The first token that opens a level too many.
    TooDeep(Span),
    Memory,
}
