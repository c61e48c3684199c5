//! Tokens and the faults of a text.

use chan_base::Span;
use sqlite_items::Items;
use std::alloc::AllocError;
use text_tokens::TokenKind;

/// Its text is the part of the source at the span.
#[derive(Clone, Copy, Debug)]
pub struct Token {
    pub kind: TokenKind,
    pub span: Span,
}

pub type TokenList = Items<Token>;

#[derive(Clone, Copy, Debug)]
pub enum LexFault {
    /// Outside comments, a byte that is neither printable ASCII nor a separator.
    BadByte(Span),
    /// A printable byte at which no token begins.
    BadToken(Span),
    /// The span is that of all digits.
    NumberTooLarge(Span),
    Memory,
}

impl From<AllocError> for LexFault {
    ghost use Rattle.std.specs.Prelude.{◌≡◌};
    ghost use Rattle.chan_lexer.specs.declared.token.LexFault.TheVariants.{Memory};

    ghost from_gives = { λ _ fault. fault ≡ Memory };

    fn from(_: AllocError) -> LexFault {
        LexFault::Memory
    }
}
