//! A text with its tokens.

ghost use Rattle.std.specs.Prelude.{◌≡◌, ◌<◌, length};
ghost use Rattle.text_tokens.specs.Text as spec;
ghost use Rattle.text_tokens.specs.Text.{HasTokens};
ghost use Rattle.chan_lexer.specs.Lexed.{tokens_of};
ghost use Rattle.chan_lexer.specs.Spelled.{spelled};

use crate::token::{Token, TokenList};
use chan_base::Span;
use sqlite_items::Items;
use std::marker::Model;

/// Tokens beside the source that they were cut from, as `tokens` made them.
#[derive(Debug, Drop)]
pub struct Tokens {
    source: Items<u8>,
    list: TokenList,
}

impl Model for Tokens {
    ghost use Rattle.chan_lexer.specs.Lexed.{Lexed};

    ghost Value = { Lexed };

    ghost use Rattle.chan_lexer.specs.Keeps.{lexed, IsLexed};

    ghost view = { lexed };

    ghost invariant = { IsLexed };
}

impl Tokens {
    pub fn source(&self) -> &[u8]
        ensures value { result.now ≡ self.now.source }
        ensures bound { length self.now.source < 4294967295 }
    {
        self.source.as_slice()
    }

    pub fn list(&self) -> &TokenList
        ensures value { result.now ≡ self.now.list }
        ensures cut { HasTokens self.now.source (tokens_of self.now) }
    {
        &self.list
    }

    /// The text of a token of this source.
    pub fn text(&self, token: &Token) -> &[u8]
        ensures { result.now ≡ spec.text_at self.now.source token.now.span }
    {
        text_at(self.source.as_slice(), token.span)
    }
}

/// A source with its tokens, for `tokens` alone.
pub fn lexed(source: Items<u8>, list: TokenList) -> Tokens
    requires cut { HasTokens source (spelled source list) }
    requires bound { length source < 4294967295 }
    ensures source { result.source ≡ source }
    ensures list { result.list ≡ list }
{
    Tokens { source, list }
}

/// The bytes of the source at the span, as far as it has them.
pub fn text_at(source: &[u8], span: Span) -> &[u8]
    ensures { result.now ≡ spec.text_at source.now span }
{
    let stop = source.len().min(span.stop as usize);
    let start = stop.min(span.start as usize);
    &source[start..stop]
}
