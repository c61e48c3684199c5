//! Whole texts.

ghost use Rattle.std.specs.Prelude.{◌≡◌, ◌<◌, ℕ, List, [], length, IfOk, IfErr, MatchResult};
ghost use Rattle.std.specs.List.{count_by, suffix_len};
ghost use Rattle.text_tokens.specs.Text.{is_in_line, is_line_end, span_behind};
ghost use Rattle.chan_lexer.specs.Lexed.{tokens_of};
ghost use Rattle.surface_grammar.specs.Language.{Derives};
ghost use Rattle.chan_syntax.specs.declared.surface_tree.Surface as tree;
ghost use Rattle.chan_parser.specs.Parse.{Fault, IsFaultOf, IsFirstFault, IsMemory, Says, place_of};

use crate::declarations::program;
use crate::parse_fault::ParseFault;
use chan_base::Span;
use chan_lexer::Tokens;
use chan_syntax::Surface;
use std::alloc::Global;
use token_cursor::{Cursor, Stop};

/// How many levels of nesting a text may have.
const MAX_LEVELS: usize = 200;

fn lines(text: &[u8]) -> usize
    ensures { result ≡ count_by is_line_end text.now }
{
    text.iter().filter(|b| **b == b'\n').count()
}

fn last_line(text: &[u8]) -> usize
    ensures { result ≡ suffix_len is_in_line text.now }
{
    text.iter().rev().take_while(|b| **b != b'\n').count()
}

/// The place just behind the last byte.
fn end_of(text: &[u8]) -> Span
    requires { length text.now < 4294967295 }
    ensures { result ≡ span_behind text.now [] }
{
    let end = text.len() as u32;
    Span {
        start: end,
        stop: end,
        line: 1 + lines(text) as u32,
        column: 1 + last_line(text) as u32,
    }
}

/// The place of the token that is next, or the end of the source.
fn place(source: &[u8], cursor: &Cursor<'_>) -> Span
    requires { length source.now < 4294967295 }
    ensures { result ≡ place_of source.now cursor.now }
{
    match cursor.next_span() {
        Some(span) => span,
        None => end_of(source),
    }
}

/// The tree of a text, or its first fault.
pub fn parse(alloc: Global, tokens: &Tokens) -> Result<Surface, ParseFault>
    ensures ok { IfOk result (λ t. Derives t (tokens_of tokens.now)) }
    ensures err { IfErr result (IsFaultOf tokens.now.source (tokens_of tokens.now)) }
    ensures accepted { (t : tree.Surface) → Derives t (tokens_of tokens.now) →
        MatchResult result (λ found. found ≡ t) IsMemory }
    ensures refused { (fault : Fault) → IsFirstFault tokens.now.source (tokens_of tokens.now) fault →
        MatchResult result (λ _. ⊥) (λ e. Says e fault) }
{
    let source = tokens.source();
    let mut cursor = Cursor::new(alloc, source, tokens.list().as_slice());
    match program(&mut cursor, MAX_LEVELS) {
        Ok(tree) => {
            if cursor.left() == 0 {
                Ok(tree)
            } else {
                Err(ParseFault::Unexpected(place(source, &cursor)))
            }
        }
        Err(Stop::Unexpected) => Err(ParseFault::Unexpected(place(source, &cursor))),
        Err(Stop::TooDeep) => Err(ParseFault::TooDeep(place(source, &cursor))),
        Err(Stop::Memory) => Err(ParseFault::Memory),
    }
}
