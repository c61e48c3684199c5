//! What stands at the front of a text.

ghost use Rattle.std.specs.Prelude.{◌≡◌, ◌&&◌, ◌<◌, ◌≤◌, length, slice_index, true, false, ℕ, List, ◌∷◌};
ghost use Rattle.std.specs.Char.{is_ascii_digit};
ghost use Rattle.chan_lexer.specs.Front.{IsFrontOf, IsWithin};
ghost use Rattle.text_tokens.specs.Text as text_spec;
ghost use Rattle.text_tokens.specs.Word as spec;

use crate::words::{Class, begins_name, front_len, is_keyword, is_mark, value_of};
use text_tokens::TokenKind;

/// Lengths are in bytes.
#[derive(Clone, Copy, Debug)]
pub enum Front {
    End,
    LineEnd,
    /// A separator or a comment, within its line.
    Blank(usize),
    Token(TokenKind, usize),
    BadByte,
    BadToken,
    NumberTooLarge(usize),
}

/// The largest number of a text.
const LIMIT: u64 = 9223372036854775807;

fn number(text: &[u8]) -> Front
    requires some { 0 < length text.now }
    requires digit { is_ascii_digit (slice_index text.now 0) ≡ true }
    ensures { IsFrontOf text.now result }
{
    let len = front_len(Class::Digit, text);
    let value = value_of(&text[..len]);
    if value <= LIMIT {
        Front::Token(TokenKind::Number(value), len)
    } else {
        Front::NumberTooLarge(len)
    }
}

fn word(text: &[u8]) -> Front
    requires some { 0 < length text.now }
    requires letter { spec.begins_name (slice_index text.now 0) ≡ true }
    ensures { IsFrontOf text.now result }
{
    let len = front_len(Class::Name, text);
    let kind = if is_keyword(&text[..len]) {
        TokenKind::Keyword
    } else {
        TokenKind::Name
    };
    Front::Token(kind, len)
}

/// A mark, or a byte at fault.
fn other(text: &[u8]) -> Front
    requires some { 0 < length text.now }
    requires no_separator { text_spec.is_separator (slice_index text.now 0) ≡ false }
    requires no_comment { text_spec.BeginsNoComment text.now }
    requires no_letter { spec.begins_name (slice_index text.now 0) ≡ false }
    requires no_digit { is_ascii_digit (slice_index text.now 0) ≡ false }
    ensures { IsFrontOf text.now result }
{
    if 1 < text.len() && is_mark(&text[..2]) {
        Front::Token(TokenKind::Mark, 2)
    } else if is_mark(&text[..1]) {
        Front::Token(TokenKind::Mark, 1)
    } else if text[0].is_ascii_graphic() {
        Front::BadToken
    } else {
        Front::BadByte
    }
}

fn is_blank(b: u8) -> bool
    ensures { result ≡ (text_spec.is_separator b && text_spec.is_in_line b) }
{
    b == b' ' || b == b'\t' || b == b'\r'
}

fn begins_comment(text: &[u8]) -> bool
    ensures found { result ≡ true → (back : List ℕ) × (text.now ≡ 47 ∷ 47 ∷ back) }
    ensures not_found { result ≡ false → text_spec.BeginsNoComment text.now }
{
    1 < text.len() && text[0] == b'/' && text[1] == b'/'
}

pub fn front_of(text: &[u8]) -> Front
    ensures front { IsFrontOf text.now result }
    ensures within { IsWithin (length text.now) result }
{
    if text.is_empty() {
        return Front::End;
    }
    let first = text[0];
    if first == b'\n' {
        Front::LineEnd
    } else if is_blank(first) {
        Front::Blank(1)
    } else if begins_comment(text) {
        Front::Blank(front_len(Class::Line, text))
    } else if begins_name(first) {
        word(text)
    } else if first.is_ascii_digit() {
        number(text)
    } else {
        other(text)
    }
}
