//! The tokens of a text.

ghost use Rattle.std.specs.Prelude.{◌<◌, length, MatchResult};
ghost use Rattle.text_tokens.specs.Text.{HasTokens};
ghost use Rattle.chan_lexer.specs.Faults.{IsFaultOf};
ghost use Rattle.chan_lexer.specs.Spelled.{spelled};

use crate::front::{Front, front_of};
use crate::place::Place;
use crate::token::{LexFault, Token, TokenList};
use std::alloc::Global;

pub fn cut(alloc: Global, text: &[u8]) -> Result<TokenList, LexFault>
    requires { length text.now < 4294967295 }
    ensures { MatchResult result (λ list. HasTokens text.now (spelled text.now list)) (IsFaultOf text.now) }
{
    let mut list = TokenList::new(alloc);
    let mut place = Place::start();
    let mut rest = text;
    loop {
        match front_of(rest) {
            Front::End => return Ok(list),
            Front::LineEnd => {
                place = place.next_line();
                rest = &rest[1..];
            }
            Front::Blank(len) => {
                place = place.along(len);
                rest = &rest[len..];
            }
            Front::Token(kind, len) => {
                let span = place.span(len);
                list.push(Token { kind, span })?;
                place = place.along(len);
                rest = &rest[len..];
            }
            Front::BadByte => return Err(LexFault::BadByte(place.span(1))),
            Front::BadToken => return Err(LexFault::BadToken(place.span(1))),
            Front::NumberTooLarge(len) => return Err(LexFault::NumberTooLarge(place.span(len))),
        }
    }
}
