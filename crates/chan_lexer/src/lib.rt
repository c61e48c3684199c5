//! Cuts a text into tokens.
#![tactic(auto)]

mod cut;
mod front;
mod lexed;
mod lexer;
mod place;
mod token;
mod words;

pub use lexed::{Tokens, text_at};
pub use lexer::tokens;
pub use text_tokens::TokenKind;
pub use token::{LexFault, Token, TokenList};
