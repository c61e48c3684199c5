//! The tokens of a text, or its first fault.

ghost use Rattle.std.specs.Prelude.{◌≡◌, ◌<◌, List, length, IfOk, IfErr, MatchResult};
ghost use Rattle.std.specs.List.{All};
ghost use Rattle.text_tokens.specs.Text as spec;
ghost use Rattle.text_tokens.specs.Text.{AreInOrder, Fault, HasTokens, IsFirstFault, StandsIn};
ghost use Rattle.chan_lexer.specs.Faults.{IsFaultOf, IsMemory, Says};
ghost use Rattle.chan_lexer.specs.Lexed.{tokens_of};

use crate::cut::cut;
use crate::lexed::{Tokens, lexed};
use crate::token::LexFault;
use sqlite_items::Items;
use std::alloc::Global;

/// Cuts a text into tokens.
pub fn tokens(alloc: Global, text: &[u8]) -> Result<Tokens, LexFault>
    requires { length text.now < 4294967295 }
    ensures source { IfOk result (λ t. t.source ≡ text.now) }
    ensures ok { IfOk result (λ t. HasTokens text.now (tokens_of t)) }
    ensures longest { IfOk result (λ t. All (StandsIn text.now) (tokens_of t)) }
    ensures in_order { IfOk result (λ t. AreInOrder 0 (tokens_of t)) }
    ensures err { IfErr result (IsFaultOf text.now) }
    ensures accepted { (list : List spec.Token) → HasTokens text.now list →
        MatchResult result (λ t. tokens_of t ≡ list) IsMemory }
    ensures refused { (fault : Fault) → IsFirstFault text.now fault →
        MatchResult result (λ _. ⊥) (λ e. Says e fault) }
{
    let list = cut(alloc, text)?;
    let source = Items::from_slice(alloc, text)?;
    Ok(lexed(source, list))
}
