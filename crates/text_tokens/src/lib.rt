//! Which tokens a text has.
#![tactic(auto)]

ghost use Rattle.std.specs.Prelude.{◌≡◌, ◌⊎◌, ℕ, List};
ghost use Rattle.std.specs.List.{All};
ghost use Rattle.text_tokens.specs.Text as spec;
ghost use Rattle.text_tokens.specs.Text.{AreInOrder, Fault, HasTokens, IsFirstFault, IsWithin, StandsIn, span_of};

#[derive(Clone, Copy, Debug)]
pub enum TokenKind {
    Name,
    Number(u64),
    Keyword,
    Mark,
}

/// What holds of the tokens and of the first fault of each text. It does nothing.
pub fn laws()
    ensures one_list { (text : List ℕ) (tokens others : List spec.Token) →
        HasTokens text tokens → HasTokens text others → tokens ≡ others }
    ensures one_fault { (text : List ℕ) (fault other : Fault) →
        IsFirstFault text fault → IsFirstFault text other → fault ≡ other }
    ensures never_both { (text : List ℕ) (tokens : List spec.Token) (fault : Fault) →
        HasTokens text tokens → ¬ IsFirstFault text fault }
    ensures always_one { (text : List ℕ) →
        ((tokens : List spec.Token) × HasTokens text tokens)
        ⊎ ((fault : Fault) × IsFirstFault text fault) }
    ensures longest { (text : List ℕ) (tokens : List spec.Token) →
        HasTokens text tokens → All (StandsIn text) tokens }
    ensures in_order { (text : List ℕ) (tokens : List spec.Token) →
        HasTokens text tokens → AreInOrder 0 tokens }
    ensures fault_within { (text : List ℕ) (fault : Fault) →
        IsFirstFault text fault → IsWithin text (span_of fault) }
{}
