//! Grammars as values, and the laws of reading them.
#![tactic(auto)]

ghost use Rattle.grammar_laws.specs.Example.{IsUnique, IsExact, IsComplete};

/// The laws of every grammar that passes the tests, at the smallest one: a clause has no room for
/// all types of tokens and trees. Each language that stands on this crate states them for its own.
pub fn nested_brackets()
    ensures unique { IsUnique }
    ensures exact { IsExact }
    ensures complete { IsComplete }
{}
