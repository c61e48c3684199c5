//! The laws of the grammar.
ghost use Rattle.surface_grammar.specs.Laws.{HasOutcome, IsComplete, IsUnique};

/// What holds of all texts of tokens.
pub fn texts()
    ensures unique { IsUnique }
    ensures outcome { HasOutcome }
    ensures complete { IsComplete }
{}
