//! The laws of canonical spellings.
#![tactic(auto)]

ghost use Rattle.spelling_laws.specs.Laws.{IsReadAgain, IsSettled};

/// What holds of the spelling of each program. It does nothing.
pub fn laws()
    ensures read_again { IsReadAgain }
    ensures settled { IsSettled }
{}
