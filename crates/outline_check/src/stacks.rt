//! A context, and older ones to which it can go back.
use outline_contexts::{Context, Mark};
use std::marker::Model;

/// The context as it is now, and a mark of each that is kept, the latest last.
#[derive(Drop)]
pub(crate) struct Stack {
    pub(crate) context: Context,
    pub(crate) marks: Vec<Mark>,
}

impl Model for Stack {
    ghost use Rattle.std.specs.Prelude.{map};
    ghost use Rattle.outline_contexts.specs.Reading.{marked};
    ghost use Rattle.outline_check.specs.Stacks.{Stacked, kept_of, AreNested};
    ghost use Rattle.outline_check.specs.Codes.{stacked_code};

    ghost Value = { Stacked };

    ghost coded = { stacked_code };

    ghost view = { λ stack. record { current = stack.context; kept = kept_of stack.context (map marked stack.marks.items) } };

    ghost invariant = { λ stack. AreNested (map marked stack.marks.items) stack.context };
}
