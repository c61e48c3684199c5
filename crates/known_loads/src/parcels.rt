//! Known parcels.
ghost use Rattle.std.specs.Prelude.{◌≡◌};
ghost use Rattle.known_loads.specs.Holding.{HoldsParcel};

use crate::letters::Letter;
use chan_base::Name;
use core_programs::Program;
use std::marker::Model;

/// A value that was put on its channel in a stated round of the round run. It is seen as its program
/// and what was sent.
#[derive(Drop)]
pub struct KnownParcel<'a> {
    pub(crate) program: &'a Program,
    pub(crate) letter: Letter,
}

impl<'a> Model for KnownParcel<'a> {
    ghost use Rattle.std.specs.Coded.{coded×};
    ghost use Rattle.core_programs.specs.declared.nodes.Parts.{Parts};
    ghost use Rattle.core_programs.specs.contracts.nodes.Parts as whole;
    ghost use Rattle.known_loads.specs.declared.letters.Letter.{Letter};
    ghost use Rattle.known_loads.specs.contracts.letters.Letter as standing;

    ghost Value = { Parts × Letter };

    ghost coded = { coded× whole.the_row.coded standing.the_row.coded };

    ghost use Rattle.known_loads.specs.Holding.{HoldsParcel};

    ghost view = { λ q. (q.program.now, q.letter) };

    ghost invariant = { λ q. HoldsParcel (q.program.now, q.letter) };
}

impl<'a> KnownParcel<'a> {
    /// What the type keeps. It does nothing.
    pub fn known(&self)
        ensures { HoldsParcel self.now }
    {
        let _ = &self.letter;
    }

    /// The name of its channel.
    pub fn name(&self) -> &Name
        ensures { result.now ≡ self.now.1.channel.name }
    {
        &self.letter.channel.name
    }
}
