//! The program of a run.
use core_programs::Program;
use std::marker::Model;

/// A program that is lent to all of a run. It is seen as its parts.
#[derive(Drop)]
pub struct Origin<'a> {
    pub program: &'a Program,
}

impl<'a> Model for Origin<'a> {
    ghost use Rattle.core_programs.specs.declared.nodes.Parts.{Parts};
    ghost use Rattle.core_programs.specs.contracts.nodes.Parts as whole;

    ghost Value = { Parts };

    ghost coded = { whole.the_row.coded };

    ghost view = { λ o. o.program.now };
}
