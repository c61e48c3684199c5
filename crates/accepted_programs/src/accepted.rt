//! A program whose every function is outlined.
ghost use Rattle.std.specs.Prelude.{◌≡◌};
ghost use Rattle.core_programs.specs.Bodies.{program_of};
ghost use Rattle.outline_language.specs.Outlined.{IsOutlined};

use core_programs::Program;
use std::marker::Model;

/// A program that is outlined. It is seen as its parts.
#[derive(Drop)]
pub struct Accepted {
    program: Program,
}

impl Model for Accepted {
    ghost use Rattle.core_programs.specs.declared.nodes.Parts.{Parts};
    ghost use Rattle.core_programs.specs.contracts.nodes.Parts as whole;

    ghost Value = { Parts };

    ghost coded = { whole.the_row.coded };

    ghost use Rattle.core_programs.specs.Bodies.{program_of};
    ghost use Rattle.outline_language.specs.Outlined.{IsOutlined};

    ghost view = { λ a. a.program };

    ghost invariant = { λ a. IsOutlined (program_of a.program) };
}

impl Accepted {
    pub fn of(program: Program) -> Accepted
        requires { IsOutlined (program_of program) }
        ensures { result ≡ program }
    {
        Accepted { program }
    }

    pub fn program(&self) -> &Program
        ensures program { result.now ≡ self.now }
        ensures outlined { IsOutlined (program_of self.now) }
    {
        &self.program
    }
}
