//! Laws of the core programs of trees.
ghost use Rattle.core_numbering.specs.Pure.{SaysTheTree, IsOneProgram, IsOneForm};

/// Whatever numbers its nodes have, the parts of a tree make the program that it says, and have its fault of form.
pub fn a_tree_has_one_program()
    ensures says { SaysTheTree }
    ensures one { IsOneProgram }
    ensures form { IsOneForm }
{}
