//! Terms put in for names are nameless instances.
#![tactic(auto)]

ghost use Rattle.nameless_ties.specs.Ties.{PutTermIsInstance, PutResIsInstance};

/// A term and a resource with terms put in, up to the names of binders, read without names. It does nothing.
pub fn ties()
    ensures terms { PutTermIsInstance }
    ensures resources { PutResIsInstance }
{}
