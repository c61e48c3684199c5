//! Terms that lowering puts in, as forms of a context.
#![tactic(auto)]

ghost use Rattle.put_term_forms.specs.Forms.{PutTermIsForm};

/// A term that lowering puts in is the form with the instances. It does nothing.
pub fn laws()
    ensures { PutTermIsForm }
{}
