//! Terms that lowering puts in keep their value.
#![tactic(auto)]

ghost use Rattle.put_term_laws.specs.PutTerms.{NormalIsSame, NormalIsNormal, PutTermIsPut};
ghost use Rattle.put_term_laws.specs.MadeNames.{NumberedIsOne, NumberedStands};
ghost use Rattle.put_term_laws.specs.Under.{RenamedIsPut};
ghost use Rattle.put_term_laws.specs.Shapes.{RenamedShapeIsPut};

/// A term with terms put in is that term, in normal form; made names are apart. It does nothing.
pub fn laws()
    ensures same { NormalIsSame }
    ensures normal { NormalIsNormal }
    ensures put { PutTermIsPut }
    ensures renamed { RenamedIsPut }
    ensures shapes { RenamedShapeIsPut }
    ensures one { NumberedIsOne }
    ensures stands { NumberedStands }
{}
