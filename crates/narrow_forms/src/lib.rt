//! Narrow terms have forms that 64 bits hold.
#![tactic(auto)]

ghost use Rattle.narrow_forms.specs.Laws.{NarrowTermsFit, NarrowLimitsFit};

/// What form asks of the numbers of terms and limits, 64 bits hold in their forms and rows. It does nothing.
pub fn laws()
    ensures terms { NarrowTermsFit }
    ensures limits { NarrowLimitsFit }
{}
