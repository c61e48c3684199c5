//! Terms as linear forms over the integer variables of a context: definitions and their laws.
#![tactic(auto)]

ghost use Rattle.linear_forms.specs.Terms.{NormalHasTheValue, NormalIsTheOnlyRow};

/// The normal form of a term is the one row that equals the term at all values of the variables.
pub fn normal_form_is_the_term()
    ensures value { NormalHasTheValue }
    ensures only { NormalIsTheOnlyRow }
{}
