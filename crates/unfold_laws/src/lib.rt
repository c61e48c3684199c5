//! Programs of form are as `unfold` asks and their ends have heads, and unfolding has one answer.
#![tactic(auto)]

ghost use Rattle.unfold_laws.specs.Laws.{FormHasFormedProtocols, FormKnowsReferences, NodesKnowReferences, KnownHasArity, NodesHaveBoundedCerts, EndsHaveHeads, FormKnowsTheirs, FindsKnown, SubstHasOneResult, UnfoldingHasOneAnswer};

/// What holds of programs of form, and of what unfolding answers. It does nothing.
pub fn laws()
    ensures protocols { FormHasFormedProtocols }
    ensures references { FormKnowsReferences }
    ensures forks { NodesKnowReferences }
    ensures arity { KnownHasArity }
    ensures certs { NodesHaveBoundedCerts }
    ensures heads { EndsHaveHeads }
    ensures theirs { FormKnowsTheirs }
    ensures found { FindsKnown }
    ensures result { SubstHasOneResult }
    ensures answer { UnfoldingHasOneAnswer }
{}
