//! What a hand has between the calls of a worker, and what each call makes of it.
#![tactic(auto)]

ghost use Rattle.cell_rules.specs.Rule.{Means};
ghost use Rattle.hand_states.specs.Hands.{Store};
ghost use Rattle.hand_states.specs.Laws.{TakesIn, GoesHomeIn, ContinuesIn, SendsIn, SendsToIn, CollectsIn, KeepsIn, BeginsIn, ReceivesIn, ParksIn, ComesBackIn, SeesIn, RetiresIn, ReopensIn, StartsIn, JoinsIn, ClosesIn, NotesIn};

/// What the calls make of a hand. It does nothing.
pub fn calls<L, P, A>()
    ensures takes { (x : Means L P A) (about : A) (s : Store L) → TakesIn x about s }
    ensures goes_home { (x : Means L P A) (about : A) (s : Store L) → GoesHomeIn x about s }
    ensures continues { (x : Means L P A) (about : A) (s : Store L) → ContinuesIn x about s }
    ensures sends { (x : Means L P A) (about : A) (s : Store L) → SendsIn x about s }
    ensures sends_to { (x : Means L P A) (about : A) (s : Store L) → SendsToIn x about s }
    ensures collects { (x : Means L P A) (about : A) (s : Store L) → CollectsIn x about s }
    ensures keeps { (x : Means L P A) (about : A) (s : Store L) → KeepsIn x about s }
    ensures begins { (x : Means L P A) (about : A) (s : Store L) → BeginsIn x about s }
{}

/// How a hand starts, parks, gives cells again, is joined and closes. It does nothing.
pub fn ends<L, P, A>()
    ensures receives { (x : Means L P A) (about : A) (s : Store L) → ReceivesIn x about s }
    ensures parks { (x : Means L P A) (about : A) (s : Store L) → ParksIn x about s }
    ensures comes_back { (x : Means L P A) (about : A) (s : Store L) → ComesBackIn x about s }
    ensures sees { (x : Means L P A) (about : A) (s : Store L) → SeesIn x about s }
    ensures retires { (x : Means L P A) (about : A) (s : Store L) → RetiresIn x about s }
    ensures reopens { (x : Means L P A) (about : A) (s : Store L) → ReopensIn x about s }
    ensures starts { (x : Means L P A) (about : A) (s : Store L) → StartsIn x about s }
    ensures joins { (x : Means L P A) (about : A) (s : Store L) → JoinsIn x about s }
    ensures closes { (x : Means L P A) (about : A) (s : Store L) → ClosesIn x about s }
    ensures notes { (x : Means L P A) (about : A) (s : Store L) → NotesIn x about s }
{}
