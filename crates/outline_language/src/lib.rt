//! The outline of a program: contexts, the fifteen rules, and the first fault.
#![tactic(auto)]

ghost use Rattle.outline_language.specs.Canonical.{OneForm, SumsAreCanonical};
ghost use Rattle.outline_language.specs.Laws.{OutlinedWhereNoFault, FoundIsFirst, FirstFaultIsOne};
ghost use Rattle.outline_language.specs.Examples.{ReceivingIsOutlined, DroppingIsNot};
ghost use Rattle.outline_language.specs.TreeExample.{TreeIsOutlined, TreeNeedsTheBranch, TreeNeedsACertificate};
ghost use Rattle.outline_language.specs.Conditions.{IntegersFail, CallsFail, ChannelsFail, PartsFail, NumbersFail, ConstantsFail, Room};

/// A program is outlined exactly where it has no first fault, and it has at most one; five programs as examples. It does nothing.
pub fn laws()
    ensures outlined { OutlinedWhereNoFault }
    ensures found { FoundIsFirst }
    ensures one { FirstFaultIsOne }
    ensures receives { ReceivingIsOutlined }
    ensures drops { DroppingIsNot }
    ensures tree { TreeIsOutlined }
    ensures branch { TreeNeedsTheBranch }
    ensures cert { TreeNeedsACertificate }
{}

/// Two canonical forms with one value everywhere are one, and sums are canonical. It does nothing.
pub fn forms()
    ensures one { OneForm }
    ensures sums { SumsAreCanonical }
{}

/// Bodies whose first form fails at one of its rule's conditions. It does nothing.
pub fn conditions()
    ensures integers { IntegersFail }
    ensures calls { CallsFail }
    ensures channels { ChannelsFail }
    ensures parts { PartsFail }
    ensures numbers { NumbersFail }
    ensures constants { ConstantsFail }
    ensures room { Room }
{}
