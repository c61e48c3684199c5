//! Laws of duals, of heads and of ends that are followed.
ghost use Rattle.protocols.specs.Duals.{TwiceIsNothing, SameMessage, MarkGoesToBranches};
ghost use Rattle.protocols.specs.Heads.{HeadIsOne, DualTurnsTheHead};
ghost use Rattle.protocols.specs.Unfolding.{FollowsTheWays, FindsTheHead};

/// The other end has the other direction and the same message.
pub fn the_dual_is_the_other_end()
    ensures twice { TwiceIsNothing }
    ensures message { SameMessage }
    ensures branches { MarkGoesToBranches }
    ensures head { DualTurnsTheHead }
{}

/// An end has one head, and comes to it in one way.
pub fn an_end_has_one_head()
    ensures { HeadIsOne }
{}

/// Where the hypotheses are true, a path goes the ways of the end, and what unfolding answers is the
/// head of the end there: its direction, and its message at the values of the integer variables.
pub fn unfolding_finds_the_head()
    ensures ways { FollowsTheWays }
    ensures head { FindsTheHead }
{}
