//! What closed cells of known tasks hold is complete.
#![tactic(auto)]

ghost use Rattle.known_closing.specs.Closing.{ClosesIn};

/// All loads and parcels of the cells of known tasks make complete lists. It does nothing.
pub fn close()
    ensures { ClosesIn }
{}
