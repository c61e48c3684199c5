//! The functions that lowering makes for sends are outlined.
#![tactic(auto)]

ghost use Rattle.helper_outlines.specs.Helpers.{HelpersAreOutlined};

/// A helper meets the rules. It does nothing.
pub fn laws()
    ensures { HelpersAreOutlined }
{}
