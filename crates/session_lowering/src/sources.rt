//! Protocols that stand for those of a text.
use chan_syntax::Proto;

/// A plain protocol, and whether it comes from the first line of a choice.
#[derive(Drop)]
pub struct Source {
    pub proto: Proto,
    pub chooses: bool,
}
