//! Certificates that a linear row follows from others over the integers.
#![tactic(auto)]

mod cert;
mod check;

pub use cert::{Cert, CertFault, Coefficients, Mention, Mentions, Row, Rows};
pub use check::holds;
