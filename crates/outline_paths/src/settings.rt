//! What stays the same along a path.
ghost use Rattle.std.specs.Prelude.{◌≤◌, All};
ghost use Rattle.farkas_check.specs.Rows.{IsNarrow};
ghost use Rattle.chan_syntax.specs.Bounds.{IsBounded};

use chan_syntax::Proof;
use farkas_check::Rows;
use protocol_tables::ProtocolTable;

/// The protocols, the hypotheses over so many integer variables, and the proof whose certificates show what letters ask for.
#[derive(Clone, Copy)]
pub(crate) struct Setting<'a> {
    pub(crate) table: &'a ProtocolTable,
    pub(crate) variables: u32,
    pub(crate) hyps: &'a Rows,
    pub(crate) proof: &'a Proof,
    ghost few: { variables ≤ 256 },
    ghost hypotheses: { All IsNarrow hyps.now },
    ghost certs: { All IsBounded proof.now.certs },
}
