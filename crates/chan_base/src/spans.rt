//! Where pieces of a program's text stand.

use sqlite_items::Items;

pub type Spans = Items<Span>;

/// Where a piece of the text stands: its bytes are those from `start` to `stop`, which is
/// excluded. Lines and columns count from 1, and a column counts bytes.
#[derive(Clone, Copy, Debug, PartialEq, Eq)]
pub struct Span {
    pub start: u32,
    pub stop: u32,
    pub line: u32,
    pub column: u32,
}
