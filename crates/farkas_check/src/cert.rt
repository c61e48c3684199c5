//! Rows, certificates and what can fail of them.
ghost use Rattle.std.specs.Prelude.{◌<◌, ◌≤◌, ◌^◌, length, unsigned_abs, All};

use sqlite_items::Items;

pub type Coefficients = Items<i64>;

pub type Mentions = Items<Mention>;

pub type Rows = Items<Row>;

/// A linear form over the variables 0, 1 and so on, which is said to be at most 0.
#[derive(Debug, Drop)]
pub struct Row {
    /// A variable past the end of the list has the coefficient 0.
    pub coefficients: Coefficients,
    pub constant: i64,
}

/// A multiple of the hypothesis with the number `index`.
#[derive(Debug, Clone, Copy)]
pub struct Mention {
    pub factor: i64,
    pub index: u32,
}

/// The claim times the divisor is the sum of what is mentioned, but for a constant.
#[derive(Debug, Drop)]
pub struct Cert {
    pub divisor: u32,
    pub mentions: Mentions,
    ghost positive: { 1 ≤ divisor },
    ghost small: { divisor < 2 ^ 31 },
    ghost few: { length mentions ≤ 256 },
    ghost bounded: { All (λ m. unsigned_abs m.factor < 2 ^ 31) mentions },
}

/// The first part of a certificate that fails.
#[derive(Debug, Clone, Copy, PartialEq, Eq)]
pub enum CertFault {
    /// The number of no hypothesis.
    BadIndex(u32),
    /// The number of a hypothesis whose factor is negative.
    Negative(u32),
    NotEqual {
        variable: u32,
        left: i128,
        right: i128,
    },
    Constant {
        constant: i128,
        divisor: u32,
    },
}
