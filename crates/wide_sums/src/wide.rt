//! An integer in three parts.
ghost use Rattle.std.specs.Prelude.{◌≡◌, ◌<◌, ◌≤◌, ◌^◌, pos, negsuc, ◌+ℤ◌, ◌*ℤ◌, ◌≤ℤ◌, ◌<ℤ◌, unsigned_abs, ◌↔◌, FitsSigned, IsSome, IfSome};
ghost use Rattle.std.specs.Int.{w64};
ghost use Rattle.wide_sums.specs.Parts.{IsSplit, IsPart, value_of_parts};

use std::marker::Model;

const BASE: i128 = 4611686018427387904;

const SQUARE: i128 = 21267647932558653966460912964485513216;

/// A multiple of the base, and a rest.
#[derive(Clone, Copy)]
struct Carried {
    high: i128,
    low: i128,
}

fn split(x: i128) -> Carried
    ensures { IsSplit x result.high result.low }
{
    Carried {
        high: x.div_euclid(BASE),
        low: x.rem_euclid(BASE),
    }
}

fn with_product(sum: i128, factor: i128, number: i128) -> i128
    requires sum { unsigned_abs sum ≤ 2 ^ 65 }
    requires factor { unsigned_abs factor ≤ 2 ^ 63 }
    requires number { unsigned_abs number ≤ 2 ^ 62 }
    ensures value { result ≡ sum +ℤ (factor *ℤ number) }
    ensures bound { unsigned_abs result ≤ 2 ^ 126 }
{
    sum + factor * number
}

fn joined(high: i128, middle: i128, low: i128) -> i128
    requires least { negsuc 0 ≤ℤ high }
    requires most { high ≤ℤ pos 0 }
    requires middle { IsPart middle }
    requires low { IsPart low }
    ensures { result ≡ value_of_parts high middle low }
{
    high * SQUARE + middle * BASE + low
}

fn narrowed(value: i128) -> Option<i64>
    ensures fits { IsSome result ↔ FitsSigned w64 value }
    ensures value { IfSome result (λ z. z ≡ value) }
{
    i64::try_from(value).ok()
}

/// An integer below 2^250 on both sides of 0.
#[derive(Drop)]
pub struct Wide {
    high: i128,
    middle: i128,
    low: i128,
}

impl Model for Wide {
    ghost use Rattle.std.specs.Prelude.{ℤ};
    ghost use Rattle.std.specs.Coded.{coded_ℤ};

    ghost Value = { ℤ };

    ghost coded = { coded_ℤ };

    ghost use Rattle.wide_sums.specs.Parts.{value_of_parts, IsPart};

    ghost view = { λ wide. value_of_parts wide.high wide.middle wide.low };

    ghost invariant = { λ wide. IsPart wide.middle × IsPart wide.low };
}

impl Wide {
    pub fn zero() -> Wide
        ensures { result ≡ pos 0 }
    {
        Wide {
            high: 0,
            middle: 0,
            low: 0,
        }
    }

    /// Adds a product.
    pub fn add_product(&mut self, factor: i128, number: i128)
        requires factor { unsigned_abs factor ≤ 2 ^ 63 }
        requires number { unsigned_abs number ≤ 2 ^ 122 }
        requires sum { unsigned_abs self.old ≤ 2 ^ 248 }
        ensures { self.new ≡ self.old +ℤ (factor *ℤ number) }
    {
        let parts = split(number);
        let low = split(with_product(self.low, factor, parts.low));
        let middle = split(with_product(self.middle + low.high, factor, parts.high));
        self.low = low.low;
        self.middle = middle.low;
        self.high += middle.high;
    }

    pub fn to_i64(&self) -> Option<i64>
        ensures fits { IsSome result ↔ FitsSigned w64 self.now }
        ensures value { IfSome result (λ z. z ≡ self.now) }
    {
        if self.high < -1 || self.high > 0 {
            return None;
        }
        narrowed(joined(self.high, self.middle, self.low))
    }
}
