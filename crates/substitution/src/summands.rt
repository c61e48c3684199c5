//! Sums of what names and bare numbers count.
ghost use Rattle.std.specs.Prelude.{◌≡◌, ◌+◌, ◌≤◌, ◌^◌, ◌++◌, ◌∷◌, [], ℕ, ◌*ℤ◌, unsigned_abs, List, Some, None, false, unwrap_or, OnOk};
ghost use Rattle.core_language.specs.Names.{Ident as Name, same};
ghost use Rattle.core_language.specs.Terms.{Term as Sum};
ghost use Rattle.linear_forms.specs.Replacing.{counting};
ghost use Rattle.substitution.specs.Places.{Token};
ghost use Rattle.substitution.specs.Sums.{sum_at, span_at, HasSums, HasPlaces, Adds, Meets, IsWithin};

use chan_base::{Memory, Span};
use chan_syntax::Ident;
use std::alloc::Global;
use std::collections::BTreeMap;
use wide_sums::Wide;

/// The sum of a name, and where it stood first.
#[derive(Drop)]
pub(crate) struct Summand {
    pub sum: Wide,
    pub span: Option<Span>,
}

/// A sum of names and a bare number.
#[derive(Drop)]
pub(crate) struct Summands {
    pub named: BTreeMap<Ident, Summand>,
    pub constant: Wide,
}

impl Summands {
    pub fn new(alloc: Global) -> Summands
        ensures sums { HasSums result [] }
        ensures within { IsWithin 0 result }
        ensures places { HasPlaces result [] }
    {
        Summands {
            named: BTreeMap::new(alloc),
            constant: Wide::zero(),
        }
    }

    pub fn add_number(&mut self, weight: i128, times: i128)
        requires weight { unsigned_abs weight ≤ 2 ^ 63 }
        requires times { unsigned_abs times ≤ 2 ^ 63 }
        requires within { IsWithin (2 ^ 247) self.old }
        ensures sums { Adds self.old self.new (counting (weight *ℤ times) None ∷ []) }
        ensures within { (size : ℕ) → IsWithin size self.old → IsWithin (size + 2 ^ 126) self.new }
        ensures places { (tokens : List Token) → HasPlaces self.old tokens → HasPlaces self.new tokens }
    {
        self.constant.add_product(weight, times);
    }

    /// The summand of a name, which is taken out.
    fn take(&mut self, name: &Ident, span: Option<Span>) -> Summand
        ensures sum { result.sum ≡ sum_at self.old name.now }
        ensures others { (x : Name) → same name.now x ≡ false → sum_at self.new x ≡ sum_at self.old x }
        ensures constant { self.new.constant ≡ self.old.constant }
        ensures span { result.span ≡ unwrap_or (span_at self.old name.now) span }
        ensures other_spans { (x : Name) → same name.now x ≡ false → span_at self.new x ≡ span_at self.old x }
    {
        match self.named.remove(name) {
            Some(summand) => summand,
            None => Summand {
                sum: Wide::zero(),
                span,
            },
        }
    }

    pub fn add_name(
        &mut self,
        name: &Ident,
        span: Option<Span>,
        weight: i128,
        times: i128,
    ) -> Result<(), Memory>
        requires weight { unsigned_abs weight ≤ 2 ^ 63 }
        requires times { unsigned_abs times ≤ 2 ^ 63 }
        requires within { IsWithin (2 ^ 247) self.old }
        ensures sums { OnOk result (Adds self.old self.new (counting (weight *ℤ times) (Some name.now) ∷ [])) }
        ensures within { OnOk result ((size : ℕ) → IsWithin size self.old → IsWithin (size + 2 ^ 126) self.new) }
        ensures places { OnOk result (Meets self.old self.new (record { name = name.now; place = span } ∷ [])) }
    {
        let mut summand = self.take(name, span);
        summand.sum.add_product(weight, times);
        self.named.insert(name.copy()?, summand)?;
        Ok(())
    }
}
