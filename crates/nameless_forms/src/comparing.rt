//! Whether two forms are one.
ghost use Rattle.std.specs.Prelude.{◌≡◌};
ghost use Rattle.std.specs.Cmp.Lexicographic.{pointwise};
ghost use Rattle.outline_language.specs.LinearForms.{same_multiple, same_form};

use crate::linear::{Form, Multiple};

fn same_multiples(left: &[Multiple], right: &[Multiple]) -> bool
    ensures { result ≡ pointwise same_multiple left.now right.now }
{
    if left.len() != right.len() {
        return false;
    }
    for index in 0..left.len() {
        if left[index].0 != right[index].0 || left[index].1 != right[index].1 {
            return false;
        }
    }
    true
}

impl Form {
    /// Whether it is one form, so that the two have one value everywhere.
    pub fn is_same(&self, other: &Form) -> bool
        ensures { result ≡ same_form self.now other.now }
    {
        same_multiples(self.multiples.as_slice(), other.multiples.as_slice())
            && self.constant == other.constant
    }
}
