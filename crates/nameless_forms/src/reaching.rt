//! How far outwards the binders stand that a form names.
ghost use Rattle.std.specs.Prelude.{◌≡◌, ◌≤◌, ℕ, List, true};
ghost use Rattle.std.specs.List.{list_all};
ghost use Rattle.linear_forms.specs.Normal.{fits};
ghost use Rattle.outline_language.specs.LinearForms.{LinearForm, form_fits};
ghost use Rattle.outline_language.specs.Nameless.{form_with};
ghost use Rattle.nameless_forms.specs.Reaching.{var_reach, multiples_reach};

use crate::linear::{Form, Multiple};
use crate::variables::{Place, Var};

fn var_reach(var: Var) -> usize
    ensures { result ≡ var_reach var }
{
    match var.place {
        Place::Free(_) => 0,
        Place::Inside(number) => number + 1,
    }
}

fn multiples_reach(multiples: &[Multiple]) -> usize
    ensures reach { multiples_reach multiples.now ≤ result }
    ensures fits { list_all (λ m. fits m.1) multiples.now ≡ true }
{
    let mut reach = 0;
    let mut left = multiples.len();
    while left > 0 {
        left -= 1;
        let (var, _times) = multiples[left];
        reach = reach.max(var_reach(var));
    }
    reach
}

impl Form {
    /// How many binders around it the form names at most: instances for those further out change nothing.
    pub fn reach(&self) -> usize
        ensures closed { (instances : List LinearForm) (depth : ℕ) → result ≤ depth → form_with instances depth self.now ≡ self.now }
        ensures fits { form_fits self.now ≡ true }
    {
        let _constant = self.constant;
        multiples_reach(self.multiples.as_slice())
    }
}
