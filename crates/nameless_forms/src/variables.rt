//! Variables, and their order.
ghost use Rattle.std.specs.Prelude.{◌≡◌, ◌+◌, ◌<◌, ◌^◌, Some, refl};
ghost use Rattle.std.specs.Cmp.{partial_equiv_from_equiv};
ghost use Rattle.outline_language.specs.LinearForms.{Free, Inside, same_var, variable_order};
ghost use Rattle.nameless_forms.specs.Order.{order_total, order_ties, same_equiv, order_po};

use std::cmp::Ordering;
use std::marker::Model;

#[derive(Clone, Copy)]
pub(crate) enum Place {
    Inside(usize),
    Free(u32),
}

/// An integer variable by its place in the context, or a bound one counted outwards.
#[derive(Clone, Copy)]
pub struct Var {
    pub(crate) place: Place,
}

impl Model for Var {
    ghost use Rattle.outline_language.specs.LinearForms.{Var};
    ghost use Rattle.nameless_forms.specs.Codes.{var_code};

    ghost Value = { Var };

    ghost coded = { var_code };

    ghost use Rattle.std.proofs.Common.{ap};
    ghost use Rattle.nameless_forms.specs.Places.{var_of, place_of, place_back, IsNear};

    ghost view = { λ var. var_of var.place };

    ghost invariant = { λ var. IsNear var.place };

    ghost inverse = { λ var. record { place = place_of var } };

    ghost inverse_ok = { λ var _. ap (λ p. record { place = p }) (place_back var.place) };
}

impl Var {
    pub fn free(place: u32) -> Var
        ensures { result ≡ Free place }
    {
        Var {
            place: Place::Free(place),
        }
    }

    /// The binder that stands so many others outwards.
    pub fn inside(number: usize) -> Var
        requires { number + 1 < 2 ^ 64 }
        ensures { result ≡ Inside number }
    {
        Var {
            place: Place::Inside(number),
        }
    }
}

impl PartialEq for Var {
    ghost eq = { same_var };

    ghost laws = { partial_equiv_from_equiv same_equiv };

    fn eq(&self, other: &Var) -> bool {
        match (self.place, other.place) {
            (Place::Inside(left), Place::Inside(right)) => left == right,
            (Place::Free(left), Place::Free(right)) => left == right,
            _ => false,
        }
    }
}

impl Eq for Var {
    ghost laws = { same_equiv };
}

impl PartialOrd for Var {
    ghost partial_cmp = { λ left right. Some (variable_order left right) };

    ghost laws = { order_po };

    fn partial_cmp(&self, other: &Var) -> Option<Ordering> {
        Some(self.cmp(other))
    }
}

/// Binders stand before integer variables.
impl Ord for Var {
    ghost cmp = { variable_order };

    ghost total = { order_total };

    ghost matches_partial_cmp = { λ left right. refl };

    ghost matches_eq = { order_ties };

    fn cmp(&self, other: &Var) -> Ordering {
        match (self.place, other.place) {
            (Place::Inside(left), Place::Inside(right)) => left.cmp(&right),
            (Place::Inside(_), Place::Free(_)) => Ordering::Less,
            (Place::Free(_), Place::Inside(_)) => Ordering::Greater,
            (Place::Free(left), Place::Free(right)) => left.cmp(&right),
        }
    }
}
