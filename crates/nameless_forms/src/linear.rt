//! Linear forms in numbers of 64 bits.
ghost use Rattle.std.specs.Prelude.{◌≡◌, IfOk};
ghost use Rattle.outline_language.specs.LinearForms.{constant_form, variable_form};

use crate::variables::Var;
use chan_base::Memory;
use sqlite_items::Items;
use std::alloc::Global;
use std::marker::Model;

/// A variable, and how often it counts.
pub(crate) type Multiple = (Var, i64);

pub(crate) type Multiples = Items<Multiple>;

/// A sum of multiples and a constant, of which there is one for each value.
#[derive(Drop)]
pub struct Form {
    pub(crate) multiples: Multiples,
    pub(crate) constant: i64,
}

pub type Forms = Items<Form>;

impl Model for Form {
    ghost use Rattle.outline_language.specs.LinearForms.{LinearForm};
    ghost use Rattle.outline_language.specs.Canonical.{AreCanonical};
    ghost use Rattle.nameless_forms.specs.Codes.{form_code};

    ghost Value = { LinearForm };

    ghost coded = { form_code };

    ghost view = { λ form. record { multiples = form.multiples; constant = form.constant } };

    ghost invariant = { λ form. AreCanonical form.multiples };
}

impl Form {
    pub fn constant(alloc: Global, constant: i64) -> Form
        ensures { result ≡ constant_form constant }
    {
        Form {
            multiples: Items::new(alloc),
            constant,
        }
    }

    pub fn variable(alloc: Global, var: Var) -> Result<Form, Memory>
        ensures { IfOk result (λ form. form ≡ variable_form var) }
    {
        let multiples = Items::from_slice(alloc, &[(var, 1)])?;
        Ok(Form {
            multiples,
            constant: 0,
        })
    }

    pub fn copy(&self, alloc: Global) -> Result<Form, Memory>
        ensures { IfOk result (λ form. form ≡ self.now) }
    {
        let multiples = Items::from_slice(alloc, self.multiples.as_slice())?;
        Ok(Form {
            multiples,
            constant: self.constant,
        })
    }
}
