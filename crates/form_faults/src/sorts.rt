//! What names in scope stand for.
ghost use Rattle.std.specs.Prelude.{◌≡◌, Some};
ghost use Rattle.form_faults.specs.Scopes.{is_usable};

use chan_syntax::Ident;

/// What a name stands for: a program variable, an integer variable, or one of each. The names of
/// binders are integer variables; a product, a quotient and a rest bind both.
#[derive(Clone, Copy)]
pub enum Sort {
    Variable,
    Integer,
    Both,
}

/// Which names a term may use.
#[derive(Clone, Copy)]
pub enum Naming {
    Variables,
    Integers,
    Either,
}

/// A name in scope.
#[derive(Drop)]
pub struct Known {
    pub name: Ident,
    pub sort: Sort,
}

fn allows(may: Naming, sort: Sort) -> bool
    ensures { result ≡ is_usable may (Some sort) }
{
    match (may, sort) {
        (Naming::Variables, Sort::Integer) => false,
        (Naming::Integers, Sort::Variable) => false,
        _ => true,
    }
}

pub(crate) fn is_usable(may: Naming, sort: Option<Sort>) -> bool
    ensures { result ≡ is_usable may sort }
{
    match sort {
        None => false,
        Some(sort) => allows(may, sort),
    }
}
