//! The names of a context that are integers.
ghost use Rattle.std.specs.Prelude.{◌≡◌, List, find};
ghost use Rattle.std.specs.List.{position, list_any};
ghost use Rattle.std.specs.Option.{option_copied};
ghost use Rattle.core_language.specs.Names.{same};
ghost use Rattle.linear_forms.specs.Normal as form;
ghost use Rattle.outline_rules.specs.Naming.{int_names_of};

use chan_base::Memory;
use chan_syntax::{Ident, Idents, Term};
use sqlite_items::Items;
use std::alloc::AllocError;

pub type IntVars = Items<IntVar>;

/// A program variable that is an integer, and its term over the integer variables.
#[derive(Drop)]
pub struct IntVar {
    pub name: Ident,
    pub term: Term,
}

/// The integer variables of a context in order, and its program variables that are integers.
#[derive(Drop)]
pub struct IntNames {
    pub ints: Idents,
    pub vars: IntVars,
}

/// Why a term has no row.
#[derive(Drop)]
pub enum TermFault {
    TooLarge,
    /// The first name of the term that is no integer.
    NotInt(Ident),
    Memory,
}

impl From<AllocError> for TermFault {
    ghost use Rattle.outline_rules.specs.declared.naming.TermFault.TheVariants as cause;

    ghost from_gives = { λ _ fault. fault ≡ cause.Memory };

    fn from(_: AllocError) -> TermFault {
        TermFault::Memory
    }
}

impl From<Memory> for TermFault {
    ghost use Rattle.outline_rules.specs.declared.naming.TermFault.TheVariants as cause;

    ghost from_gives = { λ _ fault. fault ≡ cause.Memory };

    fn from(_: Memory) -> TermFault {
        TermFault::Memory
    }
}

pub(crate) fn place_of(ints: &[Ident], name: &Ident) -> Option<usize>
    ensures { result ≡ position (λ y. same y name.now) ints.now }
{
    ints.iter().position(|other| other == name)
}

pub(crate) fn var_named<'a>(vars: &'a [IntVar], name: &Ident) -> Option<&'a IntVar>
    ensures { option_copied result ≡ find (λ v. same v.name name.now) vars.now }
{
    vars.iter().find(|var| var.name == *name)
}

fn is_var(vars: &[IntVar], name: &Ident) -> bool
    ensures { result ≡ list_any (λ v. same v.name name.now) vars.now }
{
    vars.iter().any(|var| var.name == *name)
}

fn is_variable(ints: &[Ident], name: &Ident) -> bool
    ensures { result ≡ list_any (λ y. same y name.now) ints.now }
{
    ints.iter().any(|other| other == name)
}

/// Whether a name is an integer.
#[tactic(auto, using(crate::proofs::Names::any_of_map))]
pub(crate) fn is_int(names: &IntNames, name: &Ident) -> bool
    ensures { result ≡ form.is_int (int_names_of names.now) name.now }
{
    is_var(names.vars.as_slice(), name) || is_variable(names.ints.as_slice(), name)
}
