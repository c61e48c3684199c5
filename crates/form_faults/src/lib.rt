//! Faults of form in what programs are made of: names, terms, resources, protocols and operands.
#![tactic(auto)]

ghost use Rattle.form_faults.specs.Faults.{LeastIsFirst, LeastOfNone};

mod binding;
mod bounds;
mod faults;
mod headers;
mod operands;
mod resources;
mod scopes;
mod signatures;
mod sorts;
mod tables;
mod terms;

pub use binding::bind_names;
pub use bounds::{bind_bound, check_names};
pub use faults::{Ill, IllKind, note, note_name, note_number};
pub use headers::check_header;
pub use operands::{bind_pat, check_path, check_proof, check_supplies, check_supply};
pub use resources::check_proto;
pub use scopes::{Scope, bind_name, check_name};
pub use signatures::Signature;
pub use sorts::{Known, Naming, Sort};
pub use tables::{Table, check_use};
pub use terms::{check_fixed_ref, check_fixed_term, check_ref, check_term, check_terms};

/// What is kept of a list of faults. It does nothing.
#[tactic(auto, using(crate::proofs::First::least_is_first, crate::proofs::First::least_is_none))]
pub fn laws()
    ensures first { LeastIsFirst }
    ensures none { LeastOfNone }
{}
