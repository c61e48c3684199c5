//! The canonical spelling of terms, resources, values and proofs, as bytes.
#![tactic(auto)]

mod operands;
mod resources;
mod terms;
mod words;

pub use operands::{
    put_names_behind, put_pat, put_path, put_proof, put_tag, put_two_pats, put_value, put_values,
};
pub use resources::{put_reference, put_res, put_shape};
pub use terms::put_binds_behind;
pub use words::{Spell, deeper, put, put_behind_commas, put_in_parens, put_line, put_number};
