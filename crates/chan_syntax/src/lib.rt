//! The surface tree of a program's text: names, linear terms, resources, protocols, operands.
#![tactic(auto)]

mod certificates;
mod copies;
mod identifiers;
mod linear;
mod operand_copies;
mod operands;
mod resources;
mod surface_tree;

pub use copies::{copy_names, copy_params, copy_spans, copy_terms};
pub use identifiers::{Ident, Idents};
pub use linear::{Bound, Limit, Limits, Part, Relation, Term, TermParts, Terms};
pub use operand_copies::{copy_path, copy_supplies};
pub use operands::{
    Certs, Letter, Pat, Path, Proof, Supplies, Supply, WrittenCert, WrittenMention, WrittenMentions,
};
pub use resources::{Equation, Param, Params, Proto, Protos, Ref, Refs, Res, Resources, Shape};
pub use surface_tree::{
    Block, Blocks, Body, Decl, Decls, Last, Start, Starts, Stmt, Stmts, Surface, SurfaceArm,
    SurfaceArms, SurfaceFunc, SurfaceProto,
};
