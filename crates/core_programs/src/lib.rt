//! Core programs: functions whose bodies are numbered nodes, and what makes a program well formed.
#![tactic(auto)]

mod bodies;
mod faults;
mod follows;
mod forms;
mod indexes;
mod mains;
mod mentions;
mod naming;
mod nodes;
mod passes;
mod starts;
mod tables;
mod uses;
mod walking;
mod wellformed;

pub use faults::BuildFault;
pub use form_faults::{Ill, IllKind};
pub use forms::first_fault;
pub use nodes::{Arm, Arms, Func, Funcs, Node, Nodes, Parts};
pub use wellformed::Program;
