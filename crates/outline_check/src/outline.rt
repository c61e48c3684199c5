//! The outline of a function's body: what a walk asks of the rules.
use crate::stacks::Stack;
use call_rules::Tables;
use chan_base::Memory;
use chan_syntax::Ident;
use core_programs::Node;
use nameless_shapes::Resource;
use outline_obligations::ContextFault;
use outline_walk::Outlining;
use std::alloc::Global;

/// The tables of a program, what the function gives back, and the context of the form that comes next.
#[derive(Drop)]
pub(crate) struct Outline<'a> {
    pub tables: Tables<'a>,
    pub own: Resource,
    pub stack: Stack,
}

impl Outlining for Outline<'_> {
    ghost use Rattle.std.specs.Prelude.{map};
    ghost use Rattle.outline_contexts.specs.Trails.{context_in};

    ghost setting = { λ o. record { parts = o.tables.program.now; own = o.own } };

    ghost context = { λ o. context_in o.stack.current };

    ghost saved = { λ o. map context_in o.stack.kept };

    fn names(&self) -> &[Ident] {
        self.stack.context().ints()
    }

    fn meet(&mut self, alloc: Global, node: &Node) -> Result<(), ContextFault> {
        self.stack.meet(alloc, &self.tables, &self.own, node)
    }

    fn pick(&mut self, alloc: Global, node: &Node, number: usize) -> Result<(), Memory> {
        self.stack.pick(alloc, node, number)
    }

    fn save(&mut self) -> Result<(), Memory> {
        self.stack.keep()
    }

    fn go_back(&mut self) {
        self.stack.go_back()
    }
}
