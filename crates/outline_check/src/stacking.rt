//! Steps of a context that can go back.
ghost use Rattle.std.specs.Prelude.{◌≡◌, ◌<◌, ◌++◌, ◌∷◌, [], ℕ, length, Ok, OnOk, OnErr, IfErr};
ghost use Rattle.core_language.specs.Programs.{Body};
ghost use Rattle.core_programs.specs.Bodies.{opened};
ghost use Rattle.outline_language.specs.Contexts.{Context as Seen};
ghost use Rattle.outline_contexts.specs.Trails.{context_in};
ghost use Rattle.outline_walk.specs.Forms.{form_at, IsNode, Meets, Fails, picked};
ghost use Rattle.outline_check.specs.Settings.{setting_of};

use crate::entering::enter_body;
use crate::meeting::meet_node;
use crate::stacks::Stack;
use call_rules::Tables;
use chan_base::Memory;
use core_programs::Node;
use nameless_shapes::Resource;
use outline_contexts::Context;
use outline_obligations::ContextFault;
use std::alloc::Global;

impl Stack {
    pub fn new(alloc: Global, context: Context) -> Stack
        ensures { result ≡ record { current = context; kept = [] } }
    {
        Stack {
            context,
            marks: Vec::new(alloc),
        }
    }

    pub fn context(&self) -> &Context
        ensures { result.now ≡ self.now.current }
    {
        &self.context
    }

    /// Keeps the context, to go back to it.
    pub fn keep(&mut self) -> Result<(), Memory>
        ensures current { self.new.current ≡ self.old.current }
        ensures kept { OnOk result (self.new.kept ≡ self.old.kept ++ self.old.current ∷ []) }
    {
        let mark = self.context.mark();
        self.marks.push(mark)?;
        Ok(())
    }

    /// Goes back to the context that was kept last, and keeps it no longer.
    pub fn go_back(&mut self)
        requires { 0 < length self.old.kept }
        ensures { self.old.kept ≡ self.new.kept ++ self.new.current ∷ [] }
    {
        match self.marks.pop() {
            Some(mark) => self.context.rewind(mark),
            None => unreachable!(),
        }
    }

    /// Makes of the context what the rule of a form makes of it. Where it fails, the context stays.
    pub fn meet(
        &mut self,
        alloc: Global,
        tables: &Tables<'_>,
        own: &Resource,
        node: &Node,
    ) -> Result<(), ContextFault>
        requires { IsNode (setting_of tables.now own.now) node.now }
        ensures ok { OnOk result (Meets (setting_of tables.now own.now) (context_in self.old.current) (context_in self.new.current) (form_at (setting_of tables.now own.now) node.now)) }
        ensures err { IfErr result (Fails (setting_of tables.now own.now) (context_in self.old.current) (form_at (setting_of tables.now own.now) node.now)) }
        ensures stays { OnErr result (self.new.current ≡ self.old.current) }
        ensures kept { self.new.kept ≡ self.old.kept }
    {
        let mark = self.context.mark();
        match meet_node(alloc, tables, own, &mut self.context, node) {
            Ok(()) => Ok(()),
            Err(fault) => {
                self.context.rewind(mark);
                Err(fault)
            }
        }
    }

    /// Makes of the context that the rule of a form left the one of the body with this number.
    pub fn pick(&mut self, alloc: Global, node: &Node, number: usize) -> Result<(), Memory>
        requires { (at : ℕ → Body) × (after : Seen) × (picked (context_in self.old.current) (opened node.now at) number ≡ Ok after) }
        ensures picked { OnOk result ((at : ℕ → Body) → picked (context_in self.old.current) (opened node.now at) number ≡ Ok (context_in self.new.current)) }
        ensures kept { self.new.kept ≡ self.old.kept }
    {
        match enter_body(alloc, &mut self.context, node, number) {
            Ok(()) => Ok(()),
            Err(ContextFault::Why(_)) => unreachable!(),
            Err(ContextFault::Memory) => Err(Memory),
        }
    }
}
