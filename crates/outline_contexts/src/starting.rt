//! The context in which a function begins.
ghost use Rattle.std.specs.Prelude.{◌≡◌, ◌≤◌, [], ◌∷◌, length, map, flat_map, Ok, OnOk, IfOk, IfErr};
ghost use Rattle.core_programs.specs.Bodies.{function_of, param_of};
ghost use Rattle.nameless_forms.specs.Limits.{limit_of};
ghost use Rattle.outline_language.specs.LinearForms.{minus};
ghost use Rattle.outline_language.specs.Nameless.{forms_of_limit};
ghost use Rattle.outline_language.specs.Contexts as spec;
ghost use Rattle.outline_obligations.specs.Reasons.{IsReason};
ghost use Rattle.outline_contexts.specs.Trails.{context_in};
ghost use Rattle.outline_contexts.specs.Starting.{IsHeader, nothing_yet, with_params, begun};

use crate::places::Places;
use crate::trail::Context;
use chan_base::Memory;
use chan_syntax::{Ident, Param, Relation};
use core_programs::Func;
use nameless_forms::{Form, Limit};
use outline_obligations::ContextFault;
use shape_readings::{nameless_limits, nameless_shape};
use sqlite_items::Items;
use std::alloc::Global;

impl Context {
    /// A context with nothing in it.
    pub fn new(alloc: Global) -> Context
        ensures { result ≡ nothing_yet }
    {
        Context {
            ints: Places::new(alloc),
            hyps: Items::new(alloc),
            names: Places::new(alloc),
            shapes: Vec::new(alloc),
            held: Vec::new(alloc),
            taken: Vec::new(alloc),
        }
    }

    fn start_same(&mut self, alloc: Global, left: &Form, right: &Form) -> Result<(), ContextFault>
        ensures ok { OnOk result (spec.add_hyps (context_in self.old) (minus left.now right.now ∷ minus right.now left.now ∷ []) ≡ Ok (context_in self.new)) }
        ensures err { IfErr result (IsReason (spec.add_hyps (context_in self.old) (minus left.now right.now ∷ minus right.now left.now ∷ []))) }
    {
        self.assume_at_most(alloc, left, right)?;
        self.assume_at_most(alloc, right, left)?;
        Ok(())
    }

    fn start_limit(&mut self, alloc: Global, limit: &Limit) -> Result<(), ContextFault>
        ensures ok { OnOk result (spec.add_hyps (context_in self.old) (forms_of_limit (limit_of limit.now)) ≡ Ok (context_in self.new)) }
        ensures err { IfErr result (IsReason (spec.add_hyps (context_in self.old) (forms_of_limit (limit_of limit.now)))) }
    {
        let left = &limit.left;
        let right = &limit.right;
        match limit.relation {
            Relation::AtMost => {
                self.assume_at_most(alloc, left, right)?;
                Ok(())
            }
            Relation::Less => {
                self.assume_less(alloc, left, right)?;
                Ok(())
            }
            Relation::Same => self.start_same(alloc, left, right),
        }
    }

    fn start_limits(&mut self, alloc: Global, limits: &[Limit]) -> Result<(), ContextFault>
        ensures ok { OnOk result (spec.add_hyps (context_in self.old) (flat_map forms_of_limit (map limit_of limits.now)) ≡ Ok (context_in self.new)) }
        ensures err { IfErr result (IsReason (spec.add_hyps (context_in self.old) (flat_map forms_of_limit (map limit_of limits.now)))) }
    {
        for limit in limits {
            self.start_limit(alloc, limit)?;
        }
        Ok(())
    }

    fn start_param(
        &mut self,
        alloc: Global,
        ints: &[Ident],
        param: &Param,
    ) -> Result<(), ContextFault>
        requires { length ints.now ≤ 256 }
        ensures ok { OnOk result (with_params ints.now (param_of param.now ∷ []) (context_in self.old) ≡ Ok (context_in self.new)) }
        ensures err { IfErr result (IsReason (with_params ints.now (param_of param.now ∷ []) (context_in self.old))) }
    {
        let shape = nameless_shape(alloc, ints, &[], &param.shape)?;
        self.hold(&param.name, shape)?;
        Ok(())
    }

    fn start_params(
        &mut self,
        alloc: Global,
        ints: &[Ident],
        params: &[Param],
    ) -> Result<(), ContextFault>
        requires { length ints.now ≤ 256 }
        ensures ok { OnOk result (with_params ints.now (map param_of params.now) (context_in self.old) ≡ Ok (context_in self.new)) }
        ensures err { IfErr result (IsReason (with_params ints.now (map param_of params.now) (context_in self.old))) }
    {
        for param in params {
            self.start_param(alloc, ints, param)?;
        }
        Ok(())
    }

    /// Adds what the header of a function says to a context with nothing in it.
    fn begin(&mut self, alloc: Global, func: &Func) -> Result<(), ContextFault>
        requires nothing { self.old ≡ nothing_yet }
        requires few { length func.now.bound.names ≤ 256 }
        ensures ok { OnOk result (begun (function_of [] func.now) ≡ Ok (context_in self.new)) }
        ensures err { IfErr result (IsReason (begun (function_of [] func.now))) }
    {
        let ints = func.bound.names.as_slice();
        self.add_ints(ints)?;
        let limits = nameless_limits(alloc, ints, &[], func.bound.limits.as_slice())?;
        self.start_limits(alloc, limits.as_slice())?;
        self.start_params(alloc, ints, func.params.as_slice())?;
        Ok(())
    }

    /// The context in which a function begins: its binders, the rows of its limits, and its
    /// parameters, all held.
    pub fn start(alloc: Global, func: &Func) -> Result<Context, Memory>
        requires { IsHeader (function_of [] func.now) }
        ensures { IfOk result (λ ctx. context_in ctx ≡ spec.start (function_of [] func.now)) }
    {
        let mut ctx = Context::new(alloc);
        match ctx.begin(alloc, func) {
            Ok(()) => Ok(ctx),
            Err(ContextFault::Why(_)) => unreachable!(),
            Err(ContextFault::Memory) => Err(Memory),
        }
    }
}
