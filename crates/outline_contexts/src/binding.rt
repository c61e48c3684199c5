//! Patterns that are bound to resources.
ghost use Rattle.std.specs.Prelude.{◌≡◌, ◌≤◌, ◌-◌, map, Ok, IfOk, OnOk, IfErr};
ghost use Rattle.chan_syntax.specs.Reading.{pat_of};
ghost use Rattle.nameless_forms.specs.Limits.{limit_of};
ghost use Rattle.outline_language.specs.Nameless.{Binds};
ghost use Rattle.outline_language.specs.Contexts as spec;
ghost use Rattle.outline_obligations.specs.Reasons.{IsReason};
ghost use Rattle.outline_contexts.specs.Trails.{IsAfter, context_in};

use crate::trail::Context;
use chan_base::Memory;
use chan_syntax::Pat;
use nameless_forms::{Form, Forms, Limit, Var};
use nameless_shapes::{Resource, Shape};
use outline_obligations::{ContextFault, Why};
use shape_instances::put_in_shape;
use sqlite_items::Items;
use std::alloc::Global;

/// The integer variables between two places.
fn variables_between(alloc: Global, first: u32, end: u32) -> Result<Forms, Memory>
    requires { first ≤ end }
    ensures { IfOk result (λ forms. forms ≡ spec.variables_from first (end - first)) }
{
    let mut forms = Items::new(alloc);
    for place in first..end {
        let form = Form::variable(alloc, Var::free(place))?;
        forms.push(form)?;
    }
    Ok(forms)
}

impl Context {
    fn bind_shape(
        &mut self,
        alloc: Global,
        pat: &Pat,
        binders: usize,
        limits: &[Limit],
        shape: &Shape,
    ) -> Result<(), ContextFault>
        ensures ok { OnOk result (spec.bind (context_in self.old) (pat_of pat.now) (Binds binders (map limit_of limits.now) shape.now) ≡ Ok (context_in self.new)) }
        ensures err { IfErr result (IsReason (spec.bind (context_in self.old) (pat_of pat.now) (Binds binders (map limit_of limits.now) shape.now))) }
        ensures after { IsAfter self.old self.new }
    {
        if pat.names.len() != binders {
            return Err(ContextFault::Why(Why::InstanceCount));
        }
        let first = self.variables();
        self.add_ints(pat.names.as_slice())?;
        let variables = variables_between(alloc, first, self.variables())?;
        self.assume_limits(alloc, variables.as_slice(), limits)?;
        let shape = put_in_shape(alloc, variables.as_slice(), shape)?;
        self.hold(&pat.name, shape)?;
        Ok(())
    }

    /// Binds a pattern to a resource: its names become integer variables for the binders, the limits
    /// hypotheses, and its name the value. InstanceCount where names and binders differ in number.
    pub fn bind(&mut self, alloc: Global, pat: &Pat, res: &Resource) -> Result<(), ContextFault>
        ensures ok { OnOk result (spec.bind (context_in self.old) (pat_of pat.now) res.now ≡ Ok (context_in self.new)) }
        ensures err { IfErr result (IsReason (spec.bind (context_in self.old) (pat_of pat.now) res.now)) }
        ensures after { IsAfter self.old self.new }
    {
        let under = res.get();
        self.bind_shape(alloc, pat, under.binders, under.limits, under.shape)
    }
}
