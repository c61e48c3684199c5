//! Limits that become hypotheses, with instances for their binders.
ghost use Rattle.std.specs.Prelude.{◌≡◌, [], ◌∷◌, map, flat_map, Ok, OnOk, IfErr};
ghost use Rattle.outline_language.specs.LinearForms.{plus_one};
ghost use Rattle.outline_language.specs.Contexts as spec;
ghost use Rattle.nameless_forms.specs.Differences.{difference_at};
ghost use Rattle.nameless_forms.specs.Limits.{limit_of};
ghost use Rattle.outline_obligations.specs.Reasons.{IsReason};
ghost use Rattle.outline_contexts.specs.Trails.{IsAfter, context_in};
ghost use Rattle.outline_contexts.specs.Growing.{limit_forms};

use crate::trail::Context;
use chan_syntax::Relation;
use nameless_forms::{Form, Limit, at_most_row_with, less_row_with};
use outline_obligations::ContextFault;
use std::alloc::Global;

impl Context {
    fn assume_limit_at_most(
        &mut self,
        alloc: Global,
        instances: &[Form],
        left: &Form,
        right: &Form,
    ) -> Result<(), ContextFault>
        ensures ok { OnOk result (spec.add_hyp (context_in self.old) (difference_at instances.now left.now right.now) ≡ Ok (context_in self.new)) }
        ensures err { IfErr result (IsReason (spec.add_hyp (context_in self.old) (difference_at instances.now left.now right.now))) }
        ensures after { IsAfter self.old self.new }
    {
        let row = at_most_row_with(alloc, self.variables(), instances, left, right)?;
        self.assume_row(row)
    }

    fn assume_limit_less(
        &mut self,
        alloc: Global,
        instances: &[Form],
        left: &Form,
        right: &Form,
    ) -> Result<(), ContextFault>
        ensures ok { OnOk result (spec.add_hyp (context_in self.old) (plus_one (difference_at instances.now left.now right.now)) ≡ Ok (context_in self.new)) }
        ensures err { IfErr result (IsReason (spec.add_hyp (context_in self.old) (plus_one (difference_at instances.now left.now right.now)))) }
        ensures after { IsAfter self.old self.new }
    {
        let row = less_row_with(alloc, self.variables(), instances, left, right)?;
        self.assume_row(row)
    }

    fn assume_limit_same(
        &mut self,
        alloc: Global,
        instances: &[Form],
        left: &Form,
        right: &Form,
    ) -> Result<(), ContextFault>
        ensures ok { OnOk result (spec.add_hyps (context_in self.old) (difference_at instances.now left.now right.now ∷ difference_at instances.now right.now left.now ∷ []) ≡ Ok (context_in self.new)) }
        ensures err { IfErr result (IsReason (spec.add_hyps (context_in self.old) (difference_at instances.now left.now right.now ∷ difference_at instances.now right.now left.now ∷ []))) }
        ensures after { IsAfter self.old self.new }
    {
        self.assume_limit_at_most(alloc, instances, left, right)?;
        self.assume_limit_at_most(alloc, instances, right, left)?;
        Ok(())
    }

    fn assume_limit(
        &mut self,
        alloc: Global,
        instances: &[Form],
        limit: &Limit,
    ) -> Result<(), ContextFault>
        ensures ok { OnOk result (spec.add_hyps (context_in self.old) (limit_forms instances.now (limit_of limit.now)) ≡ Ok (context_in self.new)) }
        ensures err { IfErr result (IsReason (spec.add_hyps (context_in self.old) (limit_forms instances.now (limit_of limit.now)))) }
        ensures after { IsAfter self.old self.new }
    {
        match limit.relation {
            Relation::AtMost => {
                self.assume_limit_at_most(alloc, instances, &limit.left, &limit.right)
            }
            Relation::Less => self.assume_limit_less(alloc, instances, &limit.left, &limit.right),
            Relation::Same => self.assume_limit_same(alloc, instances, &limit.left, &limit.right),
        }
    }

    /// Adds the hypotheses that limits say, with the instances put in.
    pub(crate) fn assume_limits(
        &mut self,
        alloc: Global,
        instances: &[Form],
        limits: &[Limit],
    ) -> Result<(), ContextFault>
        ensures ok { OnOk result (spec.add_hyps (context_in self.old) (flat_map (limit_forms instances.now) (map limit_of limits.now)) ≡ Ok (context_in self.new)) }
        ensures err { IfErr result (IsReason (spec.add_hyps (context_in self.old) (flat_map (limit_forms instances.now) (map limit_of limits.now)))) }
        ensures after { IsAfter self.old self.new }
    {
        for limit in limits {
            self.assume_limit(alloc, instances, limit)?;
        }
        Ok(())
    }
}
