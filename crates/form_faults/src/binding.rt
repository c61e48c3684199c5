//! Binding the names of lists and patterns.
ghost use Rattle.std.specs.Prelude.{◌≡◌, slice_get, unwrap_or, OnOk};
ghost use Rattle.form_faults.specs.Faults.{nowhere, least};
ghost use Rattle.form_faults.specs.Scopes.{binders, bind_all, twice_all};

use crate::faults::Ill;
use crate::scopes::{Scope, bind_name};
use crate::sorts::Sort;
use chan_base::{Memory, Span};
use chan_syntax::Ident;
use std::alloc::Global;

/// The span of what no text has.
const NOWHERE: Span = Span {
    start: 0,
    stop: 0,
    line: 0,
    column: 0,
};

pub(crate) fn span_at(spans: &[Span], index: usize) -> Span
    ensures { result ≡ unwrap_or (slice_get spans.now index) nowhere }
{
    match spans.get(index) {
        None => NOWHERE,
        Some(span) => *span,
    }
}

/// Binds names whose tokens stand at these spans, in order.
pub fn bind_names(
    alloc: Global,
    first: &mut Option<Ill>,
    scope: &mut Scope,
    sort: Sort,
    names: &[Ident],
    spans: &[Span],
) -> Result<(), Memory>
    ensures first { OnOk result (first.new ≡ least first.old (twice_all scope.old (binders sort names.now spans.now))) }
    ensures scope { OnOk result (scope.new ≡ bind_all scope.old (binders sort names.now spans.now)) }
{
    let mut index = 0;
    'names: while index < names.len() {
        bind_name(
            alloc,
            first,
            scope,
            &names[index],
            sort,
            span_at(spans, index),
        )?;
        index += 1;
    }
    Ok(())
}
