//! Leaving a body: the lists of a context are cut back.
ghost use Rattle.std.specs.Prelude.{◌≡◌, true, take};
ghost use Rattle.outline_contexts.specs.Kept.{released};
ghost use Rattle.outline_contexts.specs.Trails.{Trail, AreBelow, mark_of, IsAfter};
ghost use Rattle.outline_contexts.specs.Reading.{marked};

use crate::trail::Context;
use farkas_check::Rows;

/// How long the lists of a context were.
#[derive(Clone, Copy)]
pub struct Mark {
    ints: usize,
    hyps: usize,
    entries: usize,
    taken: usize,
}

/// Leaves so many rows.
fn cut_rows(rows: &mut Rows, many: usize)
    ensures { rows.new ≡ take many rows.old }
{
    while rows.len() > many {
        rows.pop();
    }
}

/// The entries at these places are held again.
fn hold_again(held: &mut Vec<bool>, places: &[usize])
    ensures { held.new.items ≡ released places.now held.old.items }
{
    for place in places {
        if *place < held.len() {
            held[*place] = true;
        }
    }
}

impl Context {
    /// Where the lists end now.
    pub fn mark(&self) -> Mark
        ensures mark { marked result ≡ mark_of self.now }
        ensures below { AreBelow self.now }
    {
        Mark {
            ints: self.ints.len(),
            hyps: self.hyps.len(),
            entries: self.shapes.len(),
            taken: self.taken.len(),
        }
    }

    /// Goes back to what it was, in time in proportion to what came since.
    pub fn rewind(&mut self, mark: Mark)
        requires { (older : Trail) × AreBelow older × (marked mark ≡ mark_of older) × IsAfter older self.old }
        ensures { (older : Trail) → marked mark ≡ mark_of older → IsAfter older self.old → self.new ≡ older }
    {
        self.ints.cut(mark.ints);
        cut_rows(&mut self.hyps, mark.hyps);
        self.names.cut(mark.entries);
        self.shapes.truncate(mark.entries);
        self.held.truncate(mark.entries);
        hold_again(&mut self.held, &self.taken[mark.taken..]);
        self.taken.truncate(mark.taken);
    }
}
