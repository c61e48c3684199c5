//! Tasks and their frames.
ghost use Rattle.std.specs.Prelude.{◌≡◌, [], IfSome, IfNone};
ghost use Rattle.machine_tasks.specs.Fits.{EndsIn};

use chan_base::Name;
use machine_values::Binds;
use sqlite_items::Items;

pub type Frames = Vec<Frame>;

pub type Tasks = Items<Task>;

/// A place in a body, and the values of its variables in the order in which they were bound. A
/// caller stands at its Call node.
#[derive(Drop)]
pub struct Frame {
    pub node: u32,
    pub binds: Binds,
}

/// A task. Its frames stand from the bottom one, which has no caller, to the top one, and an ended
/// task has none.
#[derive(Drop)]
pub struct Task {
    pub(crate) name: Name,
    pub(crate) frames: Frames,
    pub(crate) forks: u32,
}

impl Task {
    pub fn name(&self) -> &Name
        ensures { result.now ≡ self.now.name }
    {
        &self.name
    }

    /// The frames from the bottom one, which has no caller, to the top one.
    pub fn frames(&self) -> &Frames
        ensures { result.now ≡ self.now.frames }
    {
        &self.frames
    }

    /// The frame that the next step reads.
    pub(crate) fn top(&self) -> Option<&Frame>
        ensures top { IfSome result (λ f. EndsIn self.now.frames.items f.now) }
        ensures none { IfNone result (self.now.frames.items ≡ []) }
    {
        self.frames.as_slice().last()
    }
}
