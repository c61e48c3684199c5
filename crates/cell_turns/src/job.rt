//! A load and a parcel of their own.
ghost use Rattle.std.specs.Prelude.{◌≡◌, None};

use chan_base::Number;

/// The load of a task that received on its own channel, or has not.
#[derive(Drop)]
pub struct Job {
    pub number: Number,
    pub got: Option<Number>,
    pub ended: bool,
}

impl Job {
    /// The first load of a number.
    pub fn first(number: Number) -> Job
        ensures { (result.number ≡ number) × (result.got ≡ None) }
    {
        Job {
            number,
            got: None,
            ended: false,
        }
    }
}

/// A parcel, with a number of its own beside its channel's.
#[derive(Drop)]
pub struct Note {
    pub channel: Number,
    pub serial: u64,
}
