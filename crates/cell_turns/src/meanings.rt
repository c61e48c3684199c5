//! What the load and the parcel mean: they mention their own number, and what was received, without names.
ghost use Rattle.cell_turns.specs.Meanings.{job_means, note_means};

use crate::job::{Job, Note};
use chan_base::Number;
use one_shot_word::{Load, Parcel};

impl Load<u64> for Job {
    ghost meaning = { job_means };

    fn number(&self) -> Number {
        self.number
    }
}

impl Parcel<u64> for Note {
    ghost meaning = { note_means };

    fn channel(&self) -> Number {
        self.channel
    }
}
