//! Known tasks and parcels as the loads and parcels of the cells.
ghost use Rattle.known_loads.specs.Meaning.{parcel_means, task_means};

use crate::origins::Origin;
use crate::parcels::KnownParcel;
use crate::tasks::KnownTask;
use chan_base::Number;
use one_shot_word::{Load, Parcel};

impl<'a> Load<Origin<'a>> for KnownTask<'a> {
    ghost meaning = { task_means };

    fn number(&self) -> Number {
        self.state.cell
    }
}

impl<'a> Parcel<Origin<'a>> for KnownParcel<'a> {
    ghost meaning = { parcel_means };

    fn channel(&self) -> Number {
        self.letter.channel.cell
    }
}
