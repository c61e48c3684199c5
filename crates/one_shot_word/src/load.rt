//! What the slots hold, by what it means.
ghost use Rattle.std.specs.Prelude.{◌≡◌, ℕ};
ghost use Rattle.one_shot_word.specs.Meaning.{LoadMeans, ParcelMeans};

use chan_base::Number;

/// What a task's cell holds, in a program of type A.
pub trait Load<A> {
    ghost meaning: { LoadMeans Self A };

    fn number(&self) -> Number
        ensures { result.0 ≡ meaning.number self.now };
}

/// What a channel's cell holds.
pub trait Parcel<A> {
    ghost meaning: { ParcelMeans Self A };

    fn channel(&self) -> Number
        ensures { result.0 ≡ meaning.channel self.now };
}
