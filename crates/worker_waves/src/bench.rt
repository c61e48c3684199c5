//! What a worker runs on.
ghost use Rattle.std.specs.Prelude.{ℕ, List, ◌++◌, ◌<◌, MatchOption};
ghost use Rattle.worker_waves.specs.Moves.{Moves};

/// What a step made of a task.
#[derive(Drop)]
pub enum Moved<L> {
    /// The task goes on.
    Goes(L),
    /// It goes on, and this number is there to be taken.
    Offers(L, u64),
    /// It went home.
    Home,
    /// It ended, and its load stays with the hand.
    Keeps(L),
    /// It went home, since a fork found no cell. This is its number.
    NoCell(u64),
    /// The hand is stopped, with this load.
    Stopped(L),
}

/// Tasks that hands take by their numbers.
pub trait Bench {
    type Hand: Send + Drop;

    type Load: Send + Drop;

    // The hand is of this bench, and has nothing in hand but these loads, which it keeps.
    ghost idle: { Self → Self.Hand → List Self.Load → Type 0 };
    // It has this load besides.
    ghost holds: { Self → Self.Hand → List Self.Load → Self.Load → Type 0 };
    // How many steps the task may still make.
    ghost left: { Self.Load → ℕ };

    /// Takes the task of a number, where it is there.
    fn take(&self, hand: &mut Self::Hand, number: u64) -> Option<Self::Load>
        requires { (kept : List Self.Load) × idle self.now hand.old kept }
        ensures { (kept : List Self.Load) → idle self.now hand.old kept → MatchOption result (idle self.now hand.new kept) (λ load. holds self.now hand.new kept load) };

    /// Makes one step of the task in hand.
    fn step(&self, hand: &mut Self::Hand, load: Self::Load) -> Moved<Self::Load>
        requires { (kept : List Self.Load) × holds self.now hand.old kept load }
        ensures { (kept : List Self.Load) → holds self.now hand.old kept load → Moves (idle self.now hand.new) (holds self.now hand.new) left kept load result };

    /// How many forks the hand can make without a new cell.
    fn spare(&self, hand: &Self::Hand) -> usize;
}
