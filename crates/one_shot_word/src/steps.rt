//! One step each. A step changes the view of the seat that makes it.
ghost use Rattle.std.specs.Prelude.{◌≡◌, ◌≢◌, ◌⊎◌, ℕ, ◌+◌, ◌*◌, ◌%◌, ◌^◌, ◌<◌, ◌≤◌, true, [], ◌∷◌, Some, None};
ghost use Rattle.atomic_table.specs.Table.{rest};
ghost use Rattle.cell_rules.specs.Lists.{count, In};
ghost use Rattle.cell_rules.specs.Words.{cell, READY, ENDED, HALTED, FREE, EMPTY, FULL, PARKED};
ghost use Rattle.cell_rules.specs.Marks.{Drawn, InHand, Lifted, Reopening, Picking, Parking, Waking, Right, Free, ClaimCleared, ChanCleared};
ghost use Rattle.cell_rules.specs.Asks.{Names, Knows, Tells};
ghost use Rattle.one_shot_word.specs.Meaning.{means};
ghost use Rattle.one_shot_word.specs.Steps.{MissStep, DrawStep, SpendStep, OpenStep, LiftStep, RaiseStep, SettleStep, StowStep};
ghost use Rattle.one_shot_word.specs.Steps.{BeginStep, LeaveStep, HaltStep, WakeStep, TakeStep, ReclaimStep, BackStep, ReopenStep};
ghost use Rattle.one_shot_word.specs.Steps.{ClaimStep, SendStep, SendToStep, ParkStep, SeeStep, CollectStep, ClearClaimStep, ClearChanStep};
ghost use Rattle.one_shot_word.specs.Steps.{RetireStep, FreeStep, EndStep, FreeEndStep, HasEmpty, HasLoad, HasParcel};
ghost use Rattle.one_shot_word.specs.Calls.{StoresWaiting};
ghost use Rattle.one_shot_word.specs.Seats.{size, task_of, claim_of, chan_of, retire_of, load_of, parcel_of};
ghost use Rattle.one_shot_word.specs.Seats.{HasInHand, MayRest, IsParking, HasCleared, CarriesNew, StoresNew, StoresKnown, StoresParcel};

use crate::cells::Cells;
use crate::load::{Load, Parcel};
use crate::plays::{
    Begin, Claim, ClearChan, ClearClaim, Collect, Draw, End, Finisher, Halt, Leave, Lift, Open,
    Park, Raise, Receiver, Reclaim, Reopen, Retire, Send, Settle, Stow, Take, Wake,
};
use cell_rules::{Item, View, claimed, done, empty, free, full, parked, ready, running, waiting};

/// What it knows is told of a program of type A with its limit of rounds.
pub type Seat<L, P, A> = atomic_table::Seat<Option<Item<L, P>>, View<L, (A, u64)>>;

impl<A, L: Load<A>, P: Parcel<A>> Cells<L, P, A> {
    // The cell of a number.
    pub(crate) fn cell_of(&self, number: u64) -> usize
        ensures { (result ≡ cell (size self.now) number) × (result < size self.now) }
    {
        (number % self.cells) as usize
    }

    // The number that a cell has next.
    pub(crate) fn next(&self, number: u64) -> u64
        requires { number + size self.now ≤ 2 ^ 60 }
        ensures { result ≡ number + size self.now }
    {
        number + self.cells
    }

    fn task_word(&self, number: u64) -> usize
        ensures { (result ≡ task_of self.now number) × (result < self.now.table.shared.table_id.words) }
    {
        1 + 4 * self.cell_of(number)
    }

    fn claim_word(&self, number: u64) -> usize
        ensures { (result ≡ claim_of self.now number) × (result < self.now.table.shared.table_id.words) }
    {
        2 + 4 * self.cell_of(number)
    }

    fn chan_word(&self, number: u64) -> usize
        ensures { (result ≡ chan_of self.now number) × (result < self.now.table.shared.table_id.words) }
    {
        3 + 4 * self.cell_of(number)
    }

    fn retire_word(&self, number: u64) -> usize
        ensures { (result ≡ retire_of self.now number) × (result < self.now.table.shared.table_id.words) }
    {
        4 + 4 * self.cell_of(number)
    }

    fn load_slot(&self, number: u64) -> usize
        ensures { result ≡ load_of self.now number }
    {
        2 * self.cell_of(number)
    }

    fn parcel_slot(&self, number: u64) -> usize
        ensures { result ≡ parcel_of self.now number }
    {
        1 + 2 * self.cell_of(number)
    }

    // The number drawn, or how many were drawn where none was left.
    pub(crate) fn draw_step(&self, seat: &mut Seat<L, P, A>) -> u64
        requires seat { seat.old.table_id ≡ self.now.table.shared.table_id }
        requires may { seat.old.me.0.spent < seat.old.me.0.parts }
        ensures table { seat.new.table_id ≡ seat.old.table_id }
        ensures drawn { result < size self.now → DrawStep result seat.old.me seat.new.me }
        ensures none { size self.now ≤ result → SpendStep result seat.old.me seat.new.me }
    {
        self.table.shared.fetch_add::<Draw>(seat, 0, 1)
    }

    // The seat takes the empty slot of a number that it drew.
    pub(crate) fn open(&self, seat: &mut Seat<L, P, A>, number: u64) -> u64
        requires seat { seat.old.table_id ≡ self.now.table.shared.table_id }
        requires live { 0 < seat.old.me.0.parts }
        requires has { 0 < count (Drawn number) seat.old.me.0.marks }
        ensures table { seat.new.table_id ≡ seat.old.table_id }
        ensures me { OpenStep (size self.now) number result seat.old.me seat.new.me }
    {
        self.table.shared.load::<Open>(seat, self.task_word(number))
    }

    // The seat takes the empty slot of a load that it has.
    pub(crate) fn lift(&self, seat: &mut Seat<L, P, A>, number: u64) -> u64
        requires seat { seat.old.table_id ≡ self.now.table.shared.table_id }
        requires live { 0 < seat.old.me.0.parts }
        requires has { 0 < count (InHand number) seat.old.me.0.marks }
        ensures table { seat.new.table_id ≡ seat.old.table_id }
        ensures me { LiftStep (size self.now) number result seat.old.me seat.new.me }
    {
        self.table.shared.load::<Lift>(seat, self.task_word(number))
    }

    // The empty slot goes back, and the seat has the load.
    pub(crate) fn settle(&self, seat: &mut Seat<L, P, A>, number: u64) -> u64
        requires seat { seat.old.table_id ≡ self.now.table.shared.table_id }
        requires live { 0 < seat.old.me.0.parts }
        requires has { 0 < count (Lifted number) seat.old.me.0.marks }
        requires slot { HasEmpty (load_of self.now number) seat.old.me }
        ensures table { seat.new.table_id ≡ seat.old.table_id }
        ensures me { SettleStep (size self.now) number result seat.old.me seat.new.me }
    {
        self.table
            .shared
            .load::<Settle>(seat, self.task_word(number))
    }

    // The seat takes the empty slot of a cell that it has as free.
    pub(crate) fn raise(&self, seat: &mut Seat<L, P, A>, number: u64) -> u64
        requires seat { seat.old.table_id ≡ self.now.table.shared.table_id }
        requires live { 0 < seat.old.me.0.parts }
        requires has { 0 < count (Free number) seat.old.me.0.marks }
        requires fresh { count (Reopening number) seat.old.me.0.marks ≡ 0 }
        ensures table { seat.new.table_id ≡ seat.old.table_id }
        ensures me { RaiseStep (size self.now) number result seat.old.me seat.new.me }
    {
        self.table
            .shared
            .load::<Raise>(seat, self.task_word(number))
    }

    // The empty slot of a parcel goes back.
    pub(crate) fn stow(&self, seat: &mut Seat<L, P, A>, number: u64) -> u64
        requires seat { seat.old.table_id ≡ self.now.table.shared.table_id }
        requires live { 0 < seat.old.me.0.parts }
        requires has { 0 < count (Picking number) seat.old.me.0.marks }
        requires slot { HasEmpty (parcel_of self.now number) seat.old.me }
        ensures table { seat.new.table_id ≡ seat.old.table_id }
        ensures me { StowStep (size self.now) number result seat.old.me seat.new.me }
    {
        self.table.shared.load::<Stow>(seat, self.chan_word(number))
    }

    // UNMADE to READY: the slot of a drawn number goes home with its first load.
    pub(crate) fn begin_step(&self, seat: &mut Seat<L, P, A>, number: u64) -> u64
        requires seat { seat.old.table_id ≡ self.now.table.shared.table_id }
        requires live { 0 < seat.old.me.0.parts }
        requires small { number ≤ 2 ^ 60 }
        requires opened { StoresNew (means L.meaning P.meaning) (size self.now) number seat.old.me }
        ensures table { seat.new.table_id ≡ seat.old.table_id }
        ensures me { BeginStep (means L.meaning P.meaning) (size self.now) number result seat.old.me seat.new.me }
    {
        self.table
            .shared
            .swap::<Begin<A>>(seat, self.task_word(number), ready(number))
    }

    // RUNNING to another word: the slot goes home with a load that the seat had.
    pub(crate) fn leave(&self, seat: &mut Seat<L, P, A>, number: u64, word: u64) -> u64
        requires seat { seat.old.table_id ≡ self.now.table.shared.table_id }
        requires live { 0 < seat.old.me.0.parts }
        requires lifted { StoresKnown (means L.meaning P.meaning) (size self.now) number seat.old.me }
        requires word { (word ≡ READY number) ⊎ (word ≡ ENDED number) ⊎ (word ≡ HALTED number) }
        ensures table { seat.new.table_id ≡ seat.old.table_id }
        ensures me { LeaveStep (size self.now) number word result seat.old.me seat.new.me }
    {
        self.table
            .shared
            .swap::<Leave>(seat, self.task_word(number), word)
    }

    // RUNNING to WAITING: the same, and the seat has the task as being parked.
    pub(crate) fn halt(&self, seat: &mut Seat<L, P, A>, number: u64) -> u64
        requires seat { seat.old.table_id ≡ self.now.table.shared.table_id }
        requires live { 0 < seat.old.me.0.parts }
        requires small { number ≤ 2 ^ 60 }
        requires lifted { StoresKnown (means L.meaning P.meaning) (size self.now) number seat.old.me }
        ensures table { seat.new.table_id ≡ seat.old.table_id }
        ensures me { HaltStep (size self.now) number result seat.old.me seat.new.me }
    {
        self.table
            .shared
            .swap::<Halt>(seat, self.task_word(number), waiting(number))
    }

    // WAITING to READY, of a task that the seat is to wake.
    pub(crate) fn wake(&self, seat: &mut Seat<L, P, A>, number: u64) -> u64
        requires seat { seat.old.table_id ≡ self.now.table.shared.table_id }
        requires live { 0 < seat.old.me.0.parts }
        requires small { number ≤ 2 ^ 60 }
        requires has { 0 < count (Waking number) seat.old.me.0.marks }
        ensures table { seat.new.table_id ≡ seat.old.table_id }
        ensures me { WakeStep (size self.now) number result seat.old.me seat.new.me }
    {
        self.table
            .shared
            .swap::<Wake>(seat, self.task_word(number), ready(number))
    }

    // WAITING to RUNNING, of a task that is being parked: the seat has then the slot with its load.
    pub(crate) fn reclaim(&self, seat: &mut Seat<L, P, A>, number: u64) -> u64
        requires seat { seat.old.table_id ≡ self.now.table.shared.table_id }
        requires live { 0 < seat.old.me.0.parts }
        requires small { number ≤ 2 ^ 60 }
        requires parking { IsParking seat.old.me.0 number }
        ensures table { seat.new.table_id ≡ seat.old.table_id }
        ensures me { ReclaimStep (means L.meaning P.meaning) (size self.now) number result seat.old.me seat.new.me }
    {
        self.table
            .shared
            .swap::<Reclaim<A>>(seat, self.task_word(number), running(number))
    }

    // READY to RUNNING, and the word found. The seat has then the slot with its load.
    pub(crate) fn take_step(&self, seat: &mut Seat<L, P, A>, number: u64) -> u64
        requires seat { seat.old.table_id ≡ self.now.table.shared.table_id }
        requires live { 0 < seat.old.me.0.parts }
        requires small { number ≤ 2 ^ 60 }
        ensures table { seat.new.table_id ≡ seat.old.table_id }
        ensures taken { result ≡ READY number → TakeStep (means L.meaning P.meaning) (size self.now) number result seat.old.me seat.new.me }
        ensures missed { result ≢ READY number → MissStep (task_of self.now number) result seat.old.me seat.new.me }
    {
        self.table.shared.compare_exchange::<Take<A>>(
            seat,
            self.task_word(number),
            ready(number),
            running(number),
        )
    }

    // FREE to BY, and the word found. The seat has then the empty slot of the parcel.
    pub(crate) fn claim_step(&self, seat: &mut Seat<L, P, A>, number: u64, by: u64) -> u64
        requires seat { seat.old.table_id ≡ self.now.table.shared.table_id }
        requires live { 0 < seat.old.me.0.parts }
        requires small { number ≤ 2 ^ 60 }
        requires by { by ≤ 2 ^ 60 }
        requires knows { Names seat.old.me.0 number }
        ensures table { seat.new.table_id ≡ seat.old.table_id }
        ensures claimed { result ≡ FREE number → ClaimStep (size self.now) number by result seat.old.me seat.new.me }
        ensures missed { result ≢ FREE number → MissStep (claim_of self.now number) result seat.old.me seat.new.me }
    {
        self.table
            .shared
            .compare_exchange::<Claim>(seat, self.claim_word(number), free(number), claimed(by))
    }

    // The channel word to FULL, and the word found. The slot goes home with the parcel.
    pub(crate) fn send_step(&self, seat: &mut Seat<L, P, A>, number: u64) -> u64
        requires seat { seat.old.table_id ≡ self.now.table.shared.table_id }
        requires live { 0 < seat.old.me.0.parts }
        requires small { number ≤ 2 ^ 60 }
        requires claimed { StoresParcel (means L.meaning P.meaning) (size self.now) number seat.old.me }
        ensures table { seat.new.table_id ≡ seat.old.table_id }
        ensures found { (result ≡ EMPTY number) ⊎ ((j : ℕ) × (result ≡ PARKED j)) }
        ensures empty { result ≡ EMPTY number → SendStep (size self.now) number result seat.old.me seat.new.me }
        ensures parked { (j : ℕ) → result ≡ PARKED j → SendToStep (size self.now) number j result seat.old.me seat.new.me × (j ≤ 2 ^ 60) }
    {
        self.table
            .shared
            .swap::<Send>(seat, self.chan_word(number), full(number))
    }

    // EMPTY to PARKED, and the word found.
    pub(crate) fn park_step(&self, seat: &mut Seat<L, P, A>, number: u64, own: u64) -> u64
        requires seat { seat.old.table_id ≡ self.now.table.shared.table_id }
        requires live { 0 < seat.old.me.0.parts }
        requires small { number ≤ 2 ^ 60 }
        requires own { own ≤ 2 ^ 60 }
        requires knows { Names seat.old.me.0 number }
        requires has { 0 < count (Parking own) seat.old.me.0.marks }
        ensures table { seat.new.table_id ≡ seat.old.table_id }
        ensures parked { result ≡ EMPTY number → ParkStep (size self.now) number own result seat.old.me seat.new.me }
        ensures full { result ≡ FULL number → SeeStep (size self.now) number result seat.old.me seat.new.me }
        ensures missed { result ≢ EMPTY number → result ≢ FULL number → MissStep (chan_of self.now number) result seat.old.me seat.new.me }
    {
        self.table
            .shared
            .compare_exchange::<Park>(seat, self.chan_word(number), empty(number), parked(own))
    }

    // FULL to DONE, and the word found. The seat has then the slot with its parcel.
    pub(crate) fn collect_step<R: Receiver>(
        &self,
        seat: &mut Seat<L, P, A>,
        number: u64,
        by: u64,
    ) -> u64
        requires seat { seat.old.table_id ≡ self.now.table.shared.table_id }
        requires live { 0 < seat.old.me.0.parts }
        requires small { number ≤ 2 ^ 60 }
        requires knows { Names seat.old.me.0 number }
        requires by { (by ≡ R.by) × (0 < count (InHand by) seat.old.me.0.marks) }
        ensures table { seat.new.table_id ≡ seat.old.table_id }
        ensures collected { result ≡ FULL number → CollectStep (means L.meaning P.meaning) (size self.now) number by result seat.old.me seat.new.me }
        ensures missed { result ≢ FULL number → MissStep (chan_of self.now number) result seat.old.me seat.new.me }
        ensures sent { In number seat.old.me.0.sends → result ≢ EMPTY number }
    {
        self.table
            .shared
            .compare_exchange::<Collect<R, A>>(
                seat,
                self.chan_word(number),
                full(number),
                done(number),
            )
    }

    // One more finisher of the cell: its receiver.
    pub(crate) fn retire_step(&self, seat: &mut Seat<L, P, A>, number: u64) -> u64
        requires seat { seat.old.table_id ≡ self.now.table.shared.table_id }
        requires live { 0 < seat.old.me.0.parts }
        requires has { 0 < count (Right number) seat.old.me.0.marks }
        ensures table { seat.new.table_id ≡ seat.old.table_id }
        ensures first { result % 2 ≡ 0 → RetireStep (size self.now) number result seat.old.me seat.new.me }
        ensures second { result % 2 ≡ 1 → FreeStep (size self.now) number result seat.old.me seat.new.me }
    {
        self.table
            .shared
            .fetch_add::<Retire>(seat, self.retire_word(number), 1)
    }

    // One more finisher of the cell: the end of its task.
    pub(crate) fn end_step<R: Finisher<L>>(
        &self,
        seat: &mut Seat<L, P, A>,
        number: u64,
        load: &L,
    ) -> u64
        requires seat { seat.old.table_id ≡ self.now.table.shared.table_id }
        requires live { 0 < seat.old.me.0.parts }
        requires has { 0 < count (InHand number) seat.old.me.0.marks }
        requires load { (R.loads ≡ load.now ∷ []) × (L.meaning.number load.now ≡ number) × (L.meaning.ended load.now ≡ true) }
        requires knows { Knows (means L.meaning P.meaning) seat.old.me.0 load.now × Tells (means L.meaning P.meaning) seat.old.me.0 load.now number }
        ensures table { seat.new.table_id ≡ seat.old.table_id }
        ensures first { result % 2 ≡ 0 → EndStep (size self.now) number load.now result seat.old.me seat.new.me }
        ensures second { result % 2 ≡ 1 → FreeEndStep (size self.now) number load.now result seat.old.me seat.new.me }
    {
        self.table
            .shared
            .fetch_add::<End<R>>(seat, self.retire_word(number), 1)
    }

    // The claim word of a free cell to FREE of the next number.
    pub(crate) fn clear_claim(&self, seat: &mut Seat<L, P, A>, number: u64) -> u64
        requires seat { seat.old.table_id ≡ self.now.table.shared.table_id }
        requires live { 0 < seat.old.me.0.parts }
        requires small { number + size self.now ≤ 2 ^ 60 }
        requires has { (0 < count (Free number) seat.old.me.0.marks) × (count (ClaimCleared number) seat.old.me.0.marks ≡ 0) }
        ensures table { seat.new.table_id ≡ seat.old.table_id }
        ensures me { ClearClaimStep (size self.now) number result seat.old.me seat.new.me }
    {
        let next = self.next(number);
        self.table
            .shared
            .swap::<ClearClaim>(seat, self.claim_word(number), free(next))
    }

    // The channel word of a free cell to EMPTY of the next number.
    pub(crate) fn clear_chan(&self, seat: &mut Seat<L, P, A>, number: u64) -> u64
        requires seat { seat.old.table_id ≡ self.now.table.shared.table_id }
        requires live { 0 < seat.old.me.0.parts }
        requires small { number + size self.now ≤ 2 ^ 60 }
        requires has { (0 < count (Free number) seat.old.me.0.marks) × (count (ChanCleared number) seat.old.me.0.marks ≡ 0) }
        ensures table { seat.new.table_id ≡ seat.old.table_id }
        ensures me { ClearChanStep (size self.now) number result seat.old.me seat.new.me }
    {
        let next = self.next(number);
        self.table
            .shared
            .swap::<ClearChan>(seat, self.chan_word(number), empty(next))
    }

    // RUNNING to READY of the next number: the slot of a free cell goes home with the first load of that number.
    pub(crate) fn reopen_step(&self, seat: &mut Seat<L, P, A>, number: u64) -> u64
        requires seat { seat.old.table_id ≡ self.now.table.shared.table_id }
        requires live { 0 < seat.old.me.0.parts }
        requires small { number + size self.now ≤ 2 ^ 60 }
        requires free { HasCleared seat.old.me.0 number }
        requires raised { CarriesNew (means L.meaning P.meaning) seat.old.me (load_of self.now number) (number + size self.now) }
        ensures table { seat.new.table_id ≡ seat.old.table_id }
        ensures me { ReopenStep (means L.meaning P.meaning) (size self.now) number result seat.old.me seat.new.me }
    {
        let next = self.next(number);
        self.table
            .shared
            .swap::<Reopen<A>>(seat, self.task_word(number), ready(next))
    }

    // A load that the seat has goes home as WAITING, to be parked.
    pub(crate) fn rest(&self, seat: &mut Seat<L, P, A>, own: u64, load: L)
        requires seat { seat.old.table_id ≡ self.now.table.shared.table_id }
        requires live { 0 < seat.old.me.0.parts }
        requires own { own ≡ L.meaning.number load }
        requires has { HasInHand seat.old.me.0 own }
        requires load { MayRest (means L.meaning P.meaning) seat.old.me.0 load }
        ensures table { seat.new.table_id ≡ seat.old.table_id }
        ensures live { 0 < seat.new.me.0.parts }
        ensures waits { (0 < count (Parking own) seat.new.me.0.marks) × In (own, load) seat.new.me.0.resting }
        ensures names { (m : ℕ) → Names seat.old.me.0 m → Names seat.new.me.0 m }
        ensures me { StoresWaiting (size self.now) own load seat.old.me seat.new.me }
    {
        self.lift(seat, own);
        self.put_load(seat, own, load);
        self.halt(seat, own);
    }

    // A load that is being parked comes back from its slot.
    pub(crate) fn bring_back(&self, seat: &mut Seat<L, P, A>, own: u64) -> L
        requires seat { seat.old.table_id ≡ self.now.table.shared.table_id }
        requires live { 0 < seat.old.me.0.parts }
        requires small { own ≤ 2 ^ 60 }
        requires parking { IsParking seat.old.me.0 own }
        ensures table { seat.new.table_id ≡ seat.old.table_id }
        ensures back { BackStep (means L.meaning P.meaning) (size self.now) own result seat.old.me seat.new.me }
    {
        self.reclaim(seat, own);
        let load = self.pick_load(seat, own);
        self.settle(seat, own);
        load
    }

    // A load into the empty slot that the seat took last.
    pub(crate) fn put_load(&self, seat: &mut Seat<L, P, A>, number: u64, load: L)
        requires seat { seat.old.table_id ≡ self.now.table.shared.table_id }
        requires empty { HasEmpty (load_of self.now number) seat.old.me }
        ensures table { seat.new.table_id ≡ seat.old.table_id }
        ensures me { seat.new.me ≡ (seat.old.me.0, (load_of self.now number, Some (Item.Load load)) ∷ rest seat.old.me.1) }
    {
        let was = self
            .table
            .shared
            .exchange(seat, self.load_slot(number), Some(Item::Load(load)));
        let None = was else { unreachable!() };
    }

    // The load out of the slot that the seat took last.
    pub(crate) fn pick_load(&self, seat: &mut Seat<L, P, A>, number: u64) -> L
        requires seat { seat.old.table_id ≡ self.now.table.shared.table_id }
        requires full { (load : L) × HasLoad (load_of self.now number) load seat.old.me }
        ensures table { seat.new.table_id ≡ seat.old.table_id }
        ensures load { HasLoad (load_of self.now number) result seat.old.me }
        ensures me { seat.new.me ≡ (seat.old.me.0, (load_of self.now number, None) ∷ rest seat.old.me.1) }
    {
        let was = self
            .table
            .shared
            .exchange(seat, self.load_slot(number), None);
        let Some(Item::Load(load)) = was else {
            unreachable!()
        };
        load
    }

    // A parcel into the empty slot that the seat took last.
    pub(crate) fn put_parcel(&self, seat: &mut Seat<L, P, A>, number: u64, parcel: P)
        requires seat { seat.old.table_id ≡ self.now.table.shared.table_id }
        requires empty { HasEmpty (parcel_of self.now number) seat.old.me }
        ensures table { seat.new.table_id ≡ seat.old.table_id }
        ensures me { seat.new.me ≡ (seat.old.me.0, (parcel_of self.now number, Some (Item.Parcel parcel)) ∷ rest seat.old.me.1) }
    {
        let was = self
            .table
            .shared
            .exchange(seat, self.parcel_slot(number), Some(Item::Parcel(parcel)));
        let None = was else { unreachable!() };
    }

    // The parcel out of the slot that the seat took last.
    pub(crate) fn pick_parcel(&self, seat: &mut Seat<L, P, A>, number: u64) -> P
        requires seat { seat.old.table_id ≡ self.now.table.shared.table_id }
        requires full { (parcel : P) × HasParcel (parcel_of self.now number) parcel seat.old.me }
        ensures table { seat.new.table_id ≡ seat.old.table_id }
        ensures parcel { HasParcel (parcel_of self.now number) result seat.old.me }
        ensures me { seat.new.me ≡ (seat.old.me.0, (parcel_of self.now number, None) ∷ rest seat.old.me.1) }
    {
        let was = self
            .table
            .shared
            .exchange(seat, self.parcel_slot(number), None);
        let Some(Item::Parcel(parcel)) = was else {
            unreachable!()
        };
        parcel
    }
}
