//! The beginning and the end of a table, and its hands.
ghost use Rattle.std.specs.Prelude.{◌≡◌, ℕ, ◌+◌, ◌*◌, ◌<◌, ◌≤◌, All, List, [], ◌∷◌, ◌++◌, length, Some, IfOk, IfErr, OnOk, vec_len, vec_capacity};
ghost use Rattle.cell_rules.specs.Words.{words_at_start};
ghost use Rattle.cell_rules.specs.Lists.{total};
ghost use Rattle.cell_rules.specs.Rule.{fresh, dealt, hand_of, both};
ghost use Rattle.cell_rules.specs.Closing.{loads_in, parcels_in, HasNothing, AtRest};
ghost use Rattle.one_shot_word.specs.Meaning.{means};
ghost use Rattle.one_shot_word.specs.Seats.{size, told};
ghost use Rattle.one_shot_word.specs.Hands.{IsOpened, IsFirst, IsDone, together};

use crate::cells::Cells;
use crate::hand::{Hand, Hands};
use crate::load::{Load, Parcel};
use crate::plays::{Both, Deal};
use crate::rule::{Key, Table};
use cell_rules::Item;
use chan_base::Memory;
use sqlite_items::Items;
use std::alloc::{AllocError, Global};

/// A list of loads.
pub type Loads<L> = Items<L>;

/// A list of parcels.
pub type Parcels<P> = Items<P>;

/// A table with all its hands.
#[derive(Drop)]
pub struct Opened<L: Load<A>, P: Parcel<A>, A> {
    pub cells: Cells<L, P, A>,
    pub hands: Hands<L, P, A>,
}

/// Every load and parcel that was at home.
#[derive(Drop)]
pub struct Closed<L, P> {
    pub loads: Loads<L>,
    pub parcels: Parcels<P>,
}

/// There was no memory.
#[derive(Drop)]
pub struct Unclosed<L: Load<A>, P: Parcel<A>, A> {
    pub cells: Cells<L, P, A>,
    pub hands: Hands<L, P, A>,
}

// The four words of a cell.
fn add_cell(words: &mut Vec<u64>, cell: u64) -> Result<(), AllocError>
    requires { cell < 1048576 }
    ensures { OnOk result (words.new.items ≡ words.old.items ++ 0 ∷ 2 * cell ∷ 4 * cell ∷ 0 ∷ []) }
{
    words.push(0)?;
    words.push(2 * cell)?;
    words.push(4 * cell)?;
    words.push(0)?;
    Ok(())
}

fn words_of(alloc: Global, n: u64) -> Result<Vec<u64>, AllocError>
    requires { n ≤ 1048576 }
    ensures { IfOk result (λ v. v.items ≡ words_at_start n) }
{
    let mut words = Vec::with_capacity(alloc, 1 + 4 * n as usize)?;
    words.push(0)?;
    let mut cell = 0u64;
    while cell < n {
        add_cell(&mut words, cell)?;
        cell += 1;
    }
    Ok(words)
}

// What a slot held goes to its list.
fn keep<L, P>(loads: &mut Vec<L>, parcels: &mut Vec<P>, item: Option<Item<L, P>>)
    requires { (vec_len loads.old < vec_capacity loads.old) × (vec_len parcels.old < vec_capacity parcels.old) }
    ensures loads { loads.new.items ≡ loads.old.items ++ loads_in (item ∷ []) }
    ensures parcels { parcels.new.items ≡ parcels.old.items ++ parcels_in (item ∷ []) }
    ensures room { (vec_capacity loads.new ≡ vec_capacity loads.old) × (vec_capacity parcels.new ≡ vec_capacity parcels.old) }
    ensures counts { (vec_len loads.new ≤ vec_len loads.old + 1) × (vec_len parcels.new ≤ vec_len parcels.old + 1) }
{
    match item {
        Some(Item::Load(load)) => loads.push_reserved(load),
        Some(Item::Parcel(parcel)) => parcels.push_reserved(parcel),
        None => (),
    }
}

impl<A: Drop, L: Load<A> + Drop, P: Parcel<A> + Drop> Cells<L, P, A> {
    // A table of n cells. The hand stands for all hands.
    fn table_of(alloc: Global, key: Key<A>) -> Result<(Cells<L, P, A>, Hand<L, P, A>), AllocError>
        requires { (0 < key.cells) × (key.cells ≤ 1048576) × (0 < key.hands) × (key.hands ≤ 64) }
        ensures { IfOk result (λ r. IsOpened key r.0 r.1) }
    {
        let cells = key.cells;
        let words = words_of(alloc, cells)?;
        let (table, seat) = Table::vacant(alloc, words.as_slice(), 2 * cells as usize, &key)?;
        Ok((
            Cells {
                table,
                cells,
                alloc,
            },
            Hand { seat },
        ))
    }

    /// A table of n cells with so many hands, for runs of the program up to a limit of rounds.
    pub fn new(
        alloc: Global,
        program: A,
        rounds: u64,
        n: u64,
        hands: u32,
    ) -> Result<Opened<L, P, A>, Memory>
        requires { (0 < n) × (n ≤ 1048576) × (0 < hands) × (hands ≤ 64) }
        ensures cells { IfOk result (λ o. (size o.cells ≡ n) × (o.cells.table.shared.key.hands ≡ hands) × (told o.cells ≡ (program, rounds))) }
        ensures hands { IfOk result (λ o. (length o.hands ≡ hands) × All (IsFirst o.cells) o.hands) }
    {
        let places = Vec::with_capacity(alloc, hands as usize)?;
        let key = Key {
            cells: n,
            hands,
            program,
            rounds,
        };
        let (cells, hand) = Cells::table_of(alloc, key)?;
        let hands = cells.deal_all(hand, places, hands);
        Ok(Opened { cells, hands })
    }
}

impl<A, L: Load<A>, P: Parcel<A>> Cells<L, P, A> {
    // Cuts one hand off.
    fn deal(&self, hand: &mut Hand<L, P, A>) -> Hand<L, P, A>
        requires { (hand.old.seat.table_id ≡ self.now.table.shared.table_id) × (hand.old.seat.me.0.spent + 1 < hand.old.seat.me.0.parts) }
        ensures rest { (hand.new.seat.table_id ≡ hand.old.seat.table_id) × (hand.new.seat.me ≡ (dealt hand.old.seat.me.0, hand.old.seat.me.1)) }
        ensures new { (result.seat.table_id ≡ hand.old.seat.table_id) × (result.seat.me ≡ (hand_of hand.old.seat.me.0, [])) }
    {
        Hand {
            seat: self.table.shared.split_seat::<Deal>(&mut hand.seat),
        }
    }

    // Takes another hand in.
    fn join(&self, hand: &mut Hand<L, P, A>, other: Hand<L, P, A>)
        requires hand { (hand.old.seat.table_id ≡ self.now.table.shared.table_id) × (0 < hand.old.seat.me.0.parts) }
        requires other { (other.seat.table_id ≡ self.now.table.shared.table_id) × (other.seat.me.1 ≡ []) }
        ensures { (hand.new.seat.table_id ≡ hand.old.seat.table_id) × (hand.new.seat.me ≡ (both hand.old.seat.me.0 other.seat.me.0, hand.old.seat.me.1)) }
    {
        let Hand { seat } = other;
        self.table.shared.join_seat::<Both>(&mut hand.seat, seat);
    }

    // The hands that one hand stands for, into places that are there.
    fn deal_all(
        &self,
        hand: Hand<L, P, A>,
        places: Vec<Hand<L, P, A>>,
        count: u32,
    ) -> Hands<L, P, A>
        requires hand { hand.seat.table_id ≡ self.now.table.shared.table_id }
        requires view { hand.seat.me ≡ (fresh count (told self.now ∷ []), []) }
        requires count { 0 < count }
        requires places { (places.items ≡ []) × (vec_len places ≡ 0) × (vec_capacity places ≡ count) }
        ensures { (length result ≡ count) × All (IsFirst self.now) result }
    {
        let mut hand = hand;
        let mut places = places;
        let mut left = count;
        while 1 < left {
            let other = self.deal(&mut hand);
            places.push_reserved(other);
            left -= 1;
        }
        places.push_reserved(hand);
        Items::from_vec(places)
    }
}

impl<A: Drop, L: Load<A> + Drop, P: Parcel<A> + Drop> Cells<L, P, A> {
    // One hand in place of them all.
    fn join_all(&self, hands: Hands<L, P, A>) -> Hand<L, P, A>
        requires hands { All (IsDone self.now) hands }
        requires some { 0 < length hands }
        ensures table { result.seat.table_id ≡ self.now.table.shared.table_id }
        ensures view { result.seat.me ≡ (together hands, []) }
    {
        let mut hands = hands;
        let mut hand = hands.remove(0);
        while !hands.is_empty() {
            let other = hands.remove(0);
            self.join(&mut hand, other);
        }
        hand
    }

    // Gives all loads and parcels, once one hand stands for all and has nothing in hand.
    fn give_all(self, hand: Hand<L, P, A>, loads: Vec<L>, parcels: Vec<P>) -> Closed<L, P>
        requires hand { (hand.seat.table_id ≡ self.table.shared.table_id) × (hand.seat.me.0.parts ≡ self.table.shared.key.hands) × HasNothing hand.seat.me.0 }
        requires loads { (loads.items ≡ []) × (vec_len loads ≡ 0) × (vec_capacity loads ≡ 2 * self.cells) }
        requires parcels { (parcels.items ≡ []) × (vec_len parcels ≡ 0) × (vec_capacity parcels ≡ 2 * self.cells) }
        ensures { AtRest (means L.meaning P.meaning) (told self) hand.seat.me.0 result.loads result.parcels }
    {
        let slots = 2 * self.cells as usize;
        let mut loads = loads;
        let mut parcels = parcels;
        let Cells {
            table,
            cells: _,
            alloc: _,
        } = self;
        let Hand { seat } = hand;
        let mut closed = table.close_with(seat);
        let mut i = 0;
        while i < slots {
            keep(&mut loads, &mut parcels, closed.take(i));
            i += 1;
        }
        closed.free();
        let loads = Items::from_vec(loads);
        let parcels = Items::from_vec(parcels);
        Closed { loads, parcels }
    }

    /// Gives all loads and parcels, once all hands are there and have nothing in hand. It takes its memory first.
    pub fn close(self, hands: Hands<L, P, A>) -> Result<Closed<L, P>, Unclosed<L, P, A>>
        requires hands { All (IsDone self) hands }
        requires all { total (λ h. h.seat.me.0.parts) hands ≡ self.table.shared.key.hands }
        ensures ok { IfOk result (λ closed. AtRest (means L.meaning P.meaning) (told self) (together hands) closed.loads closed.parcels) }
        ensures err { IfErr result (λ u. (u.cells ≡ self) × (u.hands ≡ hands)) }
    {
        let slots = 2 * self.cells as usize;
        let Ok(loads) = Vec::with_capacity(self.alloc, slots) else {
            return Err(Unclosed { cells: self, hands });
        };
        let Ok(parcels) = Vec::with_capacity(self.alloc, slots) else {
            loads.destroy_empty();
            return Err(Unclosed { cells: self, hands });
        };
        let hand = self.join_all(hands);
        Ok(self.give_all(hand, loads, parcels))
    }
}
