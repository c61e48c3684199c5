//! The table that hands share.
//!
//! A cell serves one task and the one channel of that task. It has four words and two slots:
//!
//! | Word | Says | Written by |
//! |---|---|---|
//! | task | READY, WAITING, ENDED, HALTED: the load is at home; RUNNING: a hand has it | `begin`, `take`, `home`, `recv`, a waking `send`, `reopen` |
//! | claim | FREE, or BY the load that sends | the first `send`, `reopen` |
//! | channel | EMPTY, FULL, DONE, or PARKED with the receiver's number | `send` to FULL, `recv` to PARKED or DONE, `reopen` |
//! | retire | how often a finisher came; the cell is free at each even count but 0, until it is given again | `retire_received`, `retire_ended` |
//!
//! The load slot is at home where the task word says so, the parcel slot holds a parcel where the channel is FULL. One more word
//! counts how many numbers were drawn. Each word carries a whole number, generation times the count of cells plus the cell, so that
//! a stale number finds a word that isn't its own. A hand changes a word by one step, and only the hand whose view allows the step
//! makes it: the load's for READY, ENDED, HALTED and WAITING, the claimer's for FULL, the finishers' for the retire word, the hand
//! that has the free cell for the clearing. The rule itself is `specs/Rule.antt` of `cell_rules`, the table of the fourteen kinds of
//! step `specs/Table.antt` there.
ghost use Rattle.std.specs.Prelude.{◌≡◌, ℕ, ◌+◌, ◌*◌, ◌<◌, ◌≤◌};

use crate::load::{Load, Parcel};
use crate::rule::Table;
use std::alloc::Global;

/// A table of cells, which hands share.
#[derive(Drop)]
pub struct Cells<L: Load<A>, P: Parcel<A>, A> {
    pub table: Table<L, P, A>,
    pub cells: u64,
    pub alloc: Global,
    ghost sized: { (table.shared.table_id.words ≡ 1 + 4 * cells) × (table.shared.table_id.slots ≡ cells + cells) × (table.shared.key.cells ≡ cells) },
    ghost bounded: { (0 < cells) × (cells ≤ 1048576) },
    ghost staffed: { 0 < table.shared.key.hands },
}
