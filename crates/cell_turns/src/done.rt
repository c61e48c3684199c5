//! What a hand did in its turns.
use crate::job::Note;
use sqlite_items::Items;
use std::alloc::Global;

/// How often the calls were made that tell of a message, and the parcels that came.
#[derive(Drop)]
pub struct Done {
    pub taken: u64,
    pub stale: u64,
    pub sent: u64,
    pub received: u64,
    /// What was received, but for parcels that no memory was left to keep.
    pub notes: Items<Note>,
    first: u64,
}

impl Done {
    /// Nothing yet. The parcels that the hand sends are numbered from the first on.
    pub fn nothing(alloc: Global, first: u64) -> Done {
        Done {
            taken: 0,
            stale: 0,
            sent: 0,
            received: 0,
            notes: Items::new(alloc),
            first,
        }
    }

    /// The number of the parcel that is sent next.
    pub fn serial(&self) -> u64 {
        self.first.wrapping_add(self.sent)
    }

    pub fn keep(&mut self, note: Note) {
        self.received = self.received.wrapping_add(1);
        let Ok(()) = self.notes.push(note) else {
            return
        };
    }
}
