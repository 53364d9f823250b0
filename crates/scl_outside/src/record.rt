//! A list of bounded room, whose memory is taken when it is made.
ghost use Rattle.std.specs.Prelude.{◌≡◌, ◌≤◌, ◌∷◌, ◌↔◌, [], IfOk, IsTrue, IsSome, IfSome, Some, unwrap_or, vec_len, vec_capacity};

use std::alloc::{AllocError, Global};

/// Keeps items while they fit. An item that doesn't fit isn't kept: the record stays as it is, and tells no
/// more.
#[derive(Drop)]
pub struct Record<T> {
    items: Vec<T>,
    room: usize,
    told: bool,
    ghost within: { vec_len items ≤ room },
    ghost reserved: { room ≤ vec_capacity items },
}

impl<T: Copy + Drop> Record<T> {
    ghost use Rattle.scl_outside.specs.Record.{told_of, kept_of, room_of, with_room};

    /// An empty record with room for `room` items. `AllocError` where memory ran out.
    pub fn new(alloc: Global, room: usize) -> Result<Record<T>, AllocError>
        ensures told { IfOk result (λ r. told_of r ≡ Some []) }
        ensures room { IfOk result (λ r. room_of r ≡ room) }
    {
        Ok(Record {
            items: Vec::with_capacity(alloc, room)?,
            room,
            told: true,
        })
    }

    /// Drops all items, and tells again.
    pub fn clear(&mut self)
        ensures told { told_of self.new ≡ Some [] }
        ensures room { room_of self.new ≡ room_of self.old }
    {
        self.items.clear();
        self.told = true;
    }

    /// Keeps one more item, where there is room.
    pub fn push(&mut self, item: T)
        ensures told { told_of self.new ≡ with_room (room_of self.old) (told_of self.old) (item ∷ []) }
        ensures kept { kept_of self.new ≡ unwrap_or (told_of self.new) (kept_of self.old) }
        ensures room { room_of self.new ≡ room_of self.old }
    {
        if self.told && self.items.len() < self.room {
            let _ = self.items.push(item);
        } else {
            self.told = false;
        }
    }

    /// Keeps more items, where there is room for all of them.
    pub fn extend(&mut self, more: &[T])
        ensures told { told_of self.new ≡ with_room (room_of self.old) (told_of self.old) more.now }
        ensures kept { kept_of self.new ≡ unwrap_or (told_of self.new) (kept_of self.old) }
        ensures room { room_of self.new ≡ room_of self.old }
    {
        if self.told && more.len() <= self.room - self.items.len() {
            let _ = self.items.extend_from_slice(more);
        } else {
            self.told = false;
        }
    }

    /// Whether all items that came were kept.
    pub fn told(&self) -> bool
        ensures { IsTrue result ↔ IsSome (told_of self.now) }
    {
        self.told
    }

    /// The items that were kept.
    pub fn items(&self) -> &[T]
        ensures kept { result.now ≡ kept_of self.now }
        ensures told { IfSome (told_of self.now) (λ items. result.now ≡ items) }
    {
        &self.items
    }
}
