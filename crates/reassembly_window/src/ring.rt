//! The slots of the window, in a ring whose first slot is that of the base.
ghost use Rattle.std.specs.Prelude.{◌≡◌, ◌≤◌, ◌<◌, ◌++◌, ◌∷◌, [], length, take, drop, replicate, slice_set};
ghost use Rattle.std.specs.Prelude.{IfOk, Some, None, true, false};
ghost use Rattle.reassembly_window.specs.Slots.{is_filled, front, rotated, wrapped, lead, reach, gap_over, past_gap};

use crate::cell::Cell;
use std::alloc::{AllocError, Global};
use std::marker::Model;

/// The index `d` after `head` in a ring of `len` cells.
fn index_after(head: usize, d: usize, len: usize) -> usize
    requires head { head < len }
    requires d { d ≤ len }
    requires few { len ≤ 16384 }
    ensures index { result ≡ wrapped head d len }
    ensures within { result < len }
{
    let to_end = len - head;
    if d < to_end { head + d } else { d - to_end }
}

/// Slots for datagrams, numbered from 0 at the base.
#[derive(Drop)]
pub struct Ring {
    cells: Vec<Cell>,
    /// The index of the cell of slot 0.
    head: usize,
}

impl Model for Ring {
    ghost use Rattle.std.specs.Prelude.{◌<◌, ◌≤◌, length};
    ghost use Rattle.reassembly_window.specs.Slots.{Slots};

    ghost Value = { Slots };

    ghost use Rattle.reassembly_window.specs.Cells.{slots_of};

    ghost view = { λ r. slots_of r.head r.cells.items };

    ghost invariant = { λ r. (r.head < length r.cells.items) × (length r.cells.items ≤ 16384) };
}

impl Ring {
    /// A ring of empty slots, 1 to 16,384, with the memory of each.
    pub fn new(alloc: Global, size: u16) -> Result<Ring, AllocError>
        requires some { 1 ≤ size }
        requires few { size ≤ 16384 }
        ensures { IfOk result (λ r. r.slots ≡ replicate size None) }
    {
        let mut cells = Vec::with_capacity(alloc, size as usize)?;
        for _ in 0..size {
            let _ = cells.push(Cell::new(alloc)?);
        }
        Ok(Ring { cells, head: 0 })
    }

    /// The number of slots.
    pub fn len(&self) -> usize
        ensures length { result ≡ length self.now.slots }
        ensures some { 1 ≤ result }
        ensures few { result ≤ 16384 }
    {
        self.cells.len()
    }

    /// Whether slot `d` is filled.
    pub fn is_filled(&self, d: usize) -> bool
        requires { d < length self.now.slots }
        ensures { result ≡ is_filled d self.now.slots }
    {
        let at = index_after(self.head, d, self.cells.len());
        self.cells[at].filled
    }

    /// The number of empty slots before the first that is filled.
    pub fn lead(&self) -> usize
        ensures { result ≡ lead self.now.slots }
    {
        let len = self.len();
        let mut first = 0;
        while first < len && !self.is_filled(first) {
            first += 1;
        }
        first
    }

    /// The number of slots up to the last that is filled.
    pub fn reach(&self) -> usize
        ensures { result ≡ reach self.now.slots }
    {
        let mut end = self.len();
        while end > 0 && !self.is_filled(end - 1) {
            end -= 1;
        }
        end
    }

    /// Fills slot `d` with a datagram of at most 9,000 bytes.
    pub fn put(&mut self, d: usize, bytes: &[u8])
        requires slot { d < length self.old.slots }
        requires bytes { length bytes.now ≤ 9000 }
        ensures { self.new.slots ≡ slice_set self.old.slots d (Some bytes.now) }
    {
        let at = index_after(self.head, d, self.cells.len());
        self.cells[at].fill(bytes);
    }

    /// Empties slot 0, which is filled, and passes it.
    pub fn pass_front(&mut self)
        requires { is_filled 0 self.old.slots ≡ true }
        ensures slots { self.new.slots ≡ drop 1 self.old.slots ++ None ∷ [] }
        ensures passed { front self.old.slots ≡ Some self.new.passed }
    {
        let head = self.head;
        self.cells[head].filled = false;
        self.head = index_after(head, 1, self.cells.len());
    }

    /// Passes `count` slots, so that slot `count` is the first.
    pub fn pass(&mut self, count: usize)
        requires { count < length self.old.slots }
        ensures { self.new.slots ≡ rotated count self.old.slots }
    {
        self.head = index_after(self.head, count, self.cells.len());
    }

    /// Passes the empty slots before the first that is filled, at most `most`, and answers their
    /// number. Where no slot is filled the slots stay, and the answer is `most`.
    pub fn pass_empty(&mut self, most: u32) -> u32
        ensures count { result ≡ gap_over most self.old.slots }
        ensures slots { self.new.slots ≡ past_gap most self.old.slots }
    {
        let lead = self.lead();
        if lead >= self.len() {
            return most;
        }
        let count = most.min(lead as u32);
        self.pass(count as usize);
        count
    }

    /// The datagram in the slot that was passed last, which shows it until it is filled again.
    pub fn passed(&self) -> &[u8]
        ensures { result.now ≡ self.now.passed }
    {
        let at = if self.head == 0 {
            self.cells.len() - 1
        } else {
            self.head - 1
        };
        self.cells[at].bytes.as_slice()
    }
}
