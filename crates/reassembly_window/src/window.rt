//! The window: the base, the numbers that are due, and the ring of slots.
ghost use Rattle.std.specs.Prelude.{◌≡◌, ◌≤◌, ◌<◌, ◌^◌, length, IfOk, IsSome, Some, None, max};
ghost use Rattle.stream_model.specs.Window.{base_with, make_all_due};
ghost use Rattle.reassembly_window.specs.Windows.{new_window};
ghost use Rattle.reassembly_window.specs.Answers.{offered, offer_answer, after_offer, handed, next_answer, after_next};

use crate::ring::Ring;
use scl_payload::ahead_of;
use std::alloc::{AllocError, Global};
use std::marker::Model;

/// The answer to an offered datagram.
#[derive(Clone, Copy, Debug, PartialEq, Eq)]
pub enum Offer {
    /// The window holds it.
    Kept,
    /// A datagram of its number is held already.
    Again,
    /// Its number is before the base: 2^23 or more ahead of it modulo 2^24.
    Behind,
    /// Its number is `size` or more ahead of the base. What is due by now must be handed on first.
    Drain,
}

/// What the window hands on.
#[derive(Clone, Copy, Debug, PartialEq, Eq)]
pub enum Slot {
    /// The datagram of this extended number.
    Held(u32),
    /// The first of the missing numbers, and how many there are.
    Gap(u32, u32),
}

/// Extended numbers run modulo 2^24.
const NUMBERS: u32 = 0x100_0000;

/// A reassembly window: datagrams are held by their extended numbers and handed on in their order.
#[derive(Drop)]
pub struct Window {
    ring: Ring,
    /// The number that comes next; None before the first offer.
    base: Option<u32>,
    /// How many numbers from the base on are due.
    due: u32,
    /// The number of filled slots.
    held: u16,
    /// Whether the last `offer` or `next` was a `next` that answered `Held`.
    shown: bool,
}

impl Model for Window {
    ghost use Rattle.reassembly_window.specs.Windows.{WindowState};

    ghost Value = { WindowState };

    ghost use Rattle.reassembly_window.specs.Windows.{state_of, IsSound};

    ghost view = { λ w. state_of w.base w.due w.ring w.shown };

    ghost invariant = { λ w. IsSound w.base w.due w.held w.ring.slots };
}

impl Window {
    /// A window of `size` slots, 1 to 16,384, of 9,000 bytes each. All memory is taken here.
    pub fn new(alloc: Global, size: u16) -> Result<Window, AllocError>
        requires some { 1 ≤ size }
        requires few { size ≤ 16384 }
        ensures { IfOk result (λ w. w ≡ new_window size) }
    {
        let ring = Ring::new(alloc, size)?;
        Ok(Window {
            ring,
            base: None,
            due: 0,
            held: 0,
            shown: false,
        })
    }

    /// Offers a datagram of at most 9,000 bytes with its extended number, which is below 2^24. The
    /// first offer sets the base. Only `Kept` stores it; `Drain` makes due all numbers up to `n`
    /// less the size.
    pub fn offer(&mut self, n: u32, bytes: &[u8]) -> Offer
        requires number { n < 2 ^ 24 }
        requires fits { length bytes.now ≤ 9000 }
        ensures answer { result ≡ offer_answer (offered self.old n) }
        ensures window { self.new ≡ after_offer self.old n bytes.now (offered self.old n) }
    {
        self.shown = false;
        let base = self.base.unwrap_or(n);
        let Some(d) = ahead_of(base, n) else {
            return Offer::Behind;
        };
        let size = self.ring.len() as u32;
        if d >= size {
            self.due = self.due.max(d + 1 - size);
            return Offer::Drain;
        }
        if self.ring.is_filled(d as usize) {
            return Offer::Again;
        }
        self.ring.put(d as usize, bytes);
        self.held += 1;
        self.base = Some(base);
        Offer::Kept
    }

    /// Hands on what is at the base: the datagram there, or the longest run of empty numbers that
    /// are due. None before the first offer, and where the slot at the base is empty and not due.
    pub fn next(&mut self) -> Option<Slot>
        ensures answer { result ≡ next_answer (base_with 0 self.old.window.base) (handed self.old) }
        ensures window { self.new ≡ after_next self.old (handed self.old) }
    {
        self.shown = false;
        let base = self.base?;
        if self.ring.is_filled(0) {
            self.ring.pass_front();
            self.base = Some((base + 1) % NUMBERS);
            self.due = self.due.saturating_sub(1);
            self.held -= 1;
            self.shown = true;
            return Some(Slot::Held(base));
        }
        if self.due == 0 {
            return None;
        }
        let count = self.ring.pass_empty(self.due);
        self.base = Some((base + count) % NUMBERS);
        self.due -= count;
        Some(Slot::Gap(base, count))
    }

    /// The datagram that `next` handed on. The last call of `offer` and `next` was a `next` that
    /// answered `Held`.
    pub fn bytes(&self) -> &[u8]
        requires { IsSome self.now.shown }
        ensures { self.now.shown ≡ Some result.now }
    {
        self.ring.passed()
    }

    /// Makes due all numbers up to the highest that is held. Before the first offer it changes
    /// nothing.
    pub fn flush(&mut self)
        ensures { self.new ≡ record self.old { window = make_all_due self.old.window self.old.window.base } }
    {
        if self.base.is_some() {
            self.due = self.due.max(self.ring.reach() as u32);
        }
    }

    /// The number of datagrams that are held, at most the size.
    pub fn held(&self) -> u16
        ensures held { result ≡ length self.now.window.held }
        ensures few { result ≤ self.now.size }
    {
        self.held
    }

    /// The extended number that comes next; None exactly before the first offer.
    pub fn base(&self) -> Option<u32>
        ensures { result ≡ self.now.window.base }
    {
        self.base
    }
}
