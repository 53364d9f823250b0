//! The memory of one datagram.
ghost use Rattle.std.specs.Prelude.{◌≡◌, ◌≤◌, length, IfOk, Some, None, true, false};
ghost use Rattle.std.specs.Vec.{vec_capacity};

use std::alloc::{AllocError, Global};

/// The greatest number of bytes of a datagram.
const MOST_BYTES: usize = 9_000;

/// Room for one datagram. It is emptied without giving up its memory.
#[derive(Drop)]
pub struct Cell {
    /// Whether a datagram is held.
    pub filled: bool,
    /// The datagram that is held, or the one that was held last.
    pub bytes: Vec<u8>,
    ghost roomy: { 9000 ≤ vec_capacity bytes },
}

impl Cell {
    /// An empty cell with room for 9,000 bytes.
    pub fn new(alloc: Global) -> Result<Cell, AllocError>
        ensures { IfOk result (λ c. c.filled ≡ false) }
    {
        let bytes = Vec::with_capacity(alloc, MOST_BYTES)?;
        Ok(Cell {
            filled: false,
            bytes,
        })
    }

    /// Holds a datagram of at most 9,000 bytes.
    pub fn fill(&mut self, bytes: &[u8])
        requires { length bytes.now ≤ 9000 }
        ensures filled { self.new.filled ≡ true }
        ensures bytes { self.new.bytes.items ≡ bytes.now }
    {
        self.bytes.clear();
        let _ = self.bytes.extend_from_slice(bytes);
        self.filled = true;
    }
}
