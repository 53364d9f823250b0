//! The bytes of a codestream, gathered up to the most that it may have.
ghost use Rattle.std.specs.Prelude.{◌≡◌, ◌≤◌, ◌++◌, false, ℕ, List, OnOk, length};

use std::alloc::AllocError;

/// The greatest number of bytes of a codestream that is made.
const MOST_BYTES: usize = 268_435_456;

/// The bytes of a codestream so far.
#[derive(Drop)]
pub struct Gathered {
    /// The bytes; where there would be too many, only some of the first.
    pub bytes: Vec<u8>,
    /// Whether more than 268,435,456 bytes were added.
    pub is_too_long: bool,
    ghost fits: { length bytes.items ≤ 268435456 },
}

impl Gathered {
    ghost use Rattle.codestream_make.specs.Gathering.{HasGathered, Adds};

    /// The bytes of a main header.
    pub fn new(header: Vec<u8>) -> Gathered
        requires { length header.items ≤ 8192 }
        ensures gathered { HasGathered result header.items }
        ensures fits { result.is_too_long ≡ false }
    {
        Gathered {
            bytes: header,
            is_too_long: false,
        }
    }

    /// Adds bytes at the end, unless they would be too many with those before.
    pub fn add(&mut self, more: &[u8]) -> Result<(), AllocError>
        ensures { Adds result self.old more.now self.new }
    {
        if self.is_too_long || more.len() > MOST_BYTES - self.bytes.len() {
            self.is_too_long = true;
            return Ok(());
        }
        self.bytes.extend_from_slice(more)
    }
}
