//! How far a code-block's values were read.
ghost use Rattle.std.specs.Prelude.{◌≡◌, IfErr};

use crate::refusal::HeaderStop;

/// The value that is read next, and those of the code-block that were read before it.
#[derive(Clone, Copy, Debug, PartialEq, Eq)]
pub enum Step {
    /// Whether it is included.
    Inclusion,
    /// The zero bit-planes.
    Planes,
    /// The first bit of the number of passes.
    Passes {
        planes: u8,
    },
    /// The second bit of the number of passes, after a 1.
    MorePasses {
        planes: u8,
    },
    /// The last two bits of the number of passes, after two ones.
    LastPasses {
        planes: u8,
    },
    /// Lblock.
    Lblock {
        planes: u8,
        passes: u8,
    },
    /// The length of the cleanup segment, in `lblock` bits.
    Cleanup {
        planes: u8,
        passes: u8,
        lblock: u8,
    },
    /// The length of the refinement segment.
    Refine {
        planes: u8,
        passes: u8,
        lblock: u8,
        cleanup: u32,
    },
}

/// Passes on the answer of a reading, and notes its step where it stopped.
///
/// Most readings don't stop, so that most steps are never written down.
#[inline(always)]
pub fn noted<T: Copy>(
    answer: Result<T, HeaderStop>,
    here: Step,
    step: &mut Step,
) -> Result<T, HeaderStop>
    ensures same { result ≡ answer }
    ensures noted { IfErr result (λ stop. step.new ≡ here) }
{
    if answer.is_err() {
        *step = here;
    }
    answer
}
