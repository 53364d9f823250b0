//! Why a header isn't written.
use std::alloc::AllocError;
use stuffed_bits::Full as NoRoom;
use thiserror::Error;

/// Why code-blocks get no header.
#[derive(Clone, Copy, Debug, PartialEq, Eq, Error)]
pub enum PutFault {
    /// The header is longer than the buffer.
    #[error("the packet header is longer than the buffer")]
    Full,
    /// The code-blocks aren't distinct ones of the grids in header order, or a value is out of its range.
    #[error("the code-blocks aren't those of a packet")]
    Blocks,
    /// There is no memory for the tag trees.
    #[error("out of memory")]
    NoMemory,
}

impl From<AllocError> for PutFault {
    ghost use Rattle.std.specs.Prelude.{◌≡◌};
    ghost use Rattle.packet_header.specs.declared.fault.PutFault.TheVariants.{NoMemory};

    ghost from_gives = { λ _ e. e ≡ NoMemory };

    fn from(_e: AllocError) -> PutFault {
        PutFault::NoMemory
    }
}

impl From<NoRoom> for PutFault {
    ghost use Rattle.std.specs.Prelude.{◌≡◌};
    ghost use Rattle.packet_header.specs.declared.fault.PutFault.TheVariants.{Full};

    ghost from_gives = { λ _ e. e ≡ Full };

    fn from(_e: NoRoom) -> PutFault {
        PutFault::Full
    }
}
