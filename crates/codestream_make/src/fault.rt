//! Why no codestream is made.
ghost use Rattle.std.specs.Prelude.{◌≡◌};

use j2k_markers::{HeadWhy, PlanFault};
use packet_header::PutFault;
use std::alloc::AllocError;
use thiserror::Error;

/// Why no codestream is made of a plan, in the order in which it is judged.
#[derive(Clone, Copy, Debug, PartialEq, Eq, Error)]
pub enum MakeFault {
    /// The main header would be refused by its reader for this reason.
    #[error("the main header would be refused: {0:?}")]
    Head(HeadWhy),
    /// The content has another number of precincts than the image, or what a precinct is to say is no packet of it.
    #[error("a content doesn't fit its precinct")]
    Content,
    /// The codestream would have more than 268,435,456 bytes.
    #[error("the codestream would be too long")]
    TooLong,
    /// There is no memory for the bytes.
    #[error("out of memory")]
    NoMemory,
}

impl From<AllocError> for MakeFault {
    ghost use Rattle.codestream_make.specs.declared.fault.MakeFault.TheVariants.{NoMemory};

    ghost from_gives = { λ _ e. e ≡ NoMemory };

    fn from(_e: AllocError) -> MakeFault {
        MakeFault::NoMemory
    }
}

impl From<PlanFault> for MakeFault {
    ghost use Rattle.codestream_make.specs.Faults.{of_plan};

    ghost from_gives = { λ f e. e ≡ of_plan f };

    fn from(fault: PlanFault) -> MakeFault {
        match fault {
            PlanFault::Head(why) => MakeFault::Head(why),
            PlanFault::NoMemory => MakeFault::NoMemory,
        }
    }
}

impl From<PutFault> for MakeFault {
    ghost use Rattle.codestream_make.specs.Faults.{of_put};

    ghost from_gives = { λ f e. e ≡ of_put f };

    fn from(fault: PutFault) -> MakeFault {
        match fault {
            PutFault::Blocks | PutFault::Full => MakeFault::Content,
            PutFault::NoMemory => MakeFault::NoMemory,
        }
    }
}
