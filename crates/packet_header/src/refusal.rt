//! What is answered where a packet header is read.
ghost use Rattle.std.specs.Prelude.{◌≡◌, Option};
ghost use Rattle.packet_header.specs.Answers.{out_at};

use stuffed_bits::Stop;
use tag_tree::LabelStop;

/// Why bytes are no packet header. Each reason has the bit that decides it, and all before that bit is sound.
#[derive(Clone, Copy, Debug, PartialEq, Eq)]
pub enum HeaderWhy {
    /// The top bit of a byte after FF is set (T.800 B.10.1).
    Stuffed,
    /// A number of coding passes above 3.
    Passes,
    /// An Lblock above 24.
    LengthBits,
    /// A cleanup segment of fewer than 2 bytes.
    CleanupShort,
    /// A cleanup segment of 65,535 bytes or more.
    CleanupLong,
    /// A refinement segment of 2,047 bytes or more.
    RefineLong,
    /// More than 74 zero bit-planes.
    ZeroPlanes,
    /// A byte past the 65,536th is needed.
    TooLong,
    /// The bytes after the header aren't EPH (T.800 A.8.2), which the main header asks for.
    NoEph,
}

/// What is read of the bytes at hand.
#[derive(Clone, Copy, Debug, PartialEq, Eq)]
pub enum HeaderOut {
    /// The header, with the EPH after it where it is asked for, has this many bytes.
    Done(usize),
    /// The bytes end before the header or its EPH does, and before the deciding bit of any refusal.
    Need,
    /// The bytes are refused.
    Bad(HeaderWhy),
}

/// Why no further value of a header is read.
#[derive(Clone, Copy, Debug, PartialEq, Eq)]
pub enum HeaderStop {
    /// The bytes are at their end, and a further piece goes on.
    Need,
    /// The bytes are refused.
    Bad(HeaderWhy),
}

/// The most bytes that a packet header may have.
pub const LONGEST: usize = 65_536;

impl From<Stop> for HeaderStop {
    ghost use Rattle.std.specs.Prelude.{◌≡◌};
    ghost use Rattle.packet_header.specs.Answers.{stop_of};

    ghost from_gives = { λ stop e. e ≡ stop_of stop };

    fn from(stop: Stop) -> HeaderStop {
        match stop {
            Stop::Need => HeaderStop::Need,
            Stop::Stuffed => HeaderStop::Bad(HeaderWhy::Stuffed),
        }
    }
}

impl From<LabelStop> for HeaderStop {
    ghost use Rattle.std.specs.Prelude.{◌≡◌};
    ghost use Rattle.packet_header.specs.Answers.{label_stop_of};

    ghost from_gives = { λ stop e. e ≡ label_stop_of stop };

    fn from(stop: LabelStop) -> HeaderStop {
        match stop {
            LabelStop::Need => HeaderStop::Need,
            LabelStop::Stuffed => HeaderStop::Bad(HeaderWhy::Stuffed),
            LabelStop::TooGreat => HeaderStop::Bad(HeaderWhy::ZeroPlanes),
        }
    }
}

impl HeaderStop {
    /// The answer where `bytes` bytes of the header were fed.
    pub fn out(self, bytes: usize) -> HeaderOut
        ensures { result ≡ out_at bytes self }
    {
        match self {
            HeaderStop::Bad(why) => HeaderOut::Bad(why),
            HeaderStop::Need if bytes < LONGEST => HeaderOut::Need,
            HeaderStop::Need => HeaderOut::Bad(HeaderWhy::TooLong),
        }
    }
}
