//! What a reader of codestreams answers, and why an input is refused.
use j2k_markers::HeadWhy;
use packet_header::HeaderWhy;

/// Why an input of codestreams is refused.
#[derive(Clone, Copy, Debug, PartialEq, Eq)]
pub enum WalkWhy {
    /// The main header is refused, at its own offset for this reason, which isn't `HeadWhy::Cut` (T.800 Annex A).
    Head(HeadWhy),
    /// The input ended inside a codestream, at this offset.
    Cut,
    /// At a packet's first byte: its precinct has more than 65,536 code-blocks.
    TooManyBlocks,
    /// At a packet's first byte: its header is refused (T.800 B.10).
    Header(HeaderWhy),
    /// At a packet's first byte: header and segments have more than 16,777,216 bytes.
    PacketTooLong,
    /// Psot is neither 0 nor the distance from SOT to this offset, where EOC should be (T.800 A.4.2).
    Psot,
    /// The two bytes after the last packet aren't EOC.
    NoEoc,
    /// 1,099,511,627,776 bytes were read and one more came.
    InputTooLong,
    /// A byte follows the 65,536th codestream.
    TooManyFrames,
}

/// A refused input.
#[derive(Clone, Copy, Debug, PartialEq, Eq)]
pub struct WalkFault {
    /// The offset in bytes from the start of the input.
    pub at: u64,
    pub why: WalkWhy,
}

/// What a step of `Pieces` answers.
#[derive(Clone, Copy, Debug, PartialEq, Eq)]
pub enum PieceOut {
    /// A main header was read.
    Head,
    /// A packet's header was read.
    Start,
    /// 1 to 4,096 bytes of a packet's segments were read.
    More,
    /// EOC was read.
    FrameEnd,
    /// The input ended where a codestream may begin.
    End,
    /// The input is refused.
    Refused(WalkFault),
    /// A read failed in this call.
    ReadFault,
}

/// What the bytes in hand fix.
#[derive(Clone, Copy, Debug, PartialEq, Eq)]
pub enum Judged {
    /// This answer.
    Piece(PieceOut),
    /// None: more bytes are wanted.
    Wants,
}
