//! What is read of a payload header, and why there may be none.
//! The fields are named as in this project's profile after RFC 9828.
use thiserror::Error;

/// Why bytes aren't a payload, in the order in which it is judged.
#[derive(Clone, Copy, Debug, PartialEq, Eq, Error)]
pub enum PayloadFault {
    /// Fewer than the eight bytes of either header.
    #[error("the payload is shorter than its header")]
    Short,
    /// A Main whose skipped bytes, four for each of XTRAC, pass the end.
    #[error("the skipped bytes of a Main pass the end")]
    Extension,
    /// A Body with ORDB = 1 whose POS isn't below the number of codestream bytes.
    #[error("POS isn't within the codestream bytes")]
    Pos,
}

/// What is read of a Main header (MH 1, 2 or 3).
#[derive(Clone, Copy, Debug, PartialEq, Eq)]
pub struct MainHead {
    /// ESEQ, 0 to 255.
    pub eseq: u8,
    /// XTRAC, the number of 32-bit words that are skipped, 0 to 7.
    pub xtrac: u8,
}

/// What is read of a Body header (MH 0).
#[derive(Clone, Copy, Debug, PartialEq, Eq)]
pub struct BodyHead {
    /// RES, 0 to 7.
    pub res: u8,
    /// ESEQ, 0 to 255.
    pub eseq: u8,
    /// ORDB: whether POS marks a codestream byte.
    pub ordb: bool,
    /// POS, an offset into the codestream bytes, 0 to 4,095; without ORDB it is as it stands.
    pub pos: u16,
    /// PID, 0 to 1,048,575.
    pub pid: u32,
}

/// A payload header of either kind.
#[derive(Clone, Copy, Debug, PartialEq, Eq)]
pub enum Payload {
    /// A Main header.
    Main(MainHead),
    /// A Body header.
    Body(BodyHead),
}
