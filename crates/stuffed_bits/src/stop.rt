//! Why a reader of bits stops.

/// Why a value isn't read.
#[derive(Clone, Copy, Debug, PartialEq, Eq)]
pub enum Stop {
    /// A byte is needed and the piece is at its end. The same call goes on with a further piece.
    Need,
    /// The byte after FF has its top bit set (T.800 B.10.1).
    Stuffed,
}
