//! An included code-block, and a precinct with its packet.
use precinct_geometry::Place;

/// The greatest number of zero bit-planes.
pub const MOST_PLANES: u8 = 74;

/// The position of a code-block in the grids of a precinct.
#[derive(Clone, Copy)]
pub struct Position {
    /// The column in the precinct's grid of this band.
    pub col: u32,
    /// The row in that grid.
    pub row: u32,
    /// The band: 0 LL, 1 HL, 2 LH or 3 HH.
    pub band: u8,
}

/// A code-block that a packet includes, and what its header says of it.
///
/// The fields are ordered by size, since gaps between them make copies dearer.
#[derive(Clone, Copy, Debug, Default, PartialEq, Eq)]
pub struct Block {
    /// The column in the precinct's grid of this band.
    pub col: u32,
    /// The row in that grid.
    pub row: u32,
    /// The bytes of the cleanup segment, 2 to 65,534.
    pub cleanup: u32,
    /// The bytes of the refinement segment, 0 to 2,046; 0 with one pass.
    pub refine: u32,
    /// The band: 0 LL, 1 HL, 2 LH or 3 HH.
    pub band: u8,
    /// The zero bit-planes, 0 to 74.
    pub planes: u8,
    /// The coding passes, 1 to 3.
    pub passes: u8,
}

/// A precinct of a codestream, and what its packet says.
#[derive(Clone, Copy)]
pub struct Precinct<'a> {
    /// The timestamp of its codestream.
    pub stamp: u32,
    pub place: Place,
    /// The number of the precinct in the codestream.
    pub pid: u32,
    /// The included code-blocks, in header order.
    pub blocks: &'a [Block],
    /// The segments of these code-blocks, joined: of each the cleanup segment and then the refinement
    /// segment.
    pub bytes: &'a [u8],
}
