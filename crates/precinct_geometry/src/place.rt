//! A precinct, and its code-blocks in a band.
use arrayvec::ArrayVec;

/// A precinct: its component, its resolution, and its number there, which is row × columns + column.
#[derive(Clone, Copy, Debug, PartialEq, Eq)]
pub struct Place {
    pub c: u8,
    pub r: u8,
    pub k: u32,
}

/// The code-blocks of a precinct in a band, in columns and rows. The band is 0 LL, 1 HL, 2 LH or 3 HH.
#[derive(Clone, Copy, Debug, Default, PartialEq, Eq)]
pub struct Grid {
    pub band: u8,
    pub cols: u32,
    pub rows: u32,
}

/// The code-blocks of a precinct: LL, or HL, LH and HH.
pub type Bands = ArrayVec<Grid, 3>;
