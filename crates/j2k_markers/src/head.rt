//! The values of a main header, and why bytes don't begin with one.
ghost use Rattle.std.specs.Prelude.{◌≡◌, ◌<◌, ◌≤◌, ◌⊎◌, ◌+◌, ◌^◌, ℕ, length, slice_index_or};
ghost use Rattle.codestream_model.specs.HeadLimits.{IsWithinLimits};
ghost use Rattle.codestream_model.specs.Areas.{step_of};
ghost use Rattle.codestream_model.specs.Precincts.{precinct_exponents};
ghost use Rattle.j2k_markers.specs.Fields.{pair, fields_head};

use arrayvec::ArrayVec;
use std::marker::Model;

/// The greatest number of components of the profile.
pub const MOST_COMPONENTS: usize = 16;

/// The number of the progression order resolution, position, component, layer (T.800 table A.16).
pub const RPCL: u8 = 2;

/// The number of the progression order position, component, resolution, layer.
pub const PCRL: u8 = 3;

/// Why bytes don't begin with a main header of the profile.
#[derive(Clone, Copy, Debug, PartialEq, Eq)]
pub enum HeadWhy {
    /// A byte is wanted past the bytes given, which are fewer than 8,192.
    Cut,
    /// The first two bytes aren't SOC.
    NoSoc,
    /// The first segment isn't SIZ.
    NoSiz,
    /// A marker that is not allowed there.
    Marker(u16),
    /// A segment states a length that its marker doesn't have.
    Length,
    /// SIZ, CAP, COD or QCD, the marker given, is there a second time.
    Twice(u16),
    /// CAP, COD or QCD, the marker given, isn't there before SOT.
    Missing(u16),
    /// SIZ: the first tile isn't the whole image.
    Tiles,
    /// SIZ: not one to sixteen components.
    Components,
    /// SIZ: a step of 0.
    Step,
    /// SIZ: the image or a component is empty, or the image ends past 2^31 - 1.
    Area,
    /// SIZ: Rsiz doesn't say that there are extended capabilities.
    Rsiz,
    /// CAP: other capabilities than part 15's, or code-blocks that aren't all HT with one set each.
    Cap,
    /// COD: the progression order is neither RPCL nor PCRL.
    Order,
    /// COD: not one layer.
    Layers,
    /// COD: more than 15 decomposition levels.
    Levels,
    /// COD: a code-block above 1024 places in one direction, or above 4096 samples.
    Blocks,
    /// COD: a reserved bit of the coding style, or a code-block style that isn't HT.
    Style,
    /// COD: a precinct of one sample above the lowest resolution.
    Precinct,
    /// QCD: an unknown style, or not as many step values as there are bands.
    Quant,
    /// COD: SOP markers.
    Sop,
    /// SOT: not the one tile-part of the one tile.
    TileHeader,
    /// A precinct would have a number of 2^20 or more.
    Ids,
    /// A byte is wanted past the 8,192nd.
    TooLong,
}

/// Where bytes stop being a main header, and why.
#[derive(Clone, Copy, Debug, PartialEq, Eq)]
pub struct HeadFault {
    /// The offset of what is refused: the end of the bytes at `Cut`, 8,192 at `TooLong`, SOC at `NoSoc`,
    /// QCD at `Quant`, and at all others the segment.
    pub at: u32,
    /// The first condition that is met.
    pub why: HeadWhy,
}

/// What SIZ and COD say.
#[derive(Debug, Drop)]
pub(crate) struct Fields {
    pub(crate) x0: u32,
    pub(crate) y0: u32,
    pub(crate) x1: u32,
    pub(crate) y1: u32,
    pub(crate) steps: ArrayVec<(u8, u8), MOST_COMPONENTS>,
    pub(crate) levels: u8,
    pub(crate) block: (u8, u8),
    pub(crate) precincts: ArrayVec<(u8, u8), 16>,
    pub(crate) order: u8,
    pub(crate) eph: bool,
}

/// The values of a main header.
///
/// Each is within the limits of the profile: one to sixteen components, none of them empty, at most 15
/// decomposition levels, and numbers of precincts below 2^20.
#[derive(Debug, Drop)]
pub struct Head {
    fields: Fields,
    psot: u32,
    sot: u32,
    length: u32,
}

impl Model for Head {
    ghost use Rattle.codestream_model.specs.Values as values;

    ghost Value = { values.Head };

    ghost use Rattle.codestream_model.specs.HeadLimits.{IsWithinLimits};
    ghost use Rattle.j2k_markers.specs.Fields.{fields_head};

    ghost view = { λ a. fields_head a.fields a.psot a.sot a.length };

    ghost invariant = { λ a. IsWithinLimits (fields_head a.fields a.psot a.sot a.length) };
}

impl Head {
    /// The values of a header, which are within the limits.
    pub(crate) fn new(fields: Fields, psot: u32, sot: u32, length: u32) -> Head
        requires { IsWithinLimits (fields_head fields psot sot length) }
        ensures { result ≡ fields_head fields psot sot length }
    {
        Head {
            fields,
            psot,
            sot,
            length,
        }
    }

    /// Nothing to compute: that the values are within the limits of the profile.
    pub fn is_within_limits(&self)
        ensures { IsWithinLimits self.now }
    {
        let _ = &self.psot;
    }

    /// XOsiz, YOsiz, Xsiz and Ysiz: the image begins at the first two and ends before the last two.
    pub fn area(&self) -> (u32, u32, u32, u32)
        ensures x0 { result.0 ≡ self.now.x0 }
        ensures y0 { result.1 ≡ self.now.y0 }
        ensures x1 { result.2 ≡ self.now.x1 }
        ensures y1 { result.3 ≡ self.now.y1 }
        ensures wide { result.0 < result.2 }
        ensures high { result.1 < result.3 }
        ensures x_end { result.2 < 2 ^ 31 }
        ensures y_end { result.3 < 2 ^ 31 }
    {
        (
            self.fields.x0,
            self.fields.y0,
            self.fields.x1,
            self.fields.y1,
        )
    }

    /// Csiz, the number of components, 1 to 16.
    pub fn components(&self) -> u8
        ensures count { result ≡ length self.now.steps }
        ensures some { 1 ≤ result }
        ensures few { result ≤ 16 }
    {
        self.fields.steps.len() as u8
    }

    /// XRsiz and YRsiz of a component, which is below `components`; each is at least 1.
    pub fn step(&self, c: u8) -> (u8, u8)
        requires { c < length self.now.steps }
        ensures step { pair result ≡ step_of self.now c }
        ensures some_x { 1 ≤ result.0 }
        ensures some_y { 1 ≤ result.1 }
    {
        self.fields.steps[usize::from(c)]
    }

    /// N_L, the number of decomposition levels, 0 to 15.
    pub fn levels(&self) -> u8
        ensures levels { result ≡ self.now.levels }
        ensures few { result ≤ 15 }
    {
        self.fields.levels
    }

    /// xcb and ycb, the exponents of a code-block's size: each 2 to 10, and at most 12 together.
    pub fn block(&self) -> (u8, u8)
        ensures block { pair result ≡ self.now.block }
        ensures least_x { 2 ≤ result.0 }
        ensures least_y { 2 ≤ result.1 }
        ensures size { result.0 + result.1 ≤ 12 }
    {
        self.fields.block
    }

    /// PPx and PPy of a resolution, which is at most `levels`: the exponents of a precinct's size, each
    /// at most 15, and at least 1 above the lowest resolution.
    pub fn precinct(&self, r: u8) -> (u8, u8)
        requires { r ≤ self.now.levels }
        ensures precinct { pair result ≡ precinct_exponents self.now r }
        ensures most_x { result.0 ≤ 15 }
        ensures most_y { result.1 ≤ 15 }
        ensures least_x { 0 < r → 1 ≤ result.0 }
        ensures least_y { 0 < r → 1 ≤ result.1 }
    {
        self.fields.precincts[usize::from(r)]
    }

    /// The progression order: [`RPCL`] or [`PCRL`].
    pub fn order(&self) -> u8
        ensures order { result ≡ self.now.order }
        ensures known { (result ≡ 2) ⊎ (result ≡ 3) }
    {
        self.fields.order
    }

    /// Whether an EPH marker follows each packet header, that of an empty packet too.
    pub fn eph(&self) -> bool
        ensures { result ≡ self.now.eph }
    {
        self.fields.eph
    }

    /// Psot: the number of bytes from SOT to the end of the packets, or 0 where they end at EOC.
    pub fn psot(&self) -> u32
        ensures { result ≡ self.now.psot }
    {
        self.psot
    }

    /// The offset of SOT, below `length`.
    pub fn sot(&self) -> u32
        ensures sot { result ≡ self.now.sot }
        ensures behind_soc { 2 ≤ result }
        ensures before_sod { result + 14 ≤ self.now.length }
    {
        self.sot
    }

    /// The number of bytes up to and including SOD, at most 8,192.
    pub fn length(&self) -> u32
        ensures length { result ≡ self.now.length }
        ensures short { result ≤ 8192 }
    {
        self.length
    }
}
