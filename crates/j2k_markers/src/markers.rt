//! The markers that are in a main header (T.800 table A.2).

/// Start of codestream.
pub(crate) const SOC: u16 = 0xFF4F;
/// Extended capabilities.
pub(crate) const CAP: u16 = 0xFF50;
/// Image and tile size.
pub(crate) const SIZ: u16 = 0xFF51;
/// Coding style default.
pub(crate) const COD: u16 = 0xFF52;
/// Tile-part lengths.
pub(crate) const TLM: u16 = 0xFF55;
/// Profile.
pub(crate) const PRF: u16 = 0xFF56;
/// Packet lengths, main header.
pub(crate) const PLM: u16 = 0xFF57;
/// Packet lengths, tile-part header.
pub(crate) const PLT: u16 = 0xFF58;
/// Corresponding profile.
pub(crate) const CPF: u16 = 0xFF59;
/// Quantisation default.
pub(crate) const QCD: u16 = 0xFF5C;
/// Quantisation component.
pub(crate) const QCC: u16 = 0xFF5D;
/// Component registration.
pub(crate) const CRG: u16 = 0xFF63;
/// Comment.
pub(crate) const COM: u16 = 0xFF64;
/// Start of tile-part.
pub(crate) const SOT: u16 = 0xFF90;
/// Start of data.
pub(crate) const SOD: u16 = 0xFF93;
