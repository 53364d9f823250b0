//! EPH, the marker after a packet header (T.800 A.8.2).
ghost use Rattle.std.specs.Prelude.{◌≡◌, ◌≤◌, length, drop};
ghost use Rattle.packet_header.specs.Marked.{end_out};

use crate::refusal::{HeaderOut, HeaderWhy};

/// End of packet header.
pub const EPH: [u8; 2] = [0xFF, 0x92];

/// Reads the second byte of EPH, at an index of a piece.
pub fn end_eph(piece: &[u8], at: usize) -> HeaderOut
    requires { at ≤ length piece.now }
    ensures { result ≡ end_out at (drop at piece.now) }
{
    if at == piece.len() {
        return HeaderOut::Need;
    }
    if piece[at] != EPH[1] {
        return HeaderOut::Bad(HeaderWhy::NoEph);
    }
    HeaderOut::Done(at + 1)
}
