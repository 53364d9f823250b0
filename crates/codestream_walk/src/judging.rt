//! What bytes are, where EOC should begin.
ghost use Rattle.std.specs.Prelude.{◌≤◌};
ghost use Rattle.codestream_walk.specs.Judging.{JudgesEoc};

use crate::fault::WalkWhy;
use precinct_geometry::Geometry;

/// What bytes are, where EOC should begin.
#[derive(Clone, Copy, Debug, PartialEq, Eq)]
pub enum Eoc {
    /// They begin with EOC.
    Whole,
    /// They are refused.
    Refused(WalkWhy),
    /// They end inside EOC.
    Wants,
}

/// Judges bytes where EOC should begin, after `size` bytes of the codestream (T.800 A.4.2, A.4.4).
pub fn judge_eoc(geometry: &Geometry, size: u64, bytes: &[u8]) -> Eoc
    requires { size ≤ 1099511627776 }
    ensures { JudgesEoc geometry.now size bytes.now result }
{
    let head = geometry.head();
    let psot = u64::from(head.psot());
    if psot != 0 && psot + u64::from(head.sot()) != size {
        return Eoc::Refused(WalkWhy::Psot);
    }
    if bytes.len() < 2 {
        return Eoc::Wants;
    }
    if bytes[0] == 0xFF && bytes[1] == 0xD9 {
        Eoc::Whole
    } else {
        Eoc::Refused(WalkWhy::NoEoc)
    }
}
