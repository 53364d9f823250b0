//! What packets are ordered by (T.800 B.12.1.3, B.12.1.4).
ghost use Rattle.std.specs.Prelude.{◌≡◌, ◌↔◌, IsTrue};
ghost use Rattle.codestream_model.specs.Precincts.{IsPrecinct};
ghost use Rattle.codestream_model.specs.PacketOrder as order;
ghost use Rattle.codestream_model.specs.PacketOrder.{IsBefore, key};
ghost use Rattle.precinct_geometry.specs.Spans.{place_of};
ghost use Rattle.codestream_rebuild.specs.Keys.{numbers_in};

use j2k_markers::{Head, RPCL};
use precinct_geometry::{Geometry, Place};

/// What the packet of a precinct is ordered by: the rank, the anchor's y and x, the component, the resolution.
#[derive(Clone, Copy, Debug, PartialEq, Eq)]
pub struct Key {
    rank: u8,
    y: u64,
    x: u64,
    c: u8,
    r: u8,
}

/// The rank, by which packets are ordered before all else: in RPCL the resolution, in PCRL 0.
fn rank(head: &Head, r: u8) -> u8
    ensures { result ≡ order.rank head.now r }
{
    if head.order() == RPCL { r } else { 0 }
}

impl Key {
    /// The key of a precinct of the image.
    pub fn new(geometry: &Geometry, place: Place) -> Key
        requires { IsPrecinct geometry.now (place_of place) }
        ensures { numbers_in result ≡ key geometry.now (place_of place) }
    {
        let (y, x) = geometry.anchor(place);
        Key {
            rank: rank(geometry.head(), place.r),
            y,
            x,
            c: place.c,
            r: place.r,
        }
    }

    /// Whether the packet with this key comes before that with another.
    pub fn is_before(self, other: Key) -> bool
        ensures { IsTrue result ↔ IsBefore (numbers_in self) (numbers_in other) }
    {
        if self.rank != other.rank {
            return self.rank < other.rank;
        }
        if self.y != other.y {
            return self.y < other.y;
        }
        if self.x != other.x {
            return self.x < other.x;
        }
        if self.c != other.c {
            return self.c < other.c;
        }
        self.r < other.r
    }
}
