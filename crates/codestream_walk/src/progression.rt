//! The codestream that was begun last: its geometry, and which packet of it is next.
ghost use Rattle.std.specs.Prelude.{◌≡◌, ◌≤◌, IfSome, IsNone, [], length};
ghost use Rattle.codestream_model.specs.PacketOrder.{IsPacketOrder};
ghost use Rattle.precinct_geometry.specs.Spans.{place_of};
ghost use Rattle.codestream_walk.specs.Progressions.{IsNextPlace, after_packet};

use j2k_markers::Head;
use pcrl_order::OrderWalk;
use precinct_geometry::{Geometry, Place};
use std::marker::Model;

/// The geometry of an image and the next packet in the packet order.
#[derive(Drop)]
pub struct Progression {
    /// At the precinct of the next packet or, where none is to come, of the last one.
    walk: OrderWalk,
    /// Whether a packet is still to come.
    more: bool,
}

impl Model for Progression {
    ghost use Rattle.codestream_model.specs.Precincts.{IsPrecinct};
    ghost use Rattle.codestream_walk.specs.Progressions.{Progress, places_from};

    ghost Value = { Progress };

    ghost view = { λ p. record { head = p.walk.head; places = places_from p.more p.walk.head p.walk.place } };

    ghost invariant = { λ p. IsPrecinct p.walk.head p.walk.place };
}

impl Progression {
    /// After this main header, before its first packet.
    pub fn new(head: Head) -> Progression
        ensures head { result.head ≡ head }
        ensures order { IsPacketOrder head result.places }
    {
        head.is_within_limits();
        let geometry = Geometry::new(head);
        let walk = OrderWalk::new(geometry);
        Progression { walk, more: true }
    }

    /// The geometry of the image.
    pub fn geometry(&self) -> &Geometry
        ensures { result.now ≡ self.now.head }
    {
        self.walk.geometry()
    }

    /// The precinct of the next packet, or None where EOC is next.
    pub fn next(&self) -> Option<Place>
        ensures some { IfSome result (λ p. IsNextPlace (place_of p) self.now) }
        ensures none { IsNone result → self.now.places ≡ [] }
    {
        if self.more {
            Some(self.walk.place())
        } else {
            None
        }
    }

    /// Goes past the next packet.
    pub fn advance(&mut self)
        requires { 1 ≤ length self.old.places }
        ensures { self.new ≡ after_packet self.old }
    {
        self.more = self.walk.advance();
    }
}
