//! The codestream that is open: its packets that are still to come.
ghost use Rattle.std.specs.Prelude.{◌≡◌, ◌≤◌, ◌∷◌, List, [], Some, IfSome, IsNone, drop, length};
ghost use Rattle.std.specs.List.{list_any};
ghost use Rattle.codestream_model.specs.Precincts.{IsPrecinct};
ghost use Rattle.stream_model.specs.Decoder.{is_place};
ghost use Rattle.rebuild_model.specs.Rebuilding.{closing, empty_packet, empty_packets, places_after, places_before};
ghost use Rattle.precinct_geometry.specs.Spans.{place_of};
ghost use Rattle.scl_outside.specs.Events.{Event};
ghost use Rattle.scl_outside.specs.Writing.{Puts};
ghost use Rattle.codestream_rebuild.specs.Opening.{opened, takes};

use crate::key::Key;
use crate::writing::put;
use j2k_markers::Head;
use pcrl_order::OrderWalk;
use precinct_geometry::{Geometry, Place};
use scl_outside::{Duct, PutOut};
use std::marker::Model;

/// Whether two places are the same.
fn is_same(one: Place, other: Place) -> bool
    ensures { result ≡ is_place (place_of one) (place_of other) }
{
    one.c == other.c && one.r == other.r && one.k == other.k
}

/// A codestream that is open. Contracts see the number and the values of its main header, and the precincts whose packets
/// are still to come.
#[derive(Drop)]
pub struct Codestream {
    heads: u64,
    /// At the precinct of the next packet or, where none is to come, of the last one.
    walk: OrderWalk,
    /// Whether a packet is still to come.
    more: bool,
}

impl Model for Codestream {
    ghost use Rattle.codestream_model.specs.Precincts.{IsPrecinct};
    ghost use Rattle.rebuild_model.specs.Rebuilding.{Open};
    ghost use Rattle.codestream_rebuild.specs.Opening.{places_from};

    ghost Value = { Open };

    ghost view = { λ c. record { heads = c.heads; head = c.walk.head; later = places_from c.more c.walk.head c.walk.place } };

    ghost invariant = { λ c. IsPrecinct c.walk.head c.walk.place };
}

impl Codestream {
    /// A codestream under the main header with this number, of which all packets are still to come.
    pub fn new(heads: u64, head: Head) -> Codestream
        ensures { result ≡ opened heads head }
    {
        let geometry = Geometry::new(head);
        Codestream {
            heads,
            walk: OrderWalk::new(geometry),
            more: true,
        }
    }

    /// Whether the packet of a precinct is still to come, and the main header has this number.
    pub fn takes(&self, heads: u64, place: Place) -> bool
        requires { self.now.heads ≡ heads → IsPrecinct self.now.head (place_of place) }
        ensures { result ≡ takes (Some self.now) heads (place_of place) }
    {
        self.heads == heads && self.has_to_come(place)
    }

    /// Whether the packet of a precinct is still to come.
    fn has_to_come(&self, place: Place) -> bool
        requires { IsPrecinct self.now.head (place_of place) }
        ensures { result ≡ list_any (is_place (place_of place)) self.now.later }
    {
        let geometry = self.walk.geometry();
        geometry.head().is_within_limits();
        let next = self.walk.place();
        let past = Key::new(geometry, next).is_before(Key::new(geometry, place));
        self.more && (is_same(place, next) || past)
    }

    /// The precinct of the next packet, or None where no packet is to come.
    fn next(&self) -> Option<Place>
        ensures some { IfSome result (λ p. self.now.later ≡ place_of p ∷ drop 1 self.now.later) }
        ensures none { IsNone result → self.now.later ≡ [] }
    {
        if self.more {
            Some(self.walk.place())
        } else {
            None
        }
    }

    /// Goes past the next packet.
    fn advance(&mut self)
        requires { 1 ≤ length self.old.later }
        ensures { self.new ≡ record self.old { later = drop 1 self.old.later } }
    {
        self.more = self.walk.advance();
    }

    /// Writes an empty packet: a packet header of the one bit 0, and EPH where the main header asks for it (T.800 B.10.3, A.8.2).
    fn write_empty<D: Duct>(&self, duct: &mut D) -> PutOut
        ensures { (es : List Event)
            × Puts (empty_packet self.now.head) (D.meaning duct.old) (D.meaning duct.new) result es }
    {
        if self.walk.geometry().head().eph() {
            put(duct, &[0, 0xFF, 0x92])
        } else {
            put(duct, &[0])
        }
    }

    /// Writes an empty packet for each precinct before `place`, whose packet is then the next to be written.
    pub fn fill_up_to<D: Duct>(&mut self, duct: &mut D, place: Place) -> PutOut
        ensures writes { (es : List Event)
            × Puts (empty_packets self.old.head (places_before (place_of place) self.old.later))
            (D.meaning duct.old) (D.meaning duct.new) result es }
        ensures past { result ≡ PutOut.Done
            → self.new ≡ record self.old { later = places_after (place_of place) self.old.later } }
    {
        while let Some(next) = self.next() {
            self.advance();
            if is_same(place, next) {
                return PutOut::Done;
            }
            match self.write_empty(duct) {
                PutOut::Done => {}
                PutOut::WriteFault => return PutOut::WriteFault,
            }
        }
        PutOut::Done
    }

    /// Writes an empty packet for each precinct that is left, and EOC (T.800 A.4.4).
    pub fn close<D: Duct>(&mut self, duct: &mut D) -> PutOut
        ensures { (es : List Event)
            × Puts (closing (Some self.old)) (D.meaning duct.old) (D.meaning duct.new) result es }
    {
        while let Some(_) = self.next() {
            self.advance();
            match self.write_empty(duct) {
                PutOut::Done => {}
                PutOut::WriteFault => return PutOut::WriteFault,
            }
        }
        put(duct, &[0xFF, 0xD9])
    }
}
