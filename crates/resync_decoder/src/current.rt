//! The main header in force.
ghost use Rattle.std.specs.Prelude.{◌≡◌, ◌∷◌, [], Some, None, IfSome, option_map};
ghost use Rattle.codestream_model.specs.PacketOrder.{packet_order};
ghost use Rattle.codestream_model.specs.Precincts.{IsPrecinct};
ghost use Rattle.stream_model.specs.Decoder as rules;
ghost use Rattle.stream_model.specs.Decoder.{run_of, from_place};
ghost use Rattle.precinct_geometry.specs.Spans.{place_of};
ghost use Rattle.pcrl_order.specs.Later.{later};
ghost use Rattle.resync_decoder.specs.InForce.{current_with};
ghost use Rattle.resync_decoder.specs.Runs.{run_from};

use codestream_model::{packet_order_is_computed, pids_are_distinct};
use j2k_markers::Head;
use pcrl_order::{Cursor, later_is_the_rest, places_from_one_on};
use precinct_geometry::{Geometry, Place};
use std::marker::Model;

/// An accepted main header and the timestamp of its codestream.
#[derive(Drop)]
pub struct Current {
    stamp: u32,
    geometry: Geometry,
}

impl Model for Current {
    ghost use Rattle.resync_decoder.specs.InForce.{InForce};

    ghost Value = { InForce };

    ghost view = { λ c. record { stamp = c.stamp; head = c.geometry } };
}

impl Current {
    /// This header, in force with this timestamp.
    pub fn new(stamp: u32, head: Head) -> Current
        ensures { result ≡ record { stamp = stamp; head = head } }
    {
        Current {
            stamp,
            geometry: Geometry::new(head),
        }
    }

    /// The timestamp of its codestream.
    pub fn stamp(&self) -> u32
        ensures { result ≡ self.now.stamp }
    {
        self.stamp
    }

    /// The geometry of its precincts.
    pub fn geometry(&self) -> &Geometry
        ensures { result.now ≡ self.now.head }
    {
        &self.geometry
    }

    /// The first precinct of its packet order.
    pub fn first(&self) -> Place
        ensures order { packet_order self.now.head
            ≡ place_of result ∷ later self.now.head (place_of result) }
        ensures precinct { IsPrecinct self.now.head (place_of result) }
    {
        Cursor::first(&self.geometry).place()
    }

    /// The precinct with a number, or None where no precinct has it.
    pub fn find(&self, pid: u32) -> Option<Place>
        ensures place { option_map place_of result
            ≡ rules.place_of (current_with [] self.now) pid }
        ensures precinct { IfSome result (λ p. IsPrecinct self.now.head (place_of p)) }
    {
        pids_are_distinct();
        packet_order_is_computed();
        later_is_the_rest();
        self.geometry.head().is_within_limits();
        self.geometry.of_pid(pid)
    }

    /// The precinct after one in the packet order, or None after the last.
    pub fn after(&self, place: Place) -> Option<Place>
        requires { IsPrecinct self.now.head (place_of place) }
        ensures run { run_from self.now.head result ≡ run_of (later self.now.head (place_of place)) }
        ensures precinct { IfSome result (λ p. IsPrecinct self.now.head (place_of p)) }
    {
        let mut cursor = Cursor::at(&self.geometry, place);
        if cursor.advance(&self.geometry) {
            Some(cursor.place())
        } else {
            None
        }
    }

    /// Proof only: the packet order from a precinct on.
    pub fn order_from(&self, place: Place)
        requires { IsPrecinct self.now.head (place_of place) }
        ensures { from_place (place_of place) (packet_order self.now.head)
            ≡ place_of place ∷ later self.now.head (place_of place) }
    {
        packet_order_is_computed();
        later_is_the_rest();
        places_from_one_on();
        self.geometry.head().is_within_limits();
        let _ = place;
    }
}
