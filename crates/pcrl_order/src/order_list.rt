//! The packet order as a list.
ghost use Rattle.std.specs.Prelude.{◌≡◌, IfOk, map};
ghost use Rattle.codestream_model.specs.PacketOrder.{IsPacketOrder};
ghost use Rattle.precinct_geometry.specs.Spans.{place_of};

use crate::anchored::{all_anchored, places_alone, put_in_order};
use precinct_geometry::{Geometry, Place};
use std::alloc::{AllocError, Global};
use std::marker::Model;

/// The precincts of an image in the order of their packets.
#[derive(Drop)]
pub struct OrderList {
    places: Vec<Place>,
}

impl Model for OrderList {
    ghost use Rattle.std.specs.Prelude.{List, map};
    ghost use Rattle.codestream_model.specs.Values as values;
    ghost use Rattle.precinct_geometry.specs.Spans.{place_of};

    ghost Value = { List values.Place };

    ghost view = { λ a. map place_of a.places.items };
}

impl OrderList {
    /// The packet order of an image. `AllocError` where memory ran out.
    pub fn build(alloc: Global, geometry: &Geometry) -> Result<OrderList, AllocError>
        ensures { IfOk result (λ list. IsPacketOrder geometry.now list) }
    {
        geometry.head().is_within_limits();
        let mut found = all_anchored(alloc, geometry)?;
        put_in_order(&mut found);
        let places = places_alone(alloc, &found)?;
        Ok(OrderList { places })
    }

    /// The precincts, each once, in the order of their packets: by the anchor's y and x, the component and the
    /// resolution, and in RPCL by the resolution before these.
    pub fn places(&self) -> &[Place]
        ensures { map place_of result.now ≡ self.now }
    {
        &self.places
    }
}
