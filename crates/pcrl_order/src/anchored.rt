//! The precincts of an image, each with its anchor, by which they are sorted.
ghost use Rattle.std.specs.Prelude.{◌≡◌, ◌≤◌, ◌<◌, ◌+◌, ◌++◌, OnOk, IfOk, length, map};
ghost use Rattle.std.specs.List.Sorted.{IsPermutation, IsSorted};
ghost use Rattle.codestream_model.specs.Precincts as precincts;
ghost use Rattle.codestream_model.specs.PacketOrder as order;
ghost use Rattle.precinct_geometry.specs.Spans.{place_of};
ghost use Rattle.pcrl_order.specs.Anchors.{anchored_of, by_fields, component_places, place_in};

use j2k_markers::RPCL;
use precinct_geometry::{Geometry, Place};
use std::alloc::{AllocError, Global};

/// A precinct, its rank and its anchor. Their order, by the fields from first to last, is that of the packets: no two
/// precincts of an image differ in `k` alone.
#[derive(Clone, Copy, Debug, Default, PartialEq, Eq, PartialOrd, Ord)]
pub struct Anchored {
    pub rank: u8,
    pub y: u64,
    pub x: u64,
    pub c: u8,
    pub r: u8,
    pub k: u32,
}

/// What packets are ordered by before all else: in RPCL the resolution, in PCRL nothing.
pub fn rank(geometry: &Geometry, r: u8) -> u8
    ensures { result ≡ order.rank geometry.now r }
{
    if geometry.head().order() == RPCL {
        r
    } else {
        0
    }
}

/// The number of precincts of a resolution.
fn count(geometry: &Geometry, c: u8, r: u8) -> u32
    requires component { c < length geometry.now.steps }
    requires resolution { r ≤ geometry.now.levels }
    ensures { result ≡ precincts.precinct_count geometry.now c r }
{
    geometry.head().is_within_limits();
    let (columns, rows) = geometry.counts(c, r);
    columns * rows
}

/// A precinct with its rank and its anchor.
fn with_anchor(geometry: &Geometry, place: Place) -> Anchored
    requires { precincts.IsPrecinct geometry.now (place_of place) }
    ensures { result ≡ anchored_of geometry.now (place_of place) }
{
    let (y, x) = geometry.anchor(place);
    Anchored {
        rank: rank(geometry, place.r),
        y,
        x,
        c: place.c,
        r: place.r,
        k: place.k,
    }
}

/// Adds the precincts of a resolution.
fn add_resolution(
    found: &mut Vec<Anchored>,
    geometry: &Geometry,
    c: u8,
    r: u8,
) -> Result<(), AllocError>
    requires component { c < length geometry.now.steps }
    requires resolution { r ≤ geometry.now.levels }
    ensures { OnOk result (found.new.items ≡ found.old.items ++ map (anchored_of geometry.now) (order.places_of geometry.now c r)) }
{
    for k in 0..count(geometry, c, r) {
        found.push(with_anchor(geometry, Place { c, r, k }))?;
    }
    Ok(())
}

/// Adds the precincts of a component.
fn add_component(found: &mut Vec<Anchored>, geometry: &Geometry, c: u8) -> Result<(), AllocError>
    requires { c < length geometry.now.steps }
    ensures { OnOk result (found.new.items ≡ found.old.items ++ map (anchored_of geometry.now) (component_places geometry.now c (geometry.now.levels + 1))) }
{
    for r in 0..geometry.head().levels() + 1 {
        add_resolution(found, geometry, c, r)?;
    }
    Ok(())
}

/// All precincts of an image, with their anchors.
pub fn all_anchored(alloc: Global, geometry: &Geometry) -> Result<Vec<Anchored>, AllocError>
    ensures { IfOk result (λ found. found.items ≡ map (anchored_of geometry.now) (order.all_places geometry.now)) }
{
    let mut found = Vec::new(alloc);
    for c in 0..geometry.head().components() {
        add_component(&mut found, geometry, c)?;
    }
    Ok(found)
}

/// Puts precincts with their anchors in the order of their packets.
pub fn put_in_order(found: &mut Vec<Anchored>)
    ensures same { IsPermutation found.old.items found.new.items }
    ensures sorted { IsSorted by_fields found.new.items }
{
    found.sort_unstable();
}

/// The precincts without their anchors.
pub fn places_alone(alloc: Global, found: &[Anchored]) -> Result<Vec<Place>, AllocError>
    ensures { IfOk result (λ places. map place_of places.items ≡ map place_in found.now) }
{
    let mut places = Vec::with_capacity(alloc, found.len())?;
    for one in found {
        places.push(Place {
            c: one.c,
            r: one.r,
            k: one.k,
        })?;
    }
    Ok(places)
}
