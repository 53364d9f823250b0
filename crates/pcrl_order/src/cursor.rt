//! The packet order as a cursor that moves from one precinct to the next, without memory (T.800 B.12.1.3, B.12.1.4).
ghost use Rattle.std.specs.Prelude.{◌≡◌, ◌≤◌, ◌<◌, ◌+◌, ◌^◌, ◌↔◌, ◌∷◌, [], true, false, IfSome, IsNone, IsTrue, length};
ghost use Rattle.codestream_model.specs.Areas.{component_area};
ghost use Rattle.codestream_model.specs.Precincts.{IsPrecinct};
ghost use Rattle.codestream_model.specs.PacketOrder.{packet_order};
ghost use Rattle.precinct_geometry.specs.Courses.{IsCourse};
ghost use Rattle.precinct_geometry.specs.Spans.{area_of, place_of, IsWithin};
ghost use Rattle.pcrl_order.specs.Anchors.{place_in};
ghost use Rattle.pcrl_order.specs.Later.{later};
ghost use Rattle.pcrl_order.specs.Least.{IsChoice, IsLeastIn, NoneIn, IsStartIn, IsPast, IsNear, numbers_in, IsUpTo, IsLeastOf, IsOfEarlier, IsInResolution};

use crate::anchored::{Anchored, rank};
use precinct_geometry::{Area, Course, Geometry, Place};
use std::marker::Model;

/// The row and the column of the first precinct of a resolution, by its anchor, whose anchor isn't before (y, x) on the
/// reference grid. They may be past the last.
fn row_and_column(rows: Course, columns: Course, y: u64, x: u64) -> (u64, u64)
    requires rows { IsCourse rows }
    requires columns { IsCourse columns }
    requires y { y < 2 ^ 60 }
    requires x { x < 2 ^ 60 }
    ensures choice { IsChoice rows columns y x result.0 result.1 }
    ensures column { 0 < columns.count → result.1 < columns.count }
{
    let there = rows.first_from(y);
    if u64::from(rows.count) <= there || y < rows.anchor(there as u32) {
        return (there, 0);
    }
    let right = columns.first_from(x);
    if right < u64::from(columns.count) {
        return (there, right);
    }
    (rows.first_from(y + 1), 0)
}

/// The first precinct of a resolution, by its anchor, whose anchor isn't before (y, x) on the reference grid.
fn least_in(geometry: &Geometry, area: Area, c: u8, r: u8, y: u64, x: u64) -> Option<Anchored>
    requires component { c < length geometry.now.steps }
    requires resolution { r ≤ geometry.now.levels }
    requires area { area_of area ≡ component_area geometry.now c }
    requires within { IsWithin area }
    requires y { y < 2 ^ 60 }
    requires x { x < 2 ^ 60 }
    ensures some { IfSome result (λ a. IsLeastIn geometry.now c r y x a) }
    ensures near { IfSome result IsNear }
    ensures none { IsNone result → NoneIn geometry.now c r y x }
{
    geometry.head().is_within_limits();
    let rows = geometry.rows(c, r, area);
    let columns = geometry.columns(c, r, area);
    let (row, column) = row_and_column(rows, columns, y, x);
    if u64::from(rows.count) <= row || columns.count == 0 {
        return None;
    }
    let (row, column) = (row as u32, column as u32);
    Some(Anchored {
        rank: rank(geometry, r),
        y: rows.anchor(row),
        x: columns.anchor(column),
        c,
        r,
        k: row * columns.count + column,
    })
}

/// What packets are ordered by: the rank, the anchor's y and x, the component, the resolution.
#[derive(Clone, Copy, Debug, PartialEq, Eq)]
pub(crate) struct Key {
    pub(crate) rank: u8,
    pub(crate) y: u64,
    pub(crate) x: u64,
    pub(crate) c: u8,
    pub(crate) r: u8,
}

impl Key {
    /// The least key.
    pub(crate) fn least() -> Key
        ensures { numbers_in result ≡ 0 ∷ 0 ∷ 0 ∷ 0 ∷ 0 ∷ [] }
    {
        Key {
            rank: 0,
            y: 0,
            x: 0,
            c: 0,
            r: 0,
        }
    }

    /// Whether this key comes before another, or is the same.
    pub(crate) fn is_up_to(self, other: Key) -> bool
        ensures { IsTrue result ↔ IsUpTo (numbers_in self) (numbers_in other) }
    {
        if self.rank != other.rank {
            return self.rank < other.rank;
        }
        if self.y != other.y {
            return self.y < other.y;
        }
        if self.x != other.x {
            return self.x < other.x;
        }
        if self.c != other.c {
            return self.c < other.c;
        }
        self.r <= other.r
    }
}

/// The place (y, x) of the reference grid from which on the anchors of a resolution of this rank aren't before the key,
/// or None where all of them are.
fn start_in(from: Key, rank: u8, c: u8, r: u8) -> Option<(u64, u64)>
    requires y { from.y < 2 ^ 56 }
    requires x { from.x < 2 ^ 56 }
    ensures start { IsStartIn from rank c r result }
    ensures near_y { IfSome result (λ s. s.0 < 2 ^ 60) }
    ensures near_x { IfSome result (λ s. s.1 < 2 ^ 60) }
{
    if rank < from.rank {
        return None;
    }
    if rank > from.rank {
        return Some((0, 0));
    }
    if c < from.c || (c == from.c && r < from.r) {
        return Some((from.y, from.x + 1));
    }
    Some((from.y, from.x))
}

/// The precinct of a resolution with the least key from one on.
pub(crate) fn least_in_resolution(
    geometry: &Geometry,
    area: Area,
    from: Key,
    c: u8,
    r: u8,
) -> Option<Anchored>
    requires component { c < length geometry.now.steps }
    requires resolution { r ≤ geometry.now.levels }
    requires area { area_of area ≡ component_area geometry.now c }
    requires within { IsWithin area }
    requires y { from.y < 2 ^ 56 }
    requires x { from.x < 2 ^ 56 }
    ensures least { IsLeastOf geometry.now (numbers_in from) (IsInResolution c r) result }
    ensures there { IfSome result (λ a. IsInResolution c r (place_in a)) }
    ensures near { IfSome result IsNear }
{
    let (y, x) = start_in(from, rank(geometry, r), c, r)?;
    least_in(geometry, area, c, r, y, x)
}

/// Whether each precinct of this rank comes after the one that was found.
fn is_past(best: Option<Anchored>, rank: u8) -> bool
    ensures { result ≡ true → IsPast best rank }
{
    match best {
        Some(least) => least.rank < rank,
        None => false,
    }
}

/// The precinct with the least key from one on, once one more resolution was looked at.
fn with_resolution(
    geometry: &Geometry,
    area: Area,
    from: Key,
    c: u8,
    r: u8,
    best: Option<Anchored>,
) -> Option<Anchored>
    requires component { c < length geometry.now.steps }
    requires resolution { r ≤ geometry.now.levels }
    requires area { area_of area ≡ component_area geometry.now c }
    requires within { IsWithin area }
    requires y { from.y < 2 ^ 56 }
    requires x { from.x < 2 ^ 56 }
    requires best { IsLeastOf geometry.now (numbers_in from) (IsOfEarlier c r) best }
    ensures { IsLeastOf geometry.now (numbers_in from) (IsOfEarlier c (r + 1)) result }
{
    if is_past(best, rank(geometry, r)) {
        return best;
    }
    let Some(one) = least_in_resolution(geometry, area, from, c, r) else {
        return best;
    };
    let Some(least) = best else {
        return Some(one);
    };
    Some(if one.cmp(&least).is_lt() { one } else { least })
}

/// The precinct with the least key from one on, once one more component was looked at.
fn with_component(geometry: &Geometry, from: Key, c: u8, best: Option<Anchored>) -> Option<Anchored>
    requires component { c < length geometry.now.steps }
    requires y { from.y < 2 ^ 56 }
    requires x { from.x < 2 ^ 56 }
    requires best { IsLeastOf geometry.now (numbers_in from) (IsOfEarlier c 0) best }
    ensures { IsLeastOf geometry.now (numbers_in from) (IsOfEarlier (c + 1) 0) result }
{
    let area = geometry.component_area(c);
    let mut best = best;
    for r in 0..geometry.head().levels() + 1 {
        best = with_resolution(geometry, area, from, c, r, best);
    }
    best
}

/// The precinct with the least key from one on.
fn least_from(geometry: &Geometry, from: Key) -> Option<Anchored>
    requires y { from.y < 2 ^ 56 }
    requires x { from.x < 2 ^ 56 }
    ensures { IsLeastOf geometry.now (numbers_in from) (IsPrecinct geometry.now) result }
{
    let mut best = None;
    for c in 0..geometry.head().components() {
        best = with_component(geometry, from, c, best);
    }
    best
}

/// A precinct of an image, from which one goes on to the next in packet order. It is seen as that precinct.
#[derive(Drop)]
pub struct Cursor {
    place: Place,
}

impl Model for Cursor {
    ghost use Rattle.codestream_model.specs.Values as values;
    ghost use Rattle.precinct_geometry.specs.Spans.{place_of};

    ghost Value = { values.Place };

    ghost view = { λ a. place_of a.place };
}

impl Cursor {
    /// The first precinct of the image.
    pub fn first(geometry: &Geometry) -> Cursor
        ensures first { packet_order geometry.now ≡ result ∷ later geometry.now result }
        ensures precinct { IsPrecinct geometry.now result }
    {
        geometry.head().is_within_limits();
        let Some(first) = least_from(geometry, Key::least()) else {
            unreachable!();
        };
        Cursor {
            place: Place {
                c: first.c,
                r: first.r,
                k: first.k,
            },
        }
    }

    /// At this precinct of the image.
    pub fn at(geometry: &Geometry, place: Place) -> Cursor
        requires { IsPrecinct geometry.now (place_of place) }
        ensures { result ≡ place_of place }
    {
        let _ = geometry;
        Cursor { place }
    }

    /// The precinct at which the cursor is.
    pub fn place(&self) -> Place
        ensures { place_of result ≡ self.now }
    {
        self.place
    }

    /// Moves to the next precinct of the image. False, and nothing changes, at the last one. One call looks at each
    /// component and resolution once.
    pub fn advance(&mut self, geometry: &Geometry) -> bool
        requires { IsPrecinct geometry.now self.old }
        ensures next { result ≡ true → later geometry.now self.old ≡ self.new ∷ later geometry.now self.new }
        ensures last { result ≡ false → (later geometry.now self.old ≡ []) × (self.new ≡ self.old) }
        ensures precinct { IsPrecinct geometry.now self.new }
    {
        geometry.head().is_within_limits();
        let (y, x) = geometry.anchor(self.place);
        let Some(next) = least_from(
            geometry,
            Key {
                rank: rank(geometry, self.place.r),
                y,
                x,
                c: self.place.c,
                r: self.place.r + 1,
            },
        ) else {
            return false;
        };
        self.place = Place {
            c: next.c,
            r: next.r,
            k: next.k,
        };
        true
    }
}
