//! A walk over the precincts of an image in packet order (T.800 B.12.1.3, B.12.1.4). It keeps a candidate of each
//! resolution, the next precinct there, so that a step only compares the candidates and replaces one of them.
ghost use Rattle.std.specs.Prelude.{◌≡◌, ◌≤◌, ◌<◌, ◌+◌, ◌*◌, ◌∷◌, [], true, false, IfSome, IsNone, length};
ghost use Rattle.codestream_model.specs.Precincts.{IsPrecinct};
ghost use Rattle.codestream_model.specs.PacketOrder.{packet_order, anchor};
ghost use Rattle.precinct_geometry.specs.Spans.{place_of};
ghost use Rattle.pcrl_order.specs.Ahead.{rest, numbers_of, numbers_after, least_numbers, IsLeastAt, IsThere, IsAhead, IsAheadIn};
ghost use Rattle.pcrl_order.specs.Least.{numbers_in, IsLeastOf, IsOfEarlier};

use crate::anchored::Anchored;
use crate::cursor::{Key, least_in_resolution};
use arrayvec::ArrayVec;
use precinct_geometry::{Geometry, Place};
use std::marker::Model;

/// The greatest number of resolutions of all components.
const MOST_RESOLUTIONS: usize = 256;

/// A candidate of each resolution.
type Candidates = ArrayVec<Anchored, MOST_RESOLUTIONS>;

/// The key of a precinct.
fn key_of(one: &Anchored) -> Key
    ensures { numbers_in result ≡ numbers_of one.now }
{
    Key {
        rank: one.rank,
        y: one.y,
        x: one.x,
        c: one.c,
        r: one.r,
    }
}

/// The least key after that of a precinct.
fn key_after(one: &Anchored) -> Key
    requires { one.now.r < 255 }
    ensures numbers { numbers_in result ≡ numbers_after one.now }
    ensures y { result.y ≡ one.now.y }
    ensures x { result.x ≡ one.now.x }
{
    Key {
        r: one.r + 1,
        ..key_of(one)
    }
}

/// Whether a candidate isn't before `from`, and comes before the best one so far.
fn is_better(nexts: &[Anchored], from: Key, at: usize, best: Option<usize>) -> bool
    requires at { at < length nexts.now }
    requires best { IsLeastAt nexts.now (numbers_in from) at best }
    ensures better { result ≡ true → IsLeastAt nexts.now (numbers_in from) (at + 1) (Some at) }
    ensures not_better { result ≡ false → IsLeastAt nexts.now (numbers_in from) (at + 1) best }
{
    let key = key_of(&nexts[at]);
    if !from.is_up_to(key) {
        return false;
    }
    match best {
        Some(least) => !key_of(&nexts[least]).is_up_to(key),
        None => true,
    }
}

/// The index of the candidate with the least key from one on.
fn least_index(nexts: &[Anchored], from: Key) -> Option<usize>
    ensures { IsLeastAt nexts.now (numbers_in from) (length nexts.now) result }
{
    let mut best = None;
    for index in 0..nexts.len() {
        if is_better(nexts, from, index, best) {
            best = Some(index);
        }
    }
    best
}

/// The precinct with the least key from one on. The next one of its resolution replaces it among the candidates.
fn take_next(geometry: &Geometry, nexts: &mut [Anchored], from: Key) -> Option<Anchored>
    requires { IsAhead geometry.now (numbers_in from) nexts.old }
    ensures least { IsLeastOf geometry.now (numbers_in from) (IsPrecinct geometry.now) result }
    ensures there { IfSome result (IsThere geometry.now) }
    ensures some { IfSome result (λ a. IsAhead geometry.now (numbers_after a) nexts.new) }
    ensures none { IsNone result → nexts.new ≡ nexts.old }
    ensures count { length nexts.new ≡ length nexts.old }
{
    geometry.head().is_within_limits();
    let index = least_index(nexts, from)?;
    let least = nexts[index];
    let area = geometry.component_area(least.c);
    if let Some(next) = least_in_resolution(geometry, area, key_after(&least), least.c, least.r) {
        nexts[index] = next;
    }
    Some(least)
}

/// Adds the first precinct of each resolution of a component.
fn add_component(nexts: &mut Candidates, geometry: &Geometry, c: u8)
    requires component { c < length geometry.now.steps }
    requires room { length nexts.old.items ≤ 16 * c }
    requires ahead { IsAheadIn geometry.now (IsOfEarlier c 0) least_numbers nexts.old.items }
    ensures room { length nexts.new.items ≤ 16 * (c + 1) }
    ensures ahead { IsAheadIn geometry.now (IsOfEarlier (c + 1) 0) least_numbers nexts.new.items }
{
    geometry.head().is_within_limits();
    let area = geometry.component_area(c);
    for r in 0..geometry.head().levels() + 1 {
        if let Some(first) = least_in_resolution(geometry, area, Key::least(), c, r) {
            nexts.push(first);
        }
    }
}

/// The first precinct of each resolution.
fn all_first(geometry: &Geometry) -> Candidates
    ensures { IsAhead geometry.now least_numbers result.items }
{
    geometry.head().is_within_limits();
    let mut nexts = Candidates::new();
    for c in 0..geometry.head().components() {
        add_component(&mut nexts, geometry, c);
    }
    nexts
}

/// A walk over the precincts of an image in packet order. Contracts see the image's header and the precinct where it is.
#[derive(Drop)]
pub struct OrderWalk {
    geometry: Geometry,
    here: Anchored,
    nexts: Candidates,
}

impl Model for OrderWalk {
    ghost use Rattle.pcrl_order.specs.Ahead.{OrderPlace, IsWalk};
    ghost use Rattle.pcrl_order.specs.Anchors.{place_in};

    ghost Value = { OrderPlace };

    ghost view = { λ a. record { head = a.geometry; place = place_in a.here } };

    ghost invariant = { λ a. IsWalk a.geometry a.here a.nexts.items };
}

impl OrderWalk {
    /// At the first precinct of the image.
    pub fn new(geometry: Geometry) -> OrderWalk
        ensures head { result.head ≡ geometry }
        ensures first { packet_order result.head ≡ result.place ∷ rest result }
        ensures precinct { IsPrecinct result.head result.place }
    {
        geometry.head().is_within_limits();
        let mut nexts = all_first(&geometry);
        let Some(here) = take_next(&geometry, &mut nexts, Key::least()) else {
            unreachable!();
        };
        OrderWalk {
            geometry,
            here,
            nexts,
        }
    }

    /// The geometry of the image.
    pub fn geometry(&self) -> &Geometry
        ensures { result.now ≡ self.now.head }
    {
        &self.geometry
    }

    /// The precinct where the walk is.
    pub fn place(&self) -> Place
        ensures { place_of result ≡ self.now.place }
    {
        Place {
            c: self.here.c,
            r: self.here.r,
            k: self.here.k,
        }
    }

    /// The anchor of that precinct on the reference grid, as (y, x).
    pub fn anchor(&self) -> (u64, u64)
        ensures y { result.0 ≡ (anchor self.now.head self.now.place).y }
        ensures x { result.1 ≡ (anchor self.now.head self.now.place).x }
    {
        (self.here.y, self.here.x)
    }

    /// Moves to the next precinct of the image. False, and nothing changes, at the last one.
    pub fn advance(&mut self) -> bool
        ensures head { self.new.head ≡ self.old.head }
        ensures next { result ≡ true → rest self.old ≡ self.new.place ∷ rest self.new }
        ensures last { result ≡ false → (rest self.old ≡ []) × (self.new ≡ self.old) }
        ensures precinct { IsPrecinct self.new.head self.new.place }
    {
        self.geometry.head().is_within_limits();
        match take_next(&self.geometry, &mut self.nexts, key_after(&self.here)) {
            Some(next) => {
                self.here = next;
                true
            }
            None => false,
        }
    }
}
