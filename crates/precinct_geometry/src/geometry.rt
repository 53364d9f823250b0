//! Where the precincts of an image are, what code-blocks they have, and what their numbers are.
ghost use Rattle.std.specs.Prelude.{◌≡◌, ◌≤◌, ◌<◌, ◌+◌, ◌*◌, ◌/◌, ◌-◌, ◌^◌, ◌↔◌, IsTrue, IfSome, IsNone, length, map};
ghost use Rattle.std.specs.List.{sum_by};
ghost use Rattle.codestream_model.specs.Areas as areas;
ghost use Rattle.codestream_model.specs.Packet.{block_count};
ghost use Rattle.codestream_model.specs.Precincts as precincts;
ghost use Rattle.codestream_model.specs.PacketOrder as order;
ghost use Rattle.codestream_model.specs.Values as values;
ghost use Rattle.precinct_geometry.specs.Courses.{IsCourse};
ghost use Rattle.precinct_geometry.specs.Spans.{span_of, area_of, place_of, grid_of, IsWithin};

use crate::areas::{Span, band_span, corner, divided, divided_by_power, part, power, strips};
use crate::course::{Course, course_of};
use crate::place::{Bands, Grid, Place};
use arrayvec::ArrayVec;
use j2k_markers::{Head, MOST_COMPONENTS};
use std::marker::Model;

/// Places in x and in y.
#[derive(Clone, Copy, Debug, Default, PartialEq, Eq)]
pub struct Area {
    pub x: Span,
    pub y: Span,
}

/// The area of a component of a header's image.
fn area_of_component(head: &Head, c: u8) -> Area
    requires { c < length head.now.steps }
    ensures area { area_of result ≡ areas.component_area head.now c }
    ensures within { IsWithin result }
{
    let (x0, y0, x1, y1) = head.area();
    let (step_x, step_y) = head.step(c);
    let x = Span {
        from: u64::from(x0),
        to: u64::from(x1),
    };
    let y = Span {
        from: u64::from(y0),
        to: u64::from(y1),
    };
    Area {
        x: divided(u64::from(step_x), x),
        y: divided(u64::from(step_y), y),
    }
}

/// The geometry of the image that a main header describes.
#[derive(Drop)]
pub struct Geometry {
    head: Head,
    /// The areas of the components, so that they are divided once and not for each precinct.
    components: ArrayVec<Area, MOST_COMPONENTS>,
}

impl Model for Geometry {
    ghost use Rattle.codestream_model.specs.Values as values;

    ghost Value = { values.Head };

    ghost view = { λ g. g.head };

    ghost use Rattle.precinct_geometry.specs.Components.{IsLaidOut};

    ghost invariant = { λ g. IsLaidOut g.head g.components.items };
}

impl Geometry {
    /// The geometry of this header's image.
    pub fn new(head: Head) -> Geometry
        ensures { result ≡ head }
    {
        head.is_within_limits();
        let mut components = ArrayVec::new();
        for c in 0..head.components() {
            components.push(area_of_component(&head, c));
        }
        Geometry { head, components }
    }

    /// The header.
    pub fn head(&self) -> &Head
        ensures { result.now ≡ self.now }
    {
        &self.head
    }

    /// The area of a component.
    pub fn component_area(&self, c: u8) -> Area
        requires { c < length self.now.steps }
        ensures area { area_of result ≡ areas.component_area self.now c }
        ensures within { IsWithin result }
    {
        self.components[usize::from(c)]
    }

    /// The area of a resolution.
    fn resolution_area(&self, c: u8, r: u8) -> Area
        requires component { c < length self.now.steps }
        requires resolution { r ≤ self.now.levels }
        ensures area { area_of result ≡ areas.resolution_area self.now c r }
        ensures within { IsWithin result }
    {
        let area = self.component_area(c);
        let deeper = self.head.levels() - r;
        Area {
            x: divided_by_power(deeper, area.x),
            y: divided_by_power(deeper, area.y),
        }
    }

    /// The area of a band of a resolution.
    fn band_area(&self, c: u8, r: u8, band: u8) -> Area
        requires component { c < length self.now.steps }
        requires resolution { r ≤ self.now.levels }
        requires band { band ≤ 3 }
        ensures area { area_of result ≡ areas.band_area self.now c r band }
        ensures within { IsWithin result }
    {
        let area = self.component_area(c);
        let levels = self.head.levels();
        let level = if r == 0 { levels } else { levels - r + 1 };
        Area {
            x: band_span(level, band % 2, area.x),
            y: band_span(level, band / 2, area.y),
        }
    }

    /// The columns of precincts of a resolution.
    pub fn columns(&self, c: u8, r: u8, area: Area) -> Course
        requires component { c < length self.now.steps }
        requires resolution { r ≤ self.now.levels }
        requires area { area_of area ≡ areas.component_area self.now c }
        requires within { IsWithin area }
        ensures start { result.start ≡ self.now.x0 }
        ensures first { result.first ≡ (areas.resolution_area self.now c r).x.from / 2 ^ (precincts.precinct_exponents self.now r).x }
        ensures width { result.width ≡ (areas.step_of self.now c).x * 2 ^ ((precincts.precinct_exponents self.now r).x + (self.now.levels - r)) }
        ensures count { result.count ≡ precincts.precinct_columns self.now c r }
        ensures course { IsCourse result }
    {
        let (x0, _, _, _) = self.head.area();
        let (step, _) = self.head.step(c);
        let (e, _) = self.head.precinct(r);
        let deeper = self.head.levels() - r;
        course_of(x0, divided_by_power(deeper, area.x), step, e, deeper)
    }

    /// The rows of precincts of a resolution.
    pub fn rows(&self, c: u8, r: u8, area: Area) -> Course
        requires component { c < length self.now.steps }
        requires resolution { r ≤ self.now.levels }
        requires area { area_of area ≡ areas.component_area self.now c }
        requires within { IsWithin area }
        ensures start { result.start ≡ self.now.y0 }
        ensures first { result.first ≡ (areas.resolution_area self.now c r).y.from / 2 ^ (precincts.precinct_exponents self.now r).y }
        ensures width { result.width ≡ (areas.step_of self.now c).y * 2 ^ ((precincts.precinct_exponents self.now r).y + (self.now.levels - r)) }
        ensures count { result.count ≡ precincts.precinct_rows self.now c r }
        ensures course { IsCourse result }
    {
        let (_, y0, _, _) = self.head.area();
        let (_, step) = self.head.step(c);
        let (_, e) = self.head.precinct(r);
        let deeper = self.head.levels() - r;
        course_of(y0, divided_by_power(deeper, area.y), step, e, deeper)
    }

    /// The columns and the rows of precincts of a resolution.
    pub fn counts(&self, c: u8, r: u8) -> (u32, u32)
        requires component { c < length self.now.steps }
        requires resolution { r ≤ self.now.levels }
        ensures columns { result.0 ≡ precincts.precinct_columns self.now c r }
        ensures rows { result.1 ≡ precincts.precinct_rows self.now c r }
        ensures few_columns { result.0 < 2 ^ 31 }
        ensures few_rows { result.1 < 2 ^ 31 }
    {
        let area = self.resolution_area(c, r);
        let (e_x, e_y) = self.head.precinct(r);
        (strips(e_x, area.x) as u32, strips(e_y, area.y) as u32)
    }

    /// The number of precincts of a resolution.
    fn count(&self, c: u8, r: u8) -> u64
        requires component { c < length self.now.steps }
        requires resolution { r ≤ self.now.levels }
        ensures count { result ≡ precincts.precinct_count self.now c r }
        ensures few { result < 2 ^ 62 }
    {
        let (columns, rows) = self.counts(c, r);
        u64::from(columns) * u64::from(rows)
    }

    /// Whether the image has this precinct.
    pub fn holds(&self, p: Place) -> bool
        ensures { IsTrue result ↔ precincts.IsPrecinct self.now (place_of p) }
    {
        p.c < self.head.components()
            && p.r <= self.head.levels()
            && u64::from(p.k) < self.count(p.c, p.r)
    }

    /// Which strip of precincts this one is, in x and in y, counted from 0.
    fn strips_of(&self, p: Place) -> Strips
        requires { precincts.IsPrecinct self.now (place_of p) }
        ensures x { result.x ≡ precincts.strip_x self.now (place_of p) }
        ensures y { result.y ≡ precincts.strip_y self.now (place_of p) }
        ensures few_x { result.x < 2 ^ 40 }
        ensures few_y { result.y < 2 ^ 40 }
        ensures within_x { result.x * 2 ^ (precincts.precinct_exponents self.now p.r).x < 2 ^ 31 }
        ensures within_y { result.y * 2 ^ (precincts.precinct_exponents self.now p.r).y < 2 ^ 31 }
    {
        let area = self.resolution_area(p.c, p.r);
        let (e_x, e_y) = self.head.precinct(p.r);
        let (columns, _) = self.counts(p.c, p.r);
        Strips {
            x: area.x.from / power(e_x) + u64::from(p.k % columns),
            y: area.y.from / power(e_y) + u64::from(p.k / columns),
        }
    }

    /// The code-blocks of a precinct in a band of its resolution.
    fn grid(&self, p: Place, band: u8) -> Grid
        requires place { precincts.IsPrecinct self.now (place_of p) }
        requires band { band ≤ 3 }
        ensures grid { grid_of result ≡ precincts.grid self.now (place_of p) band }
        ensures few_columns { result.cols < 2 ^ 31 }
        ensures few_rows { result.rows < 2 ^ 31 }
    {
        let strips_here = self.strips_of(p);
        let area = self.band_area(p.c, p.r, band);
        let (e_x, e_y) = self.head().precinct(p.r);
        let (e_x, e_y) = (band_exponent(p.r, e_x), band_exponent(p.r, e_y));
        let x = part(strips_here.x, e_x, area.x);
        let y = part(strips_here.y, e_y, area.y);
        if x.to <= x.from || y.to <= y.from {
            return Grid {
                band,
                cols: 0,
                rows: 0,
            };
        }
        let (block_x, block_y) = self.head().block();
        Grid {
            band,
            cols: strips(block_x.min(e_x), x) as u32,
            rows: strips(block_y.min(e_y), y) as u32,
        }
    }

    /// The code-blocks of a precinct, which the image has: in LL, or in HL, LH and HH.
    pub fn bands(&self, p: Place) -> Bands
        requires { precincts.IsPrecinct self.now (place_of p) }
        ensures { map grid_of result.items ≡ precincts.grids self.now (place_of p) }
    {
        let mut bands = Bands::new();
        if p.r == 0 {
            bands.push(self.grid(p, 0));
        } else {
            bands.push(self.grid(p, 1));
            bands.push(self.grid(p, 2));
            bands.push(self.grid(p, 3));
        }
        bands
    }

    /// The number of code-blocks of a precinct in a band.
    fn blocks_in(&self, p: Place, band: u8) -> u64
        requires place { precincts.IsPrecinct self.now (place_of p) }
        requires band { band ≤ 3 }
        ensures blocks { result ≡ (precincts.grid self.now (place_of p) band).cols * (precincts.grid self.now (place_of p) band).rows }
        ensures few { result < 2 ^ 62 }
    {
        let grid = self.grid(p, band);
        u64::from(grid.cols) * u64::from(grid.rows)
    }

    /// The number of all code-blocks of a precinct, which the image has.
    pub fn blocks(&self, p: Place) -> u64
        requires { precincts.IsPrecinct self.now (place_of p) }
        ensures { result ≡ block_count (precincts.grids self.now (place_of p)) }
    {
        if p.r == 0 {
            self.blocks_in(p, 0)
        } else {
            self.blocks_in(p, 1) + self.blocks_in(p, 2) + self.blocks_in(p, 3)
        }
    }

    /// The number of a component's precincts below a resolution.
    fn below(&self, c: u8, r: u8) -> u32
        requires component { c < length self.now.steps }
        requires resolution { r ≤ self.now.levels }
        ensures count { result ≡ order.precincts_below self.now c r }
        ensures few { result ≤ 2 ^ 20 }
    {
        let _ = &self.head;
        let mut total = 0;
        for lower in 0..r {
            total += self.count(c, lower) as u32;
        }
        total
    }

    /// The number of a precinct, which the image has (PID, below 2^20).
    pub fn pid(&self, p: Place) -> u32
        requires { precincts.IsPrecinct self.now (place_of p) }
        ensures pid { result ≡ order.pid self.now (place_of p) }
        ensures few { result < 2 ^ 20 }
    {
        let components = u32::from(self.head.components());
        let s = self.below(p.c, p.r) + p.k;
        u32::from(p.c) + s * components
    }

    /// The precinct with this number, or None where no precinct has it.
    pub fn of_pid(&self, pid: u32) -> Option<Place>
        ensures some { IfSome result (λ p. precincts.IsPrecinct self.now (place_of p) × (order.pid self.now (place_of p) ≡ pid)) }
        ensures none { IsNone result → (p : values.Place) → precincts.IsPrecinct self.now p → order.pid self.now p ≡ pid → ⊥ }
    {
        let components = u32::from(self.head.components());
        let c = (pid % components) as u8;
        let mut left = u64::from(pid / components);
        for r in 0..self.head.levels() + 1 {
            let count = self.count(c, r);
            if left < count {
                return Some(Place {
                    c,
                    r,
                    k: left as u32,
                });
            }
            left -= count;
        }
        None
    }

    /// The anchor of a precinct, which the image has: where it begins on the reference grid, as (y, x).
    pub fn anchor(&self, p: Place) -> (u64, u64)
        requires { precincts.IsPrecinct self.now (place_of p) }
        ensures y { result.0 ≡ (order.anchor self.now (place_of p)).y }
        ensures x { result.1 ≡ (order.anchor self.now (place_of p)).x }
        ensures few_y { result.0 < 2 ^ 56 }
        ensures few_x { result.1 < 2 ^ 56 }
    {
        let strips_here = self.strips_of(p);
        let (x0, y0, _, _) = self.head.area();
        let (step_x, step_y) = self.head.step(p.c);
        let (e_x, e_y) = self.head.precinct(p.r);
        let deeper = self.head.levels() - p.r;
        let x = corner(strips_here.x, e_x, step_x, deeper);
        let y = corner(strips_here.y, e_y, step_y, deeper);
        (y.max(u64::from(y0)), x.max(u64::from(x0)))
    }
}

/// Which strips of precincts one is, in x and in y.
#[derive(Clone, Copy, Debug, PartialEq, Eq)]
struct Strips {
    x: u64,
    y: u64,
}

/// The exponent of a precinct in a band of its resolution: a band above the lowest resolution has half the places.
fn band_exponent(r: u8, e: u8) -> u8
    requires { 0 < r → 1 ≤ e }
    ensures value { result ≡ precincts.band_exponent r e }
    ensures less { result ≤ e }
{
    if r == 0 { e } else { e - 1 }
}
