//! The strips of the precincts of a resolution, one after another in one direction (T.800 B.6).
ghost use Rattle.std.specs.Prelude.{◌≡◌, ◌≤◌, ◌<◌, ◌+◌, ◌*◌, ◌/◌, ◌^◌};
ghost use Rattle.codestream_model.specs.Precincts.{strips as strips_in};
ghost use Rattle.precinct_geometry.specs.Spans.{span_of};
ghost use Rattle.precinct_geometry.specs.Courses.{IsFirstFrom, corner_of, IsCourse};

use crate::areas::{Span, ceil_div, over_power, power, strips};

/// The strips in one direction: where the image begins on the reference grid, the number of the first strip that has
/// samples, the width of a strip on the grid, and how many strips have samples.
#[derive(Clone, Copy, Debug, PartialEq, Eq)]
pub struct Course {
    pub start: u64,
    pub first: u64,
    pub width: u64,
    pub count: u32,
}

impl Course {
    /// The anchor of a strip: where it begins on the reference grid, or where the image does if that is later.
    pub fn anchor(self, strip: u32) -> u64
        requires course { IsCourse self }
        requires strip { strip < self.count }
        ensures { result ≡ corner_of self strip }
    {
        self.start.max((self.first + u64::from(strip)) * self.width)
    }

    /// The first strip whose anchor isn't before a place of the grid. It may be past the last.
    pub fn first_from(self, place: u64) -> u64
        requires course { IsCourse self }
        requires place { place < 2 ^ 62 }
        ensures { IsFirstFrom self place result }
    {
        if place <= self.start {
            return 0;
        }
        ceil_div(place, self.width).saturating_sub(self.first)
    }
}

/// The strips of 2^e samples of a resolution in which this stretch of it has samples.
pub fn course_of(start: u32, stretch: Span, step: u8, e: u8, deeper: u8) -> Course
    requires start { start < 2 ^ 31 }
    requires from { stretch.from < 2 ^ 31 }
    requires to { stretch.to < 2 ^ 31 }
    requires step { 1 ≤ step }
    requires e { e ≤ 15 }
    requires deeper { deeper ≤ 15 }
    ensures start { result.start ≡ start }
    ensures first { result.first ≡ stretch.from / 2 ^ e }
    ensures width { result.width ≡ step * 2 ^ (e + deeper) }
    ensures count { result.count ≡ strips_in e (span_of stretch) }
    ensures course { IsCourse result }
{
    Course {
        start: u64::from(start),
        first: over_power(stretch.from, e),
        width: u64::from(step) * (power(e) * power(deeper)),
        count: strips(e, stretch) as u32,
    }
}
