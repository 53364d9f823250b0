//! The numbers of precincts, PID: whether one would be 2^20 or more. They are counted with more than 64
//! bits, since sixteen components may have more precincts than 64 bits can count.
ghost use Rattle.std.specs.Prelude.{◌≡◌, ◌<◌, ◌≤◌, ◌+◌, ◌-◌, ◌*◌, ◌^◌, ℕ, length, nat_lt};
ghost use Rattle.codestream_model.specs.Areas.{ceil_div, step_of};
ghost use Rattle.codestream_model.specs.Precincts.{strips, precinct_count, precinct_exponents};
ghost use Rattle.codestream_model.specs.PacketOrder.{precincts_below};
ghost use Rattle.codestream_model.specs.SegmentTests.{pids_end, has_great_pid};
ghost use Rattle.j2k_markers.specs.Fields.{pair, fields_head, IsSoundFields};

use crate::head::Fields;
use crate::numbers::rounded_up;

/// One more than the greatest PID.
const PID_LIMIT: u128 = 1 << 20;

/// How many strips of 2^exponent places, laid from 0 on, a stretch has places in (T.800 B.6).
fn strips(exponent: u8, from: u32, to: u32) -> u32
    requires { exponent ≤ 15 }
    ensures { result ≡ strips exponent (record { from = from; to = to }) }
{
    if to == from {
        return 0;
    }
    let size = 1u32 << exponent;
    rounded_up(to, size).saturating_sub(from / size)
}

/// A place of the reference grid in a component and a resolution of it, a number of levels below the full one
/// (T.800 B.2, B.5).
fn placed(place: u32, step: u8, below: u8) -> u32
    requires step { 0 < step }
    requires few { below ≤ 15 }
    ensures { result ≡ ceil_div (ceil_div place step) (2 ^ below) }
{
    rounded_up(rounded_up(place, u32::from(step)), 1 << below)
}

/// XRsiz and YRsiz of a component.
fn step(fields: &Fields, c: usize) -> (u8, u8)
    requires sound { IsSoundFields fields.now }
    requires component { c < length fields.now.steps.items }
    ensures step { pair result ≡ step_of (fields_head fields.now 0 0 0) c }
    ensures some_x { 0 < result.0 }
    ensures some_y { 0 < result.1 }
{
    fields.steps[c]
}

/// PPx and PPy of a resolution.
fn exponents(fields: &Fields, r: usize) -> (u8, u8)
    requires sound { IsSoundFields fields.now }
    requires resolution { r ≤ fields.now.levels }
    ensures exponents { pair result ≡ precinct_exponents (fields_head fields.now 0 0 0) r }
    ensures few_x { result.0 ≤ 15 }
    ensures few_y { result.1 ≤ 15 }
{
    fields.precincts[r]
}

/// The number of precincts of a component and a resolution.
fn count(fields: &Fields, c: usize, r: usize) -> u64
    requires sound { IsSoundFields fields.now }
    requires component { c < length fields.now.steps.items }
    requires resolution { r ≤ fields.now.levels }
    ensures { result ≡ precinct_count (fields_head fields.now 0 0 0) c r }
{
    let (step_x, step_y) = step(fields, c);
    let (exponent_x, exponent_y) = exponents(fields, r);
    let below = fields.levels - r as u8;
    let columns = strips(
        exponent_x,
        placed(fields.x0, step_x, below),
        placed(fields.x1, step_x, below),
    );
    let rows = strips(
        exponent_y,
        placed(fields.y0, step_y, below),
        placed(fields.y1, step_y, below),
    );
    u64::from(columns) * u64::from(rows)
}

/// The number of precincts of a component.
fn count_all(fields: &Fields, c: usize) -> u128
    requires sound { IsSoundFields fields.now }
    requires component { c < length fields.now.steps.items }
    ensures all { result ≡ precincts_below (fields_head fields.now 0 0 0) c (fields.now.levels + 1) }
    ensures few { result ≤ 2 ^ 68 }
{
    let mut total = 0;
    for r in 0..usize::from(fields.levels) + 1 {
        total += u128::from(count(fields, c, r));
    }
    total
}

/// One more than the greatest PID of a component's precincts.
fn end_of(fields: &Fields, c: usize) -> u128
    requires sound { IsSoundFields fields.now }
    requires few { length fields.now.steps.items ≤ 16 }
    requires component { c < length fields.now.steps.items }
    ensures { result ≡ pids_end (fields_head fields.now 0 0 0) c }
{
    let others = count_all(fields, c).saturating_sub(1);
    others * fields.steps.len() as u128 + c as u128 + 1
}

/// Whether a precinct would have a PID of 2^20 or more.
pub(crate) fn has_great_pid(fields: &Fields) -> bool
    requires sound { IsSoundFields fields.now }
    requires few { length fields.now.steps.items ≤ 16 }
    ensures { result ≡ has_great_pid (fields_head fields.now 0 0 0) }
{
    for c in 0..fields.steps.len() {
        if end_of(fields, c) > PID_LIMIT {
            return true;
        }
    }
    false
}
