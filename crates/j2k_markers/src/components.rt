//! The conditions on SIZ, image and tile size (T.800 A.5.1): Rsiz in two bytes; Xsiz, Ysiz, XOsiz, YOsiz,
//! XTsiz, YTsiz, XTOsiz and YTOsiz in four each; Csiz in two; Ssiz, XRsiz and YRsiz of each component.
ghost use Rattle.std.specs.Prelude.{◌≡◌, ◌<◌, ◌≤◌, ◌+◌, ◌*◌, ◌^◌, length, take, drop, map, nat_le, ◌||◌, ◌==◌, false, OnOk};
ghost use Rattle.codestream_model.specs.HeadRefusals.{first_refusal};
ghost use Rattle.codestream_model.specs.SegmentTests.{most_components, rsiz, xsiz, ysiz, xosiz, yosiz, xtsiz, ytsiz, xtosiz, ytosiz, csiz, siz_steps, siz_tests, is_empty};
ghost use Rattle.std.specs.List.{list_any};
ghost use Rattle.j2k_markers.specs.Fields.{pair};
ghost use Rattle.codestream_model.specs.Areas.{ceil_div};
ghost use Rattle.j2k_markers.specs.Refusals.{judged};

use crate::head::{HeadWhy, MOST_COMPONENTS};
use crate::numbers::{number_16, number_32, rounded_up, stated_length};
use arrayvec::ArrayVec;

/// The offset of XRsiz of the first component; each component has three bytes.
const FIRST_STEP: usize = 37;

/// One more than the greatest Xsiz and Ysiz of the profile.
const AREA_LIMIT: u32 = 0x8000_0000;

/// Rsiz, the capabilities.
fn rsiz(content: &[u8]) -> u16
    requires { 39 ≤ length content.now }
    ensures { result ≡ rsiz content.now }
{
    number_16(content, 0)
}

/// Xsiz, where the image ends in x.
pub(crate) fn xsiz(content: &[u8]) -> u32
    requires { 39 ≤ length content.now }
    ensures { result ≡ xsiz content.now }
{
    number_32(content, 2)
}

/// Ysiz, where it ends in y.
pub(crate) fn ysiz(content: &[u8]) -> u32
    requires { 39 ≤ length content.now }
    ensures { result ≡ ysiz content.now }
{
    number_32(content, 6)
}

/// XOsiz, where it begins in x.
pub(crate) fn xosiz(content: &[u8]) -> u32
    requires { 39 ≤ length content.now }
    ensures { result ≡ xosiz content.now }
{
    number_32(content, 10)
}

/// YOsiz, where it begins in y.
pub(crate) fn yosiz(content: &[u8]) -> u32
    requires { 39 ≤ length content.now }
    ensures { result ≡ yosiz content.now }
{
    number_32(content, 14)
}

/// XTsiz, the width of a tile.
fn xtsiz(content: &[u8]) -> u32
    requires { 39 ≤ length content.now }
    ensures { result ≡ xtsiz content.now }
{
    number_32(content, 18)
}

/// YTsiz, its height.
fn ytsiz(content: &[u8]) -> u32
    requires { 39 ≤ length content.now }
    ensures { result ≡ ytsiz content.now }
{
    number_32(content, 22)
}

/// XTOsiz, where the first tile begins in x.
fn xtosiz(content: &[u8]) -> u32
    requires { 39 ≤ length content.now }
    ensures { result ≡ xtosiz content.now }
{
    number_32(content, 26)
}

/// YTOsiz, where it begins in y.
fn ytosiz(content: &[u8]) -> u32
    requires { 39 ≤ length content.now }
    ensures { result ≡ ytosiz content.now }
{
    number_32(content, 30)
}

/// Csiz, the number of components.
fn csiz(content: &[u8]) -> u16
    requires { 39 ≤ length content.now }
    ensures { result ≡ csiz content.now }
{
    number_16(content, 34)
}

/// XRsiz and YRsiz of each component.
pub(crate) fn siz_steps(content: &[u8]) -> ArrayVec<(u8, u8), MOST_COMPONENTS>
    requires few { csiz content.now ≤ most_components }
    requires long { 39 ≤ length content.now }
    requires whole { length content.now ≡ 36 + 3 * csiz content.now }
    ensures { map pair result.items ≡ siz_steps content.now }
{
    let mut steps = ArrayVec::new();
    for c in 0..usize::from(csiz(content)) {
        let at = FIRST_STEP + 3 * c;
        steps.push((content[at], content[at + 1]));
    }
    steps
}

/// The conditions on the image area.
#[tactic(auto, unfolding(codestream_model::specs::SegmentTests::siz_tests))]
fn judge_area(content: &[u8]) -> Result<(), HeadWhy>
    requires { 39 ≤ length content.now }
    ensures { result ≡ judged (first_refusal (take 4 (drop 4 (siz_tests content.now)))) }
{
    if xsiz(content) >= AREA_LIMIT {
        return Err(HeadWhy::Area);
    }
    if ysiz(content) >= AREA_LIMIT {
        return Err(HeadWhy::Area);
    }
    if xsiz(content) <= xosiz(content) {
        return Err(HeadWhy::Area);
    }
    if ysiz(content) <= yosiz(content) {
        return Err(HeadWhy::Area);
    }
    Ok(())
}

/// The exact sum of two numbers of 32 bits.
fn sum(a: u32, b: u32) -> u64
    ensures { result ≡ a + b }
{
    u64::from(a) + u64::from(b)
}

/// The conditions on the one tile.
#[tactic(auto, unfolding(codestream_model::specs::SegmentTests::siz_tests))]
fn judge_tiles(content: &[u8]) -> Result<(), HeadWhy>
    requires { 39 ≤ length content.now }
    ensures { result ≡ judged (first_refusal (take 4 (drop 8 (siz_tests content.now)))) }
{
    if xosiz(content) < xtosiz(content) {
        return Err(HeadWhy::Tiles);
    }
    if yosiz(content) < ytosiz(content) {
        return Err(HeadWhy::Tiles);
    }
    if sum(xtosiz(content), xtsiz(content)) < u64::from(xsiz(content)) {
        return Err(HeadWhy::Tiles);
    }
    if sum(ytosiz(content), ytsiz(content)) < u64::from(ysiz(content)) {
        return Err(HeadWhy::Tiles);
    }
    Ok(())
}

/// Whether no place of the image, in one direction, is kept at this step.
fn is_passed_over(from: u32, to: u32, step: u8) -> bool
    requires { 0 < step }
    ensures { result ≡ nat_le (ceil_div to step) (ceil_div from step) }
{
    rounded_up(to, u32::from(step)) <= rounded_up(from, u32::from(step))
}

/// Whether a component with this step has no place in the image area.
fn is_empty(content: &[u8], step: (u8, u8)) -> bool
    requires long { 39 ≤ length content.now }
    requires some_x { 0 < step.0 }
    requires some_y { 0 < step.1 }
    ensures { result ≡ is_empty content.now (pair step) }
{
    is_passed_over(xosiz(content), xsiz(content), step.0)
        || is_passed_over(yosiz(content), ysiz(content), step.1)
}

/// Whether a component has a step of 0.
fn any_is_zero(steps: &[(u8, u8)]) -> bool
    ensures { result ≡ list_any (λ step. step.x == 0 || step.y == 0) (map pair steps.now) }
{
    for step in steps {
        if step.0 == 0 || step.1 == 0 {
            return true;
        }
    }
    false
}

/// Whether a component has no place in the image area.
fn any_is_empty(content: &[u8], steps: &[(u8, u8)]) -> bool
    requires long { 39 ≤ length content.now }
    requires some { list_any (λ step. step.x == 0 || step.y == 0) (map pair steps.now) ≡ false }
    ensures { result ≡ list_any (is_empty content.now) (map pair steps.now) }
{
    for step in steps {
        if is_empty(content, *step) {
            return true;
        }
    }
    false
}

/// The conditions on the components.
#[tactic(auto, unfolding(codestream_model::specs::SegmentTests::siz_tests))]
fn judge_steps(content: &[u8]) -> Result<(), HeadWhy>
    requires few { csiz content.now ≤ most_components }
    requires long { 39 ≤ length content.now }
    requires whole { length content.now ≡ 36 + 3 * csiz content.now }
    ensures { result ≡ judged (first_refusal (drop 12 (siz_tests content.now))) }
{
    let steps = siz_steps(content);
    if any_is_zero(&steps) {
        return Err(HeadWhy::Step);
    }
    if any_is_empty(content, &steps) {
        return Err(HeadWhy::Area);
    }
    Ok(())
}

/// The conditions on the number of components, on the length that follows from it, and on Rsiz.
#[tactic(auto, unfolding(codestream_model::specs::SegmentTests::siz_tests))]
fn judge_count(content: &[u8]) -> Result<(), HeadWhy>
    requires { 39 ≤ length content.now }
    ensures judged { result ≡ judged (first_refusal (take 4 (siz_tests content.now))) }
    ensures few { OnOk result (csiz content.now ≤ most_components) }
    ensures whole { OnOk result (length content.now ≡ 36 + 3 * csiz content.now) }
{
    if csiz(content) == 0 {
        return Err(HeadWhy::Components);
    }
    if usize::from(csiz(content)) > MOST_COMPONENTS {
        return Err(HeadWhy::Components);
    }
    if stated_length(content) != 38 + 3 * usize::from(csiz(content)) {
        return Err(HeadWhy::Length);
    }
    if rsiz(content) / 0x4000 % 2 == 0 {
        return Err(HeadWhy::Rsiz);
    }
    Ok(())
}

/// The first condition on SIZ that is met.
pub(crate) fn judge_siz(content: &[u8]) -> Result<(), HeadWhy>
    requires { 39 ≤ length content.now }
    ensures { result ≡ judged (first_refusal (siz_tests content.now)) }
{
    judge_count(content)?;
    judge_area(content)?;
    judge_tiles(content)?;
    judge_steps(content)
}
