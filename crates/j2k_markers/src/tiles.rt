//! The conditions on SOT, start of tile-part (T.800 A.4.2), and those that are judged with it: on QCD,
//! quantisation default (T.800 A.6.4), and on the numbers of the precincts.
//!
//! SOT has Isot in two bytes; Psot in four; TPsot; TNsot. QCD has Sqcd, whose lower five bits are the style,
//! and the step values.
ghost use Rattle.std.specs.Prelude.{◌≡◌, ◌≤◌, ◌+◌, ℕ, [], length, take, drop};
ghost use Rattle.codestream_model.specs.HeadRefusals.{first_refusal};
ghost use Rattle.codestream_model.specs.SegmentTests.{isot, sot_psot, tpsot, tnsot, quant_style, quant_length};
ghost use Rattle.j2k_markers.specs.Before.{sot_tests};
ghost use Rattle.j2k_markers.specs.Fields.{fields_head, head_from, IsSoundFields};
ghost use Rattle.j2k_markers.specs.Refusals.{judged};
ghost use Rattle.j2k_markers.specs.Sound.{IsSoundSiz, IsSoundCod};

use crate::components::{siz_steps, xosiz, xsiz, yosiz, ysiz};
use crate::head::{Fields, HeadWhy};
use crate::identifiers::has_great_pid;
use crate::numbers::{number_16, number_32, stated_length};
use crate::styles::{cod_block, cod_levels, cod_order, cod_precincts, has_eph};

/// Isot, the number of the tile.
fn isot(content: &[u8]) -> u16
    requires { 8 ≤ length content.now }
    ensures { result ≡ isot content.now }
{
    number_16(content, 0)
}

/// Psot, the length of the tile-part.
pub(crate) fn sot_psot(content: &[u8]) -> u32
    requires { 8 ≤ length content.now }
    ensures { result ≡ sot_psot content.now }
{
    number_32(content, 2)
}

/// TPsot, the number of the tile-part.
fn tpsot(content: &[u8]) -> u8
    requires { 8 ≤ length content.now }
    ensures { result ≡ tpsot content.now }
{
    content[6]
}

/// TNsot, the number of tile-parts, or 0.
fn tnsot(content: &[u8]) -> u8
    requires { 8 ≤ length content.now }
    ensures { result ≡ tnsot content.now }
{
    content[7]
}

/// The style of the quantisation, the lower five bits of Sqcd.
fn quant_style(content: &[u8]) -> u8
    requires { 1 ≤ length content.now }
    ensures { result ≡ quant_style content.now }
{
    content[0] % 32
}

/// What SIZ and COD with these contents say.
pub(crate) fn fields_of(siz: &[u8], cod: &[u8]) -> Fields
    requires siz { IsSoundSiz siz.now }
    requires cod { IsSoundCod cod.now }
    ensures values { (psot sot n : ℕ) → fields_head result psot sot n ≡ head_from siz.now cod.now psot sot n }
    ensures sound { IsSoundFields result }
    ensures few { length result.steps.items ≤ 16 }
{
    Fields {
        x0: xosiz(siz),
        y0: yosiz(siz),
        x1: xsiz(siz),
        y1: ysiz(siz),
        steps: siz_steps(siz),
        levels: cod_levels(cod),
        block: cod_block(cod),
        precincts: cod_precincts(cod),
        order: cod_order(cod),
        eph: has_eph(cod),
    }
}

/// The conditions on the tile-part: the first of one at most, of the first tile.
#[tactic(auto, unfolding(codestream_model::specs::SegmentTests::tile_tests))]
fn judge_part(content: &[u8]) -> Result<(), HeadWhy>
    requires { length content.now ≡ 8 }
    ensures { result ≡ judged (first_refusal (take 3 (sot_tests [] [] [] content.now))) }
{
    if isot(content) != 0 {
        return Err(HeadWhy::TileHeader);
    }
    if tpsot(content) != 0 {
        return Err(HeadWhy::TileHeader);
    }
    if tnsot(content) > 1 {
        return Err(HeadWhy::TileHeader);
    }
    Ok(())
}

/// The length that QCD states in a style: no quantisation, derived steps, or a step for each band.
fn quant_length(style: u8, levels: u8) -> usize
    ensures { result ≡ quant_length style levels }
{
    match style {
        0 => 4 + 3 * usize::from(levels),
        1 => 5,
        _ => 5 + 6 * usize::from(levels),
    }
}

/// The conditions on the quantisation.
#[tactic(auto, unfolding(codestream_model::specs::SegmentTests::tile_tests))]
fn judge_quant(qcd: &[u8], cod: &[u8]) -> Result<(), HeadWhy>
    requires qcd { 1 ≤ length qcd.now }
    requires cod { 10 ≤ length cod.now }
    ensures { result ≡ judged (first_refusal (take 2 (drop 3 (sot_tests [] cod.now qcd.now [])))) }
{
    let style = quant_style(qcd);
    if style > 2 {
        return Err(HeadWhy::Quant);
    }
    if stated_length(qcd) != quant_length(style, cod_levels(cod)) {
        return Err(HeadWhy::Quant);
    }
    Ok(())
}

/// The condition on the numbers of the precincts.
fn judge_numbers(siz: &[u8], cod: &[u8]) -> Result<(), HeadWhy>
    requires siz { IsSoundSiz siz.now }
    requires cod { IsSoundCod cod.now }
    ensures { result ≡ judged (first_refusal (drop 5 (sot_tests siz.now cod.now [] []))) }
{
    if has_great_pid(&fields_of(siz, cod)) {
        return Err(HeadWhy::Ids);
    }
    Ok(())
}

/// The first condition that is met of those judged at SOT, with the contents of SIZ, COD and QCD before it.
pub(crate) fn judge_tile(siz: &[u8], cod: &[u8], qcd: &[u8], content: &[u8]) -> Result<(), HeadWhy>
    requires siz { IsSoundSiz siz.now }
    requires cod { IsSoundCod cod.now }
    requires qcd { 1 ≤ length qcd.now }
    requires eight { length content.now ≡ 8 }
    ensures { result ≡ judged (first_refusal (sot_tests siz.now cod.now qcd.now content.now)) }
{
    judge_part(content)?;
    judge_quant(qcd, cod)?;
    judge_numbers(siz, cod)
}
