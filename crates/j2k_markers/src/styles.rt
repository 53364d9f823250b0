//! The conditions on CAP, extended capabilities (T.800 A.5.2, T.814), and on COD, coding style default
//! (T.800 A.6.1).
//!
//! CAP has Pcap in four bytes and Ccap15 in two. COD has Scod; the progression order; the layers in two
//! bytes; the component transform; N_L; xcb - 2; ycb - 2; the code-block style; the wavelet; and, with the
//! lowest bit of Scod, a byte for each resolution: PPx in the lower four bits, PPy in the upper four.
ghost use Rattle.std.specs.Prelude.{◌≡◌, ◌<◌, ◌≤◌, ◌+◌, length, take, drop, slice_index, map, true, ◌==◌, ◌||◌, OnOk, if◌then◌else◌};
ghost use Rattle.codestream_model.specs.HeadRefusals.{first_refusal};
ghost use Rattle.codestream_model.specs.SegmentTests.{cap_tests, cod_tests, scod, cod_order, cod_layers, cod_levels, cod_style, cod_block, has_sizes, has_eph, cod_precinct, cod_precincts};
ghost use Rattle.std.specs.List.{list_any};
ghost use Rattle.j2k_markers.specs.Fields.{pair};
ghost use Rattle.j2k_markers.specs.Sound.{IsWholeCod};
ghost use Rattle.j2k_markers.specs.Refusals.{judged};

use crate::head::{HeadWhy, PCRL, RPCL};
use crate::numbers::{number_16, number_32, stated_length};
use arrayvec::ArrayVec;

/// The offset of the precinct sizes.
const FIRST_PRECINCT: usize = 10;

/// Pcap with the bit of part 15 alone.
const PART_15: u32 = 0x0002_0000;

/// The least Ccap15 with one of its upper three bits: other than HT code-blocks, or several sets in one.
const NOT_HT_ALONE: u16 = 0x2000;

/// The first condition on CAP that is met.
#[tactic(auto, unfolding(codestream_model::specs::SegmentTests::cap_tests))]
pub(crate) fn judge_cap(content: &[u8]) -> Result<(), HeadWhy>
    requires { 4 ≤ length content.now }
    ensures { result ≡ judged (first_refusal (cap_tests content.now)) }
{
    if number_32(content, 0) != PART_15 {
        return Err(HeadWhy::Cap);
    }
    if stated_length(content) != 8 {
        return Err(HeadWhy::Length);
    }
    if number_16(content, 4) >= NOT_HT_ALONE {
        return Err(HeadWhy::Cap);
    }
    Ok(())
}

/// Scod, the coding style.
fn scod(content: &[u8]) -> u8
    requires { 10 ≤ length content.now }
    ensures { result ≡ scod content.now }
{
    content[0]
}

/// The number of the progression order.
pub(crate) fn cod_order(content: &[u8]) -> u8
    requires { 10 ≤ length content.now }
    ensures { result ≡ cod_order content.now }
{
    content[1]
}

/// The number of layers.
fn cod_layers(content: &[u8]) -> u16
    requires { 10 ≤ length content.now }
    ensures { result ≡ cod_layers content.now }
{
    number_16(content, 2)
}

/// N_L, the number of decomposition levels.
pub(crate) fn cod_levels(content: &[u8]) -> u8
    requires { 10 ≤ length content.now }
    ensures { result ≡ cod_levels content.now }
{
    content[5]
}

/// The code-block style.
fn cod_style(content: &[u8]) -> u8
    requires { 10 ≤ length content.now }
    ensures { result ≡ cod_style content.now }
{
    content[8]
}

/// Whether the precinct sizes are given.
fn has_sizes(content: &[u8]) -> bool
    requires { 10 ≤ length content.now }
    ensures { result ≡ has_sizes content.now }
{
    scod(content) % 2 == 1
}

/// Whether an EPH marker follows each packet header, that of an empty packet too.
pub(crate) fn has_eph(content: &[u8]) -> bool
    requires { 10 ≤ length content.now }
    ensures { result ≡ has_eph content.now }
{
    scod(content) / 4 % 2 == 1
}

/// xcb and ycb.
pub(crate) fn cod_block(content: &[u8]) -> (u8, u8)
    requires long { 10 ≤ length content.now }
    requires wide { slice_index content.now 6 ≤ 8 }
    requires high { slice_index content.now 7 ≤ 8 }
    ensures { pair result ≡ cod_block content.now }
{
    (content[6] + 2, content[7] + 2)
}

/// PPx and PPy of a resolution.
fn cod_precinct(content: &[u8], r: usize) -> (u8, u8)
    requires long { 10 ≤ length content.now }
    requires there { has_sizes content.now ≡ true → 10 + r < length content.now }
    ensures { pair result ≡ cod_precinct content.now r }
{
    if has_sizes(content) {
        let sizes = content[FIRST_PRECINCT + r];
        (sizes % 16, sizes / 16)
    } else {
        (15, 15)
    }
}

/// PPx and PPy of each resolution, from the lowest on.
pub(crate) fn cod_precincts(content: &[u8]) -> ArrayVec<(u8, u8), 16>
    requires { IsWholeCod content.now }
    ensures { map pair result.items ≡ cod_precincts content.now }
{
    let mut precincts = ArrayVec::new();
    for r in 0..usize::from(cod_levels(content)) + 1 {
        precincts.push(cod_precinct(content, r));
    }
    precincts
}

/// The length that COD states, with N_L and with or without precinct sizes.
fn cod_length(content: &[u8]) -> usize
    requires { 10 ≤ length content.now }
    ensures { result ≡ (if has_sizes content.now then 13 + cod_levels content.now else 12) }
{
    if has_sizes(content) {
        13 + usize::from(cod_levels(content))
    } else {
        12
    }
}

/// The conditions on the coding style, the order, the layers, the levels and the length that follows.
#[tactic(auto, unfolding(codestream_model::specs::SegmentTests::cod_tests))]
fn judge_order(content: &[u8]) -> Result<(), HeadWhy>
    requires { 10 ≤ length content.now }
    ensures judged { result ≡ judged (first_refusal (take 6 (cod_tests content.now))) }
    ensures whole { OnOk result (IsWholeCod content.now) }
{
    if scod(content) >= 8 {
        return Err(HeadWhy::Style);
    }
    if scod(content) / 2 % 2 == 1 {
        return Err(HeadWhy::Sop);
    }
    if cod_order(content) != RPCL && cod_order(content) != PCRL {
        return Err(HeadWhy::Order);
    }
    if cod_layers(content) != 1 {
        return Err(HeadWhy::Layers);
    }
    if cod_levels(content) > 15 {
        return Err(HeadWhy::Levels);
    }
    if stated_length(content) != cod_length(content) {
        return Err(HeadWhy::Length);
    }
    Ok(())
}

/// Whether a precinct above the lowest resolution has one sample in a direction.
fn any_is_least(precincts: &[(u8, u8)]) -> bool
    ensures { result ≡ list_any (λ e. e.x == 0 || e.y == 0) (map pair precincts.now) }
{
    for exponents in precincts {
        if exponents.0 == 0 || exponents.1 == 0 {
            return true;
        }
    }
    false
}

/// The conditions on the code-blocks and the precincts.
#[tactic(auto, unfolding(codestream_model::specs::SegmentTests::cod_tests))]
fn judge_blocks(content: &[u8]) -> Result<(), HeadWhy>
    requires { IsWholeCod content.now }
    ensures { result ≡ judged (first_refusal (drop 6 (cod_tests content.now))) }
{
    if content[6] > 8 {
        return Err(HeadWhy::Blocks);
    }
    if content[7] > 8 {
        return Err(HeadWhy::Blocks);
    }
    let (x, y) = cod_block(content);
    if x + y > 12 {
        return Err(HeadWhy::Blocks);
    }
    if cod_style(content) != 0x40 && cod_style(content) != 0x48 {
        return Err(HeadWhy::Style);
    }
    if any_is_least(&cod_precincts(content)[1..]) {
        return Err(HeadWhy::Precinct);
    }
    Ok(())
}

/// The first condition on COD that is met.
pub(crate) fn judge_cod(content: &[u8]) -> Result<(), HeadWhy>
    requires { 10 ≤ length content.now }
    ensures { result ≡ judged (first_refusal (cod_tests content.now)) }
{
    judge_order(content)?;
    judge_blocks(content)
}
