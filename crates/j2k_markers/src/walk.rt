//! The walk over the segments of a header, from SOC up to SOD, in one pass.
ghost use Rattle.std.specs.Prelude.{◌≡◌, ◌<◌, ◌≤◌, ◌+◌, ℕ, List, ◌++◌, length, take, drop, None, IfOk, ◌↔◌};
ghost use Rattle.codestream_model.specs.Values as values;
ghost use Rattle.codestream_model.specs.HeadRefusals.{first_refusal};
ghost use Rattle.codestream_model.specs.MainHeader.{SpellsHead};
ghost use Rattle.codestream_model.specs.MainHeaderReading.{head_of};
ghost use Rattle.codestream_model.specs.RefusedHeader.{RefusesHead, in_reach, soc_tests};
ghost use Rattle.codestream_model.specs.SegmentTests.{sot_psot};
ghost use Rattle.j2k_markers.specs.Fields.{head_from};
ghost use Rattle.j2k_markers.specs.Refusals.{read_as, refusal_of};
ghost use Rattle.j2k_markers.specs.Sound.{IsSoundSiz, IsSoundCod};
ghost use Rattle.j2k_markers.specs.Walking.{ReadsTile};

use crate::head::{Head, HeadFault, HeadWhy};
use crate::markers::{SOC, SOT};
use crate::numbers::number_16;
use crate::segments::{Before, REACH, Turn, fault, next_segment, next_turn, rest_behind};
use crate::tiles::{fields_of, sot_psot};

/// The head of a header that ends with the SOD after what has been read.
fn whole_head(bytes: &[u8], before: &Before, tile: &[u8], sot: usize) -> Head
    requires siz { IsSoundSiz before.now.siz.now }
    requires cod { IsSoundCod before.now.cod.now }
    requires eight { length tile.now ≡ 8 }
    requires short { before.now.at + 2 ≤ 8192 }
    requires sot { sot ≤ 8192 }
    requires read { head_of bytes.now ≡ Ok (head_from before.now.siz.now before.now.cod.now (sot_psot tile.now) sot (before.now.at + 2)) }
    ensures { head_of bytes.now ≡ Ok result }
{
    let fields = fields_of(before.siz, before.cod);
    Head::new(fields, sot_psot(tile), sot as u32, before.at as u32 + 2)
}

/// The walk after SOT, whose content and place are given.
fn walk_tile<'a>(
    bytes: &[u8],
    start: Before<'a>,
    tile: &[u8],
    sot: usize,
    behind: &'a [u8],
) -> Result<Head, HeadFault>
    requires { ReadsTile bytes.now start tile.now sot behind.now }
    ensures { result ≡ read_as (head_of bytes.now) }
{
    let mut before = start;
    let mut rest = behind;
    'segments: loop {
        match next_turn(bytes, rest) {
            Err(why) => return Err(fault(bytes, &before, why)),
            Ok(Turn::End) => return Ok(whole_head(bytes, &before, tile, sot)),
            Ok(Turn::Passed(segment)) => {
                rest = rest_behind(rest, &segment);
                before = before.with(segment);
            }
        }
    }
}

/// The bytes after SOC that are within reach.
fn behind_soc(bytes: &[u8]) -> &[u8]
    requires { 2 ≤ length bytes.now }
    ensures { result.now ≡ drop 2 (in_reach bytes.now) }
{
    let reach = &bytes[..bytes.len().min(REACH)];
    &reach[2..]
}

/// The walk after SOC.
fn walk_main(bytes: &[u8]) -> Result<Head, HeadFault>
    requires { first_refusal (soc_tests bytes.now) ≡ None }
    ensures { result ≡ read_as (head_of bytes.now) }
{
    let mut before = Before::new();
    let mut rest = behind_soc(bytes);
    'segments: loop {
        match next_segment(bytes, &before, rest) {
            Err(why) => return Err(fault(bytes, &before, why)),
            Ok(segment) => {
                let sot = before.at;
                rest = rest_behind(rest, &segment);
                before = before.with(segment);
                if segment.marker == SOT {
                    return walk_tile(bytes, before, segment.content, sot, rest);
                }
            }
        }
    }
}

/// The whole walk.
fn walk(bytes: &[u8]) -> Result<Head, HeadFault>
    ensures { result ≡ read_as (head_of bytes.now) }
{
    if bytes.len() < 2 {
        return Err(HeadFault {
            at: bytes.len() as u32,
            why: HeadWhy::Cut,
        });
    }
    if number_16(bytes, 0) != SOC {
        return Err(HeadFault {
            at: 0,
            why: HeadWhy::NoSoc,
        });
    }
    walk_main(bytes)
}

/// Reads the main header at the front of `bytes` (T.800 Annex A, T.814), up to and including SOD.
///
/// It looks at no byte past SOD, and at none past the 8,192nd. It takes no memory.
///
/// # Errors
///
/// The first condition that is met, in the order in which reading judges, and its place: see [`HeadWhy`].
/// `Cut` and `TooLong` say that a byte is wanted after the last one given, or after the 8,192nd: the first
/// of them where fewer than 8,192 are given.
pub fn read_head(bytes: &[u8]) -> Result<Head, HeadFault>
    ensures judged { result ≡ read_as (head_of bytes.now) }
    ensures found { IfOk result (λ h. SpellsHead h (take h.length bytes.now)) }
    ensures only { (h : values.Head) (front more : List ℕ) → SpellsHead h front → bytes.now ≡ front ++ more → result ≡ Ok h }
    ensures refused { (at : ℕ) (why : HeadWhy) → (result ≡ Err (record { at = at; why = why })) ↔ RefusesHead bytes.now at (refusal_of why) }
    ensures wants { (at : ℕ) → result ≡ Err (record { at = at; why = HeadWhy.Cut }) → length bytes.now < 8192 }
{
    walk(bytes)
}
