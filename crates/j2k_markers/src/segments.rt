//! One segment of a header, judged after the segments that were read before it (T.800 A.1): a marker, a
//! length that counts itself and the content, and the content.
ghost use Rattle.std.specs.Prelude.{◌≡◌, ◌<◌, ◌≤◌, ◌+◌, ◌==◌, ℕ, [], length, if◌then◌else◌, IfOk, OnOk};
ghost use Rattle.codestream_model.specs.Bytes.{two_at};
ghost use Rattle.codestream_model.specs.HeadRefusals.{first_refusal};
ghost use Rattle.codestream_model.specs.MainHeader.{stands_once, is_main_marker, is_tile_marker, least_length};
ghost use Rattle.codestream_model.specs.RefusedHeader.{wanting, skipped_tests};
ghost use Rattle.codestream_model.specs.Segments.{SIZ, CAP, COD, QCD, SOT, segment_at, behind_segment};
ghost use Rattle.j2k_markers.specs.Refusals.{judged, why_of, without_value};
ghost use Rattle.j2k_markers.specs.Sound.{IsSoundSiz, IsSoundCod};
ghost use Rattle.j2k_markers.specs.Before.{content_kept, place_kept, marker_tests, length_tests, kept_tests, kept_content_tests, IsSoundBefore, IsKept, IsFront, IsTurn};

use crate::components::judge_siz;
use crate::head::{HeadFault, HeadWhy};
use crate::markers::{CAP, COD, COM, CPF, CRG, PLM, PLT, PRF, QCC, QCD, SIZ, SOD, SOT, TLM};
use crate::numbers::number_16;
use crate::styles::{judge_cap, judge_cod};
use crate::tiles::judge_tile;

/// The bytes of a header: no byte past these is looked at.
pub(crate) const REACH: usize = 8192;

/// What has been read of a header.
#[derive(Clone, Copy)]
pub(crate) struct Before<'a> {
    /// Where the next segment starts.
    pub(crate) at: usize,
    /// The content of SIZ; it is empty where SIZ was not there, and so are the next three.
    pub(crate) siz: &'a [u8],
    pub(crate) cap: &'a [u8],
    pub(crate) cod: &'a [u8],
    pub(crate) qcd: &'a [u8],
    /// Where QCD starts, if it was there.
    pub(crate) qcd_at: usize,
}

/// A segment.
#[derive(Clone, Copy)]
pub(crate) struct Segment<'a> {
    pub(crate) marker: u16,
    pub(crate) content: &'a [u8],
}

/// What follows SOT.
#[derive(Clone, Copy)]
pub(crate) enum Turn<'a> {
    /// SOD.
    End,
    /// A segment that is passed over.
    Passed(Segment<'a>),
}

/// Why a header is refused where a byte past those in reach is wanted.
fn wanting(bytes: &[u8]) -> HeadWhy
    ensures { result ≡ why_of (wanting bytes.now) }
{
    if bytes.len() < REACH {
        HeadWhy::Cut
    } else {
        HeadWhy::TooLong
    }
}

/// Whether a segment is allowed once.
fn stands_once(marker: u16) -> bool
    ensures { result ≡ stands_once marker }
{
    marker == SIZ || marker == CAP || marker == COD || marker == QCD
}

/// Whether a segment is allowed before SOT.
fn is_main_marker(marker: u16) -> bool
    ensures { result ≡ is_main_marker marker }
{
    stands_once(marker)
        || marker == QCC
        || marker == TLM
        || marker == PLM
        || marker == CPF
        || marker == PRF
        || marker == CRG
        || marker == COM
}

/// Whether a segment is allowed after SOT.
fn is_tile_marker(marker: u16) -> bool
    ensures { result ≡ is_tile_marker marker }
{
    marker == PLT || marker == COM
}

/// The least length that a segment states.
fn least_length(marker: u16) -> u16
    ensures { result ≡ least_length marker }
{
    match marker {
        SIZ => 41,
        CAP => 6,
        COD => 12,
        QCD => 4,
        _ => 2,
    }
}

/// The content of SIZ, CAP, COD or QCD, which is empty where the segment was not there.
fn content_kept<'a>(before: &Before<'a>, marker: u16) -> &'a [u8]
    ensures { result.now ≡ content_kept before.now marker }
{
    match marker {
        SIZ => before.siz,
        CAP => before.cap,
        COD => before.cod,
        QCD => before.qcd,
        _ => &[],
    }
}

/// The conditions on the marker of a segment.
fn judge_marker(before: &Before, marker: u16) -> Result<(), HeadWhy>
    ensures judged { result ≡ judged (first_refusal (marker_tests before.now marker)) }
    ensures siz { OnOk result (marker ≡ SOT → 0 < length before.now.siz.now) }
    ensures cod { OnOk result (marker ≡ SOT → 0 < length before.now.cod.now) }
    ensures qcd { OnOk result (marker ≡ SOT → 0 < length before.now.qcd.now) }
{
    if before.siz.is_empty() && marker != SIZ {
        return Err(HeadWhy::NoSiz);
    }
    if !is_main_marker(marker) && marker != SOT {
        return Err(HeadWhy::Marker(marker));
    }
    if stands_once(marker) && !content_kept(before, marker).is_empty() {
        return Err(HeadWhy::Twice(marker));
    }
    if marker == SOT && before.cap.is_empty() {
        return Err(HeadWhy::Missing(CAP));
    }
    if marker == SOT && before.cod.is_empty() {
        return Err(HeadWhy::Missing(COD));
    }
    if marker == SOT && before.qcd.is_empty() {
        return Err(HeadWhy::Missing(QCD));
    }
    Ok(())
}

/// The conditions on the length that a segment states.
fn judge_length(marker: u16, stated: u16) -> Result<(), HeadWhy>
    ensures judged { result ≡ judged (first_refusal (length_tests marker stated)) }
    ensures least { OnOk result (least_length marker ≤ stated) }
    ensures ten { OnOk result (marker ≡ SOT → stated ≡ 10) }
{
    if stated < least_length(marker) {
        return Err(HeadWhy::Length);
    }
    if marker == SOT && stated != 10 {
        return Err(HeadWhy::Length);
    }
    Ok(())
}

/// The conditions on the content of a segment, which is as long as its marker needs.
fn judge_content(before: &Before, marker: u16, content: &[u8]) -> Result<(), HeadWhy>
    requires least { least_length marker ≤ 2 + length content.now }
    requires eight { marker ≡ SOT → length content.now ≡ 8 }
    requires siz { marker ≡ SOT → IsSoundSiz before.now.siz.now }
    requires cod { marker ≡ SOT → IsSoundCod before.now.cod.now }
    requires qcd { marker ≡ SOT → 0 < length before.now.qcd.now }
    ensures { result ≡ judged (first_refusal (kept_content_tests before.now marker content.now)) }
{
    match marker {
        SIZ => judge_siz(content),
        CAP => judge_cap(content),
        COD => judge_cod(content),
        SOT => judge_tile(before.siz, before.cod, before.qcd, content),
        _ => Ok(()),
    }
}

/// The segment at the front of the bytes that are left, up to SOT.
pub(crate) fn next_segment<'a>(
    bytes: &[u8],
    before: &Before<'a>,
    rest: &'a [u8],
) -> Result<Segment<'a>, HeadWhy>
    requires { IsSoundBefore before.now }
    ensures judged { without_value result ≡ judged (first_refusal (kept_tests bytes.now before.now rest.now)) }
    ensures front { IfOk result (λ s. IsFront s rest.now) }
    ensures least { IfOk result (λ s. least_length s.marker ≤ 2 + length s.content.now) }
    ensures eight { IfOk result (λ s. s.marker ≡ SOT → length s.content.now ≡ 8) }
    ensures siz { IfOk result (λ s. s.marker ≡ SOT → IsSoundSiz before.now.siz.now) }
    ensures cod { IfOk result (λ s. s.marker ≡ SOT → IsSoundCod before.now.cod.now) }
{
    if rest.len() < 2 {
        return Err(wanting(bytes));
    }
    let marker = number_16(rest, 0);
    judge_marker(before, marker)?;
    if rest.len() < 4 {
        return Err(wanting(bytes));
    }
    let stated = number_16(rest, 2);
    judge_length(marker, stated)?;
    let end = 2 + usize::from(stated);
    if rest.len() < end {
        return Err(wanting(bytes));
    }
    let content = &rest[4..end];
    judge_content(before, marker, content)?;
    Ok(Segment { marker, content })
}

/// What follows SOT and segments that are passed over: one more, or SOD.
#[tactic(auto, unfolding(codestream_model::specs::RefusedHeader::skipped_tests))]
pub(crate) fn next_turn<'a>(bytes: &[u8], rest: &'a [u8]) -> Result<Turn<'a>, HeadWhy>
    ensures judged { without_value result ≡ judged (first_refusal (skipped_tests bytes.now (two_at rest.now 0) (two_at rest.now 2) (length rest.now))) }
    ensures turn { IfOk result (λ turn. IsTurn turn rest.now) }
{
    if rest.len() < 2 {
        return Err(wanting(bytes));
    }
    let marker = number_16(rest, 0);
    if marker == SOD {
        return Ok(Turn::End);
    }
    if !is_tile_marker(marker) {
        return Err(HeadWhy::Marker(marker));
    }
    if rest.len() < 4 {
        return Err(wanting(bytes));
    }
    let stated = number_16(rest, 2);
    if stated < 2 {
        return Err(HeadWhy::Length);
    }
    let end = 2 + usize::from(stated);
    if rest.len() < end {
        return Err(wanting(bytes));
    }
    let content = &rest[4..end];
    Ok(Turn::Passed(Segment { marker, content }))
}

/// What is after the segment at the front.
pub(crate) fn rest_behind<'a>(rest: &'a [u8], segment: &Segment) -> &'a [u8]
    requires { IsFront segment.now rest.now }
    ensures behind { result.now ≡ behind_segment rest.now }
    ensures shorter { length result.now + 4 + length segment.now.content.now ≡ length rest.now }
{
    &rest[4 + segment.content.len()..]
}

/// The refusal of what follows these segments, at its place.
pub(crate) fn fault(bytes: &[u8], before: &Before, why: HeadWhy) -> HeadFault
    requires cut { why ≡ HeadWhy.Cut → length bytes.now < 8192 }
    requires at { before.now.at ≤ 8192 }
    requires qcd_at { before.now.qcd_at ≤ 8192 }
    ensures at { result.at ≡ place_kept bytes.now before.now why }
    ensures why { result.why ≡ why }
{
    let at = match why {
        HeadWhy::Cut => bytes.len(),
        HeadWhy::TooLong => REACH,
        HeadWhy::NoSoc => 0,
        HeadWhy::Quant if !before.qcd.is_empty() => before.qcd_at,
        _ => before.at,
    };
    HeadFault { at: at as u32, why }
}

impl<'a> Before<'a> {
    /// Nothing but SOC has been read.
    pub(crate) fn new() -> Self
        ensures kept { IsKept result [] }
        ensures sound { IsSoundBefore result }
        ensures qcd_at { result.qcd_at ≤ 8192 }
    {
        Before {
            at: 2,
            siz: &[],
            cap: &[],
            cod: &[],
            qcd: &[],
            qcd_at: 2,
        }
    }

    /// What has been read with this segment too.
    pub(crate) fn with(self, segment: Segment<'a>) -> Self
        requires { self.at + 4 + length segment.content.now ≤ 8192 }
        ensures at { result.at ≡ self.entry.at + 4 + length segment.entry.content.now }
        ensures siz { result.siz.now ≡ (if segment.entry.marker == SIZ then segment.entry.content.now else self.entry.siz.now) }
        ensures cap { result.cap.now ≡ (if segment.entry.marker == CAP then segment.entry.content.now else self.entry.cap.now) }
        ensures cod { result.cod.now ≡ (if segment.entry.marker == COD then segment.entry.content.now else self.entry.cod.now) }
        ensures qcd { result.qcd.now ≡ (if segment.entry.marker == QCD then segment.entry.content.now else self.entry.qcd.now) }
        ensures qcd_at { result.qcd_at ≡ (if segment.entry.marker == QCD then self.entry.at else self.entry.qcd_at) }
    {
        let mut before = self;
        match segment.marker {
            SIZ => before.siz = segment.content,
            CAP => before.cap = segment.content,
            COD => before.cod = segment.content,
            QCD => {
                before.qcd = segment.content;
                before.qcd_at = self.at;
            }
            _ => {}
        }
        before.at += 4 + segment.content.len();
        before
    }
}
