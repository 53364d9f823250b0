//! The writer of main headers: a plan's values laid out as segments, if the reader takes them.
ghost use Rattle.std.specs.Prelude.{◌≡◌, ◌<◌, ◌≤◌, ◌+◌, ◌*◌, ◌^◌, ◌++◌, ◌∷◌, [], ℕ, length, IfOk, OnOk, replicate};
ghost use Rattle.std.specs.List.{All, flat_map};
ghost use Rattle.codestream_model.specs.Bytes.{two_bytes};
ghost use Rattle.codestream_model.specs.RefusedHeader.{RefusesHead};
ghost use Rattle.codestream_model.specs.Segments.{segment_bytes, segments_bytes};
ghost use Rattle.j2k_markers.specs.Layout.{four_bytes, step_bytes, precinct_byte, siz_content, cod_content, qcd_content, sot_content, plan_segments, plan_bytes, AreSegments, IsHeader};
ghost use Rattle.j2k_markers.specs.Refusals.{refusal_of};

use crate::head::{HeadWhy, MOST_COMPONENTS};
use crate::markers::{CAP, COD, QCD, SIZ, SOC, SOD, SOT};
use crate::walk::read_head;
use arrayvec::ArrayVec;
use std::alloc::{AllocError, Global};
use thiserror::Error;

/// The values of a header that is to be written.
#[derive(Debug, Drop)]
pub struct HeadPlan {
    /// XOsiz, YOsiz, Xsiz and Ysiz.
    pub area: (u32, u32, u32, u32),
    /// XRsiz and YRsiz of each component.
    pub steps: ArrayVec<(u8, u8), MOST_COMPONENTS>,
    /// N_L, the number of decomposition levels.
    pub levels: u8,
    /// xcb and ycb, each at least 2.
    pub block: (u8, u8),
    /// The code-block style.
    pub style: u8,
    /// PPx and PPy of each resolution from the lowest on, each at most 15; where there are none, no sizes
    /// are written, and all exponents are 15.
    pub precincts: ArrayVec<(u8, u8), 16>,
    /// Psot.
    pub psot: u32,
    /// Whole segments, none of them SOT, that are placed before SOT.
    pub extra: Vec<u8>,
    /// The progression order, [`crate::RPCL`] or [`crate::PCRL`]; any other is refused.
    pub order: u8,
    /// Whether an EPH marker follows each packet header.
    pub eph: bool,
}

/// Why a plan isn't written.
#[derive(Clone, Copy, Debug, PartialEq, Eq, Error)]
pub enum PlanFault {
    /// The header would be refused so by the reader.
    #[error("the header would be refused: {0:?}")]
    Head(HeadWhy),
    /// There is no memory for the bytes.
    #[error("out of memory")]
    NoMemory,
}

impl From<AllocError> for PlanFault {
    ghost use Rattle.j2k_markers.specs.declared.plan.PlanFault.TheVariants.{NoMemory};

    ghost from_gives = { λ _ e. e ≡ NoMemory };

    fn from(_e: AllocError) -> PlanFault {
        PlanFault::NoMemory
    }
}

/// A number in two bytes.
fn two_bytes(number: u16) -> [u8; 2]
    ensures { result ≡ two_bytes number }
{
    [(number / 256) as u8, (number % 256) as u8]
}

/// A number in four bytes.
fn four_bytes(number: u32) -> [u8; 4]
    ensures { result ≡ four_bytes number }
{
    [
        (number / 0x100_0000) as u8,
        (number / 0x1_0000 % 256) as u8,
        (number / 256 % 256) as u8,
        (number % 256) as u8,
    ]
}

/// Adds numbers in four bytes each.
fn put_numbers(bytes: &mut Vec<u8>, numbers: &[u32]) -> Result<(), AllocError>
    ensures { OnOk result (bytes.new.items ≡ bytes.old.items ++ flat_map four_bytes numbers.now) }
{
    for number in numbers {
        bytes.extend_from_slice(&four_bytes(*number))?;
    }
    Ok(())
}

/// Adds Ssiz, which is 7, XRsiz and YRsiz of each component.
fn put_steps(bytes: &mut Vec<u8>, steps: &[(u8, u8)]) -> Result<(), AllocError>
    ensures { OnOk result (bytes.new.items ≡ bytes.old.items ++ flat_map step_bytes steps.now) }
{
    for step in steps {
        bytes.extend_from_slice(&[7, step.0, step.1])?;
    }
    Ok(())
}

/// Adds PPx and PPy of each resolution.
fn put_precincts(bytes: &mut Vec<u8>, precincts: &[(u8, u8)]) -> Result<(), AllocError>
    requires { All (λ e. (e.0 ≤ 15) × (e.1 ≤ 15)) precincts.now }
    ensures { OnOk result (bytes.new.items ≡ bytes.old.items ++ flat_map precinct_byte precincts.now) }
{
    for exponents in precincts {
        bytes.extend_from_slice(&[exponents.0 + 16 * exponents.1])?;
    }
    Ok(())
}

/// Adds a segment.
fn put_segment(bytes: &mut Vec<u8>, marker: u16, content: &[u8]) -> Result<(), AllocError>
    requires { length content.now + 2 < 2 ^ 16 }
    ensures { OnOk result (bytes.new.items ≡ bytes.old.items ++ segment_bytes (record { marker = marker; content = content.now })) }
{
    bytes.extend_from_slice(&two_bytes(marker))?;
    bytes.extend_from_slice(&two_bytes(content.len() as u16 + 2))?;
    bytes.extend_from_slice(content)?;
    Ok(())
}

/// The content of SIZ: one tile from 0 to the end of the image.
#[tactic(auto, using(crate::proofs::Lengths::length_steps), unfolding(crate::specs::Layout::siz_content))]
fn siz_content(alloc: Global, plan: &HeadPlan) -> Result<Vec<u8>, AllocError>
    ensures content { IfOk result (λ v. v.items ≡ siz_content plan.now) }
    ensures short { IfOk result (λ v. length v.items ≤ 84) }
{
    let (x0, y0, x1, y1) = plan.area;
    let mut bytes = Vec::new(alloc);
    bytes.extend_from_slice(&[0x40, 0])?;
    put_numbers(&mut bytes, &[x1, y1, x0, y0, x1, y1, 0, 0])?;
    bytes.extend_from_slice(&[0, plan.steps.len() as u8])?;
    put_steps(&mut bytes, &plan.steps)?;
    Ok(bytes)
}

/// The content of COD: one layer, and the sizes of precincts where there are some.
#[tactic(auto, using(crate::proofs::Lengths::length_precincts), unfolding(crate::specs::Layout::cod_content))]
fn cod_content(alloc: Global, plan: &HeadPlan) -> Result<Vec<u8>, AllocError>
    requires x { 2 ≤ plan.now.block.0 }
    requires y { 2 ≤ plan.now.block.1 }
    requires precincts { All (λ e. (e.0 ≤ 15) × (e.1 ≤ 15)) plan.now.precincts.items }
    ensures content { IfOk result (λ v. v.items ≡ cod_content plan.now) }
    ensures short { IfOk result (λ v. length v.items ≤ 26) }
{
    let scod = u8::from(!plan.precincts.is_empty()) + if plan.eph { 4 } else { 0 };
    let (x, y) = (plan.block.0 - 2, plan.block.1 - 2);
    let mut bytes = Vec::new(alloc);
    bytes.extend_from_slice(&[scod, plan.order, 0, 1, 0, plan.levels, x, y, plan.style, 1])?;
    put_precincts(&mut bytes, &plan.precincts)?;
    Ok(bytes)
}

/// The content of QCD: no quantisation, and a step value for each band.
#[tactic(auto, unfolding(crate::specs::Layout::qcd_content))]
fn qcd_content(alloc: Global, levels: u8) -> Result<Vec<u8>, AllocError>
    ensures content { IfOk result (λ v. v.items ≡ qcd_content levels) }
    ensures short { IfOk result (λ v. length v.items ≤ 767) }
{
    let mut bytes = Vec::new(alloc);
    bytes.push(0x40)?;
    for _ in 0..3 * usize::from(levels) + 1 {
        bytes.push(0x48)?;
    }
    Ok(bytes)
}

/// The content of SOT.
#[tactic(auto, unfolding(crate::specs::Layout::sot_content))]
fn sot_content(psot: u32) -> [u8; 8]
    ensures { result ≡ sot_content psot }
{
    let [first, second, third, fourth] = four_bytes(psot);
    [0, 0, first, second, third, fourth, 0, 1]
}

/// Adds SIZ.
fn put_siz(bytes: &mut Vec<u8>, alloc: Global, plan: &HeadPlan) -> Result<(), AllocError>
    ensures { OnOk result (bytes.new.items ≡ bytes.old.items ++ segment_bytes (record { marker = SIZ; content = siz_content plan.now })) }
{
    let content = siz_content(alloc, plan)?;
    put_segment(bytes, SIZ, &content)
}

/// Adds COD.
fn put_cod(bytes: &mut Vec<u8>, alloc: Global, plan: &HeadPlan) -> Result<(), AllocError>
    requires x { 2 ≤ plan.now.block.0 }
    requires y { 2 ≤ plan.now.block.1 }
    requires precincts { All (λ e. (e.0 ≤ 15) × (e.1 ≤ 15)) plan.now.precincts.items }
    ensures { OnOk result (bytes.new.items ≡ bytes.old.items ++ segment_bytes (record { marker = COD; content = cod_content plan.now })) }
{
    let content = cod_content(alloc, plan)?;
    put_segment(bytes, COD, &content)
}

/// Adds QCD.
fn put_qcd(bytes: &mut Vec<u8>, alloc: Global, levels: u8) -> Result<(), AllocError>
    ensures { OnOk result (bytes.new.items ≡ bytes.old.items ++ segment_bytes (record { marker = QCD; content = qcd_content levels })) }
{
    let content = qcd_content(alloc, levels)?;
    put_segment(bytes, QCD, &content)
}

/// Adds the segments up to the extra ones.
fn put_main(bytes: &mut Vec<u8>, alloc: Global, plan: &HeadPlan) -> Result<(), AllocError>
    requires x { 2 ≤ plan.now.block.0 }
    requires y { 2 ≤ plan.now.block.1 }
    requires precincts { All (λ e. (e.0 ≤ 15) × (e.1 ≤ 15)) plan.now.precincts.items }
    ensures { OnOk result (bytes.new.items ≡ bytes.old.items ++ segments_bytes (plan_segments plan.now)) }
{
    put_siz(bytes, alloc, plan)?;
    put_segment(bytes, CAP, &[0, 2, 0, 0, 0, 0])?;
    put_cod(bytes, alloc, plan)?;
    put_qcd(bytes, alloc, plan.levels)?;
    Ok(())
}

/// The header as it is laid out.
fn layout(alloc: Global, plan: &HeadPlan) -> Result<Vec<u8>, AllocError>
    requires x { 2 ≤ plan.now.block.0 }
    requires y { 2 ≤ plan.now.block.1 }
    requires precincts { All (λ e. (e.0 ≤ 15) × (e.1 ≤ 15)) plan.now.precincts.items }
    ensures { IfOk result (λ v. v.items ≡ plan_bytes plan.now) }
{
    let mut bytes = Vec::new(alloc);
    bytes.extend_from_slice(&two_bytes(SOC))?;
    put_main(&mut bytes, alloc, plan)?;
    bytes.extend_from_slice(&plan.extra)?;
    put_segment(&mut bytes, SOT, &sot_content(plan.psot))?;
    bytes.extend_from_slice(&two_bytes(SOD))?;
    Ok(bytes)
}

/// Writes a header: SOC; SIZ with one tile from 0 to the end of the image; CAP with HT code-blocks alone; COD
/// with the plan's order and one layer; QCD with no quantisation; the extra segments; SOT; SOD (T.800 Annex A).
///
/// # Errors
///
/// `Head` exactly where the reader refuses that header, with the reader's reason; `NoMemory` where memory
/// ran out.
pub fn write_head(alloc: Global, plan: &HeadPlan) -> Result<Vec<u8>, PlanFault>
    requires block_x { 2 ≤ plan.now.block.0 }
    requires block_y { 2 ≤ plan.now.block.1 }
    requires precincts { All (λ e. (e.0 ≤ 15) × (e.1 ≤ 15)) plan.now.precincts.items }
    requires extra { AreSegments plan.now.extra.items }
    ensures layout { IfOk result (λ v. v.items ≡ plan_bytes plan.now) }
    ensures accepted { IfOk result (λ v. IsHeader v.items) }
    ensures refused { (why : HeadWhy) → result ≡ Err (PlanFault.Head why) → (at : ℕ) × RefusesHead (plan_bytes plan.now) at (refusal_of why) }
{
    let bytes = layout(alloc, plan)?;
    match read_head(&bytes) {
        Ok(_) => Ok(bytes),
        Err(fault) => Err(PlanFault::Head(fault.why)),
    }
}
