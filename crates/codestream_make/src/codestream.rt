//! The codestream of a plan.
ghost use Rattle.std.specs.Prelude.{◌≡◌, ◌≤◌, ◌+◌, ℕ, IfOk, IfErr, Err, length, map};
ghost use Rattle.std.specs.List.{All};
ghost use Rattle.codestream_model.specs.RefusedHeader.{RefusesHead};
ghost use Rattle.j2k_markers.specs.declared.head.HeadWhy.{HeadWhy};
ghost use Rattle.j2k_markers.specs.Layout.{plan_bytes, AreSegments, IsHeader};
ghost use Rattle.j2k_markers.specs.Refusals.{refusal_of};
ghost use Rattle.codestream_make.specs.declared.fault.MakeFault.TheVariants as fault;
ghost use Rattle.codestream_make.specs.Faults.{IsOfContents};
ghost use Rattle.codestream_make.specs.Making.{content_of, Makes, HasOtherContent, IsTooLong};
ghost use Rattle.codestream_make.specs.Gathering.{Gathers, HasOther, set_four};

use crate::gathered::Gathered;
use crate::packets::Maker;
use crate::{CodePlan, MakeFault, PrecinctPlan};
use j2k_markers::{read_head, write_head};
use pcrl_order::OrderWalk;
use precinct_geometry::Geometry;
use std::alloc::Global;

/// The bytes of SOT's segment and of SOD.
const TILE_BYTES: usize = 14;

/// The offset of Psot in these.
const PSOT_AT: usize = 6;

/// EOC.
const EOC: [u8; 2] = [0xFF, 0xD9];

/// Puts a number in four bytes at an offset.
fn set_four(bytes: &mut [u8], at: usize, n: u32)
    requires { at + 4 ≤ length bytes.old }
    ensures { bytes.new ≡ set_four bytes.old at n }
{
    bytes[at] = (n / 0x100_0000) as u8;
    bytes[at + 1] = (n / 0x1_0000 % 256) as u8;
    bytes[at + 2] = (n / 256 % 256) as u8;
    bytes[at + 3] = (n % 256) as u8;
}

/// The bytes of a codestream with this Psot, at this offset.
fn with_psot(bytes: Vec<u8>, at: usize, psot: u32) -> Vec<u8>
    requires { at + 4 ≤ length bytes.items }
    ensures { result.items ≡ set_four bytes.items at psot }
{
    let mut bytes = bytes;
    set_four(&mut bytes, at, psot);
    bytes
}

/// A main header, the packets of its image that have these contents, and EOC. `Content` where the contents don't fit.
fn gather(alloc: Global, header: Vec<u8>, contents: &[PrecinctPlan]) -> Result<Gathered, MakeFault>
    requires { IsHeader header.items }
    ensures gathers { IfOk result (λ g. Gathers header.items (map content_of contents.now) g) }
    ensures content { result ≡ Err fault.Content → HasOther header.items (map content_of contents.now) }
    ensures faults { IfErr result IsOfContents }
{
    let Ok(head) = read_head(&header) else {
        unreachable!();
    };
    head.is_within_limits();
    let mut maker = Maker::new(alloc, Gathered::new(header))?;
    maker.put_packets(OrderWalk::new(Geometry::new(head)), contents)?;
    maker.gathered.add(&EOC)?;
    Ok(maker.gathered)
}

/// The codestream that says what a plan does: the plan's main header with the right Psot, for each precinct in packet order a
/// packet with the header that our writer gives its code-blocks, and EOC (T.800 Annexes A and B). It is accepted by the reader.
///
/// # Errors
///
/// Judged in this order: `Head` where the plan's main header is refused, with the reader's reason; `Content` where there isn't
/// a content for each precinct, or one is no packet of its precinct; `TooLong` where the codestream would have more than
/// 268,435,456 bytes. `NoMemory` where memory ran out.
pub fn make(alloc: Global, plan: &CodePlan) -> Result<Vec<u8>, MakeFault>
    requires block_x { 2 ≤ plan.now.head.block.0 }
    requires block_y { 2 ≤ plan.now.head.block.1 }
    requires precincts { All (λ e. (e.0 ≤ 15) × (e.1 ≤ 15)) plan.now.head.precincts.items }
    requires extra { AreSegments plan.now.head.extra.items }
    ensures made { IfOk result (λ v. Makes plan.now v.items) }
    ensures head { (why : HeadWhy) → result ≡ Err (fault.Head why) → (at : ℕ) × RefusesHead (plan_bytes plan.now.head) at (refusal_of why) }
    ensures content { result ≡ Err fault.Content → HasOtherContent plan.now }
    ensures too_long { result ≡ Err fault.TooLong → IsTooLong plan.now }
{
    let header = write_head(alloc, &plan.head)?;
    let tile = header.len() - TILE_BYTES;
    let gathered = gather(alloc, header, &plan.content)?;
    if gathered.is_too_long {
        return Err(MakeFault::TooLong);
    }
    let psot = gathered.bytes.len() - EOC.len() - tile;
    Ok(with_psot(gathered.bytes, tile + PSOT_AT, psot as u32))
}
