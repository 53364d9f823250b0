//! The packets of an input of codestreams, each written as soon as it was read.
ghost use Rattle.std.specs.Prelude.{◌≡◌, ◌≤◌, ◌<◌, List, [], ◌++◌, true, length};
ghost use Rattle.scl_outside.specs.Events.{Event};
ghost use Rattle.scl_run.specs.Performing.{Performs};
ghost use Rattle.codestream_walk.specs.Faults.{header_refusal, walk_refusal};
ghost use Rattle.codestream_walk.specs.Walking.{IsStart, is_live};
ghost use Rattle.codestream_walk.specs.Walks.{ShowsPacket};
ghost use Rattle.parse_job.specs.Inputs.{header_reason, reason_for};
ghost use Rattle.parse_job.specs.ParseJob.{parse_job};
ghost use Rattle.parse_job.specs.Writing.{WritesPacket};

use codestream_walk::{Walk, WalkFault, WalkOut, WalkWhy};
use packet_header::HeaderWhy;
use precinct_report::write_precinct;
use scl_outside::{Duct, PutOut};
use scl_run::{Ending, Reason, Refusal};
use std::alloc::Global;

/// Reads codestreams, one after another, to the end of the input, and writes the lines of each packet as soon as the
/// packet was read. The i-th codestream, from 0, has the timestamp `stamp` + i × `step` modulo 2^32. `NoMemory` comes
/// only before anything is read.
pub fn parse<D: Duct>(alloc: Global, stamp: u32, step: u16, out: &mut D) -> Ending
    ensures { (es : List Event)
        × Performs (parse_job stamp step) (D.meaning out.old) (D.meaning out.new) result es }
{
    match Walk::new(alloc) {
        Ok(mut walk) => write_packets(&mut walk, stamp, step, out),
        Err(_) => Ending::NoMemory,
    }
}

/// Writes the packets of an input from its start on.
fn write_packets<D: Duct>(walk: &mut Walk, stamp: u32, step: u16, out: &mut D) -> Ending
    requires { IsStart walk.old.walk }
    ensures { (es : List Event)
        × Performs (parse_job stamp step) (D.meaning out.old) (D.meaning out.new) result es }
{
    let mut stamp_now = stamp;
    loop {
        match walk.step(out) {
            WalkOut::Packet => match write_packet(walk, stamp_now, out) {
                PutOut::Done => {}
                PutOut::WriteFault => return Ending::WriteFault,
            },
            WalkOut::FrameEnd => stamp_now = stamp_now.wrapping_add(u32::from(step)),
            WalkOut::End => return Ending::Done,
            WalkOut::Refused(fault) => return Ending::Refused(refusal_of(fault)),
            WalkOut::ReadFault => return Ending::ReadFault,
        }
    }
}

/// Writes the packet that was read last.
fn write_packet<D: Duct>(walk: &Walk, stamp: u32, out: &mut D) -> PutOut
    requires { ShowsPacket walk.now }
    ensures { (es : List Event)
        × WritesPacket walk.now stamp (D.meaning out.old) (D.meaning out.new) result es }
{
    write_precinct(out, &walk.packet(stamp))
}

/// What is noted of a refused input: the offset of its first fault, and the reason.
pub fn refusal_of(fault: WalkFault) -> Refusal
    ensures at { result.at ≡ fault.at }
    ensures reason { result.reason ≡ reason_for (walk_refusal fault.why) }
{
    Refusal {
        at: fault.at,
        reason: reason_of(fault.why),
    }
}

/// The reason that is noted for a fault.
fn reason_of(why: WalkWhy) -> Reason
    ensures { result ≡ reason_for (walk_refusal why) }
{
    match why {
        WalkWhy::Head(why) => Reason::Header(why),
        WalkWhy::Cut => Reason::Cut,
        WalkWhy::TooManyBlocks => Reason::TooManyBlocks,
        WalkWhy::Header(why) => header_reason_of(why),
        WalkWhy::PacketTooLong => Reason::PacketTooLong,
        WalkWhy::Psot => Reason::Psot,
        WalkWhy::NoEoc => Reason::NoEoc,
        WalkWhy::InputTooLong => Reason::InputTooLong,
        WalkWhy::TooManyFrames => Reason::TooManyCodestreams,
    }
}

/// The reason that is noted for a refused packet header.
fn header_reason_of(why: HeaderWhy) -> Reason
    ensures { result ≡ header_reason (header_refusal why) }
{
    match why {
        HeaderWhy::Stuffed => Reason::Stuffed,
        HeaderWhy::Passes => Reason::Passes,
        HeaderWhy::LengthBits => Reason::LengthBits,
        HeaderWhy::CleanupShort => Reason::CleanupShort,
        HeaderWhy::CleanupLong => Reason::CleanupLong,
        HeaderWhy::RefineLong => Reason::RefineLong,
        HeaderWhy::ZeroPlanes => Reason::ZeroPlanes,
        HeaderWhy::TooLong => Reason::PacketHeaderTooLong,
        HeaderWhy::NoEph => Reason::NoEph,
    }
}
