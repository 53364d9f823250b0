//! The packets of a codestream, gathered one after another.
ghost use Rattle.std.specs.Prelude.{◌≡◌, ◌≤◌, ◌↔◌, IsTrue, ◌++◌, ◌∷◌, ℕ, List, OnOk, IfOk, IfErr, Err, map};
ghost use Rattle.codestream_model.specs.Precincts.{IsPrecinct};
ghost use Rattle.codestream_model.specs.PacketOrder.{packet_order};
ghost use Rattle.codestream_model.specs.Packet.{segment_bytes};
ghost use Rattle.codestream_model.specs.Codestream.{joined};
ghost use Rattle.trial_model.specs.Generator.{packet_of, packets_of};
ghost use Rattle.precinct_geometry.specs.Spans.{place_of};
ghost use Rattle.packet_header.specs.Answers.{block_of};
ghost use Rattle.pcrl_order.specs.Ahead.{rest};

use crate::gathered::Gathered;
use crate::header_room::HeaderRoom;
use crate::{MakeFault, PrecinctPlan};
use packet_header::Block;
use pcrl_order::OrderWalk;
use precinct_geometry::{Geometry, Place};
use std::alloc::{AllocError, Global};

/// The greatest number of bytes of a packet.
const MOST_PACKET: usize = 16_777_216;

/// Whether the segments of code-blocks have this number of bytes in all.
fn have_bytes(blocks: &[Block], len: usize) -> bool
    ensures { IsTrue result ↔ (len ≡ segment_bytes (map block_of blocks.now)) }
{
    let mut left = len as u64;
    for block in blocks {
        let size = u64::from(block.cleanup) + u64::from(block.refine);
        if size > left {
            return false;
        }
        left -= size;
    }
    left == 0
}

/// What puts packets after a main header.
#[derive(Drop)]
pub struct Maker {
    room: HeaderRoom,
    pub gathered: Gathered,
}

impl Maker {
    ghost use Rattle.codestream_make.specs.declared.fault.MakeFault.TheVariants as fault;
    ghost use Rattle.codestream_make.specs.Faults.{IsOfContents};
    ghost use Rattle.codestream_make.specs.Making.{content_of, packet_bytes, Fits, AllFit};
    ghost use Rattle.codestream_make.specs.Gathering.{HasGathered, Adds};

    /// With the bytes of a main header. `AllocError` where memory ran out.
    pub fn new(alloc: Global, gathered: Gathered) -> Result<Maker, AllocError>
        ensures { IfOk result (λ m. m.gathered ≡ gathered) }
    {
        Ok(Maker {
            room: HeaderRoom::new(alloc)?,
            gathered,
        })
    }

    /// Adds the packet of a precinct with this content. `Content` exactly where it doesn't fit.
    fn put_packet(
        &mut self,
        geometry: &Geometry,
        place: Place,
        plan: &PrecinctPlan,
    ) -> Result<(), MakeFault>
        requires { IsPrecinct geometry.now (place_of place) }
        ensures fits { OnOk result (Fits geometry.now (place_of place) (content_of plan.now)) }
        ensures gathered { Adds result self.old.gathered
            (packet_of geometry.now (place_of place) (content_of plan.now)) self.new.gathered }
        ensures content { result ≡ Err fault.Content
            → Fits geometry.now (place_of place) (content_of plan.now) → ⊥ }
        ensures faults { IfErr result IsOfContents }
    {
        let len = self.room.put(geometry, place, &plan.blocks)?;
        if !have_bytes(&plan.blocks, plan.bytes.len()) || plan.bytes.len() > MOST_PACKET - len {
            return Err(MakeFault::Content);
        }
        self.gathered.add(&self.room.buf[..len])?;
        self.gathered.add(&plan.bytes)?;
        Ok(())
    }

    /// Adds the packets of an image's precincts in their order, one for each content. `Content` exactly where there aren't as
    /// many, or one doesn't fit.
    pub fn put_packets(
        &mut self,
        walk: OrderWalk,
        contents: &[PrecinctPlan],
    ) -> Result<(), MakeFault>
        requires first { packet_order walk.head ≡ walk.place ∷ rest walk }
        requires precinct { IsPrecinct walk.head walk.place }
        ensures fits { OnOk result (AllFit walk.head (packet_order walk.head) (map content_of contents.now)) }
        ensures gathered { Adds result self.old.gathered
            (packet_bytes walk.head (map content_of contents.now)) self.new.gathered }
        ensures content { result ≡ Err fault.Content
            → AllFit walk.head (packet_order walk.head) (map content_of contents.now) → ⊥ }
        ensures faults { IfErr result IsOfContents }
    {
        let mut walk = walk;
        let mut is_over = false;
        for plan in contents {
            if is_over {
                return Err(MakeFault::Content);
            }
            let place = walk.place();
            self.put_packet(walk.geometry(), place, plan)?;
            is_over = !walk.advance();
        }
        if is_over {
            Ok(())
        } else {
            Err(MakeFault::Content)
        }
    }
}
