//! Room for one packet header, into which it is written before its packet is added.
ghost use Rattle.std.specs.Prelude.{◌≡◌, ◌≤◌, ℕ, List, IfOk, IfErr, Err, length, map, take};
ghost use Rattle.codestream_model.specs.Precincts.{IsPrecinct};
ghost use Rattle.codestream_model.specs.Packet.{HasFewBlocks, SpellsPacketHeader};
ghost use Rattle.precinct_geometry.specs.Spans.{place_of};
ghost use Rattle.packet_header.specs.Answers.{block_of};
ghost use Rattle.codestream_make.specs.HeaderLengths.{most_header};

use crate::MakeFault;
use packet_header::{Block, write_header};
use precinct_geometry::{Geometry, Place};
use std::alloc::{AllocError, Global};

/// The greatest number of bytes of a packet header without EPH.
const MOST_HEADER: usize = 65_536;

/// The greatest number of code-blocks of a packet, included or not.
const MOST_BLOCKS: u64 = 65_536;

/// The greatest number of bytes of a packet header, with EPH where it is asked for.
fn most_header(eph: bool) -> usize
    ensures { result ≡ most_header eph }
{
    if eph { MOST_HEADER + 2 } else { MOST_HEADER }
}

/// Room for a packet header with its EPH.
#[derive(Drop)]
pub struct HeaderRoom {
    alloc: Global,
    pub buf: Vec<u8>,
    ghost room: { length buf.items ≡ 65538 },
}

impl HeaderRoom {
    ghost use Rattle.codestream_make.specs.declared.fault.MakeFault.TheVariants as fault;
    ghost use Rattle.codestream_make.specs.Faults.{IsOfContents};
    ghost use Rattle.codestream_make.specs.Making.{header_for, NoneFit};

    /// Room for a packet header. `AllocError` where memory ran out.
    pub fn new(alloc: Global) -> Result<HeaderRoom, AllocError> {
        Ok(HeaderRoom {
            alloc,
            buf: vec![in alloc; 0u8; MOST_HEADER + 2]?,
        })
    }

    /// Writes the header of a packet with these code-blocks at the start: the number of its bytes. `Content` exactly where a
    /// packet of the precinct can't have these code-blocks.
    pub fn put(
        &mut self,
        geometry: &Geometry,
        place: Place,
        blocks: &[Block],
    ) -> Result<usize, MakeFault>
        requires { IsPrecinct geometry.now (place_of place) }
        ensures within { IfOk result (λ n. n ≤ 65538) }
        ensures size { IfOk result (λ n. n ≡ length (header_for geometry.now (place_of place) (map block_of blocks.now))) }
        ensures few { IfOk result (λ n. HasFewBlocks geometry.now (place_of place)) }
        ensures written { IfOk result (λ n. take n self.new.buf.items
            ≡ header_for geometry.now (place_of place) (map block_of blocks.now)) }
        ensures spelled { IfOk result (λ n. SpellsPacketHeader geometry.now (place_of place)
            (map block_of blocks.now) (header_for geometry.now (place_of place) (map block_of blocks.now))) }
        ensures content { result ≡ Err fault.Content
            → NoneFit geometry.now (place_of place) (map block_of blocks.now) }
        ensures faults { IfErr result IsOfContents }
    {
        if geometry.blocks(place) > MOST_BLOCKS {
            return Err(MakeFault::Content);
        }
        let eph = geometry.head().eph();
        let bands = geometry.bands(place);
        let len = write_header(self.alloc, &bands, blocks, eph, &mut self.buf)?;
        if len > most_header(eph) {
            return Err(MakeFault::Content);
        }
        Ok(len)
    }
}
