//! The header of the packet that is next, read as its bytes come.
ghost use Rattle.std.specs.Prelude.{◌≡◌, ◌≤◌, ◌<◌, ◌+◌, IfOk, IfSome, IsNone, None, map, length, take};
ghost use Rattle.codestream_model.specs.Values as values;
ghost use Rattle.codestream_model.specs.Values.{Head};
ghost use Rattle.codestream_model.specs.Packet.{HasFewBlocks, segment_bytes};
ghost use Rattle.codestream_model.specs.Precincts.{IsPrecinct};
ghost use Rattle.precinct_geometry.specs.Spans.{place_of};
ghost use Rattle.packet_header.specs.Answers.{block_of};
ghost use Rattle.packet_header.specs.Headers.{IsFed};
ghost use Rattle.codestream_walk.specs.Judging.{IsReadSoFar, IsPartRead, Keeps, JudgesPacket};

use crate::fault::WalkWhy;
use packet_header::{Block, HeaderOut, HeaderReader};
use precinct_geometry::{Geometry, Place};
use std::alloc::{AllocError, Global};

/// The greatest number of bytes of a packet.
const LONGEST_PACKET: u64 = 16_777_216;

/// The greatest number of code-blocks of a precinct.
const MOST_BLOCKS: u32 = 65_536;

/// What bytes are, where a packet should begin.
#[derive(Clone, Copy, Debug, PartialEq, Eq)]
pub enum Header {
    /// They begin with a header, with this number of bytes; its packet's segments have this number of bytes.
    Whole(usize, u32),
    /// They are refused.
    Refused(WalkWhy),
    /// They end inside the header.
    Wants,
}

/// The number of bytes of the segments of these code-blocks, or None where they and a header of `header` bytes are
/// longer than a packet may be.
fn body_length(blocks: &[Block], header: usize) -> Option<u32>
    requires { header ≤ 65538 }
    ensures some { IfSome result (λ body. (body ≡ segment_bytes (map block_of blocks.now))
        × (header + body ≤ 16777216)) }
    ensures none { IsNone result → 16777216 < header + segment_bytes (map block_of blocks.now) }
{
    let most = LONGEST_PACKET - header as u64;
    let mut sum = 0u64;
    for block in blocks {
        sum += u64::from(block.cleanup) + u64::from(block.refine);
        if sum > most {
            return None;
        }
    }
    Some(sum as u32)
}

/// Judges the header at the start of bytes to which more are appended. No byte of a header is read twice.
#[derive(Drop)]
pub struct NextHeader {
    pub reader: HeaderReader,
    /// How many of the bytes were read of a header that isn't whole, or None where none is begun.
    pub fed: Option<usize>,
}

impl NextHeader {
    /// Takes room for the headers of packets of at most 65,536 code-blocks. None is begun.
    pub fn reserve(alloc: Global) -> Result<NextHeader, AllocError>
        ensures room { IfOk result (λ n. n.reader.room ≡ 65536) }
        ensures unread { IfOk result (λ n. n.fed ≡ None) }
    {
        Ok(NextHeader {
            reader: HeaderReader::reserve(alloc, MOST_BLOCKS)?,
            fed: None,
        })
    }

    /// Judges bytes where the packet of a precinct should begin (T.800 B.10): after `Wants` those of that call, and any
    /// that were appended since. After `Whole` the reader has the packet's code-blocks.
    pub fn judge(&mut self, geometry: &Geometry, place: Place, bytes: &[u8]) -> Header
        requires place { IsPrecinct geometry.now (place_of place) }
        requires room { self.old.reader.room ≡ 65536 }
        requires so_far { IsReadSoFar self.old.fed self.old.reader
            geometry.now (place_of place) bytes.now }
        ensures room { self.new.reader.room ≡ 65536 }
        ensures judged { JudgesPacket geometry.now (place_of place) bytes.now result
            (map block_of self.new.reader.blocks) }
        ensures keeps { Keeps result self.new.fed self.new.reader
            geometry.now (place_of place) bytes.now }
    {
        match self.fed {
            Some(fed) => self.go_on(fed, bytes),
            None => self.begin(geometry, place, bytes),
        }
    }

    /// Judges bytes from the first one on.
    fn begin(&mut self, geometry: &Geometry, place: Place, bytes: &[u8]) -> Header
        requires place { IsPrecinct geometry.now (place_of place) }
        requires room { self.old.reader.room ≡ 65536 }
        requires unread { self.old.fed ≡ None }
        ensures room { self.new.reader.room ≡ 65536 }
        ensures judged { JudgesPacket geometry.now (place_of place) bytes.now result
            (map block_of self.new.reader.blocks) }
        ensures keeps { Keeps result self.new.fed self.new.reader
            geometry.now (place_of place) bytes.now }
    {
        if geometry.blocks(place) > u64::from(MOST_BLOCKS) {
            return Header::Refused(WalkWhy::TooManyBlocks);
        }
        let eph = geometry.head().eph();
        self.reader.begin(&geometry.bands(place), eph);
        self.go_on(0, bytes)
    }

    /// Reads on after the first `fed` bytes.
    fn go_on(&mut self, fed: usize, bytes: &[u8]) -> Header
        requires within { fed ≤ length bytes.now }
        requires fed { IsFed self.old.reader (take fed bytes.now) }
        ensures room { self.new.reader.room ≡ self.old.reader.room }
        ensures judged { (h : Head) (p : values.Place) → HasFewBlocks h p
            → IsPartRead self.old.reader h p fed bytes.now
            → JudgesPacket h p bytes.now result (map block_of self.new.reader.blocks) }
        ensures keeps { (h : Head) (p : values.Place) → HasFewBlocks h p
            → IsPartRead self.old.reader h p fed bytes.now
            → Keeps result self.new.fed self.new.reader h p bytes.now }
    {
        self.fed = None;
        match self.reader.feed(&bytes[fed..]) {
            HeaderOut::Done(used) => match body_length(self.reader.blocks(), fed + used) {
                Some(body) => Header::Whole(fed + used, body),
                None => Header::Refused(WalkWhy::PacketTooLong),
            },
            HeaderOut::Need => {
                self.fed = Some(bytes.len());
                Header::Wants
            }
            HeaderOut::Bad(why) => Header::Refused(WalkWhy::Header(why)),
        }
    }
}
