//! What is at the front of bytes where a packet should be.
ghost use Rattle.std.specs.Prelude.{◌≡◌, ◌≤◌, ◌+◌, ◌-◌, ◌^◌, ℕ, IfOk, min, length, map, take};
ghost use Rattle.codestream_model.specs.Values as values;
ghost use Rattle.codestream_model.specs.Values.{Head};
ghost use Rattle.codestream_model.specs.Precincts.{IsPrecinct};
ghost use Rattle.codestream_model.specs.Packet.{segment_bytes};
ghost use Rattle.stream_model.specs.Decoder.{found_packet};
ghost use Rattle.precinct_geometry.specs.Spans.{place_of};
ghost use Rattle.packet_header.specs.Answers.{block_of};
ghost use Rattle.packet_header.specs.Headers.{IsFed};
ghost use Rattle.resync_decoder.specs.Finding.{Finds, IsFound, found_by, IsPartRead, IsReadUpTo, Answers};

use packet_header::{Block, HeaderOut, HeaderReader};
use precinct_geometry::{Geometry, Place};
use std::alloc::{AllocError, Global};

/// The greatest number of code-blocks of a packet.
pub const MOST_BLOCKS: u32 = 65_536;

/// The greatest number of bytes of a packet.
const LONGEST: u64 = 16_777_216;

/// What is at the front of bytes where a packet should be.
#[derive(Clone, Copy, Debug, PartialEq, Eq)]
pub enum Found {
    /// A whole packet: the number of bytes of its header, and that of all its bytes.
    Whole(usize, usize),
    /// No packet yet, but more bytes may make one.
    Part,
    /// Bytes that can't begin a packet.
    Other,
}

/// The number of bytes of the code-blocks' segments; it stays at 2^64 - 1.
#[tactic(auto, using(crate::proofs::Sums::segments_more))]
fn segments(blocks: &[Block]) -> u64
    ensures { result ≡ min (segment_bytes (map block_of blocks.now)) (2 ^ 64 - 1) }
{
    let mut total: u64 = 0;
    for block in blocks {
        total = total.saturating_add(u64::from(block.cleanup) + u64::from(block.refine));
    }
    total
}

/// Judges a packet whose header has `used` bytes and says these code-blocks, where `len` bytes are
/// there.
fn judge(used: usize, blocks: &[Block], len: usize) -> Found
    ensures { result ≡ found_by (used + segment_bytes (map block_of blocks.now)) used len }
{
    let size = segments(blocks).saturating_add(used as u64);
    if size > LONGEST {
        return Found::Other;
    }
    if size as usize <= len {
        Found::Whole(used, size as usize)
    } else {
        Found::Part
    }
}

/// How far the header of a packet was read.
#[derive(Clone, Copy, Debug, PartialEq, Eq)]
pub enum Progress {
    /// Nothing of it was read.
    Unread,
    /// This many of its bytes were read, and more follow.
    Begun(usize),
    /// It was read, and has this many bytes.
    Read(usize),
}

/// Finds the packet at the front of bytes to which more are appended. No byte of a packet header is
/// read twice.
#[derive(Drop)]
pub struct Finder {
    pub reader: HeaderReader,
    /// How far the header of the packet was read; `Unread` begins with the next packet.
    pub progress: Progress,
}

impl Finder {
    /// Takes room for the headers of packets of at most 65,536 code-blocks.
    pub fn reserve(alloc: Global) -> Result<Finder, AllocError>
        ensures { IfOk result (λ f. f.reader.room ≡ 65536) }
    {
        Ok(Finder {
            reader: HeaderReader::reserve(alloc, MOST_BLOCKS)?,
            progress: Progress::Unread,
        })
    }

    /// Looks for the packet of a precinct at the front of the bytes, those of the call before and
    /// any that were appended since. Where it is whole, the reader has its code-blocks.
    pub fn find(&mut self, geometry: &Geometry, place: Place, bytes: &[u8]) -> Found
        requires place { IsPrecinct geometry.now (place_of place) }
        requires room { self.old.reader.room ≡ 65536 }
        requires so_far { IsReadUpTo self.old.progress self.old.reader
            geometry.now (place_of place) bytes.now }
        ensures room { self.new.reader.room ≡ 65536 }
        ensures within { IsFound result (length bytes.now) }
        ensures found { Finds (found_packet geometry.now (place_of place) bytes.now)
            result self.new.reader.blocks }
        ensures so_far { IsReadUpTo self.new.progress self.new.reader
            geometry.now (place_of place) bytes.now }
    {
        match self.progress {
            Progress::Unread => self.begin(geometry, place, bytes),
            Progress::Begun(fed) => self.go_on(fed, bytes),
            Progress::Read(used) => judge(used, self.reader.blocks(), bytes.len()),
        }
    }

    /// Reads the header from its first byte on.
    fn begin(&mut self, geometry: &Geometry, place: Place, bytes: &[u8]) -> Found
        requires place { IsPrecinct geometry.now (place_of place) }
        requires room { self.old.reader.room ≡ 65536 }
        requires unread { self.old.progress ≡ Progress.Unread }
        ensures room { self.new.reader.room ≡ 65536 }
        ensures found { Finds (found_packet geometry.now (place_of place) bytes.now)
            result self.new.reader.blocks }
        ensures so_far { IsReadUpTo self.new.progress self.new.reader
            geometry.now (place_of place) bytes.now }
    {
        if bytes.is_empty() {
            return Found::Part;
        }
        if geometry.blocks(place) > u64::from(MOST_BLOCKS) {
            return Found::Other;
        }
        let eph = geometry.head().eph();
        self.reader.begin(&geometry.bands(place), eph);
        self.go_on(0, bytes)
    }

    /// Reads on after the first `fed` bytes.
    fn go_on(&mut self, fed: usize, bytes: &[u8]) -> Found
        requires within { fed ≤ length bytes.now }
        requires fed { IsFed self.old.reader (take fed bytes.now) }
        ensures room { self.new.reader.room ≡ self.old.reader.room }
        ensures found { (h : Head) (p : values.Place)
            → IsPartRead self.old.reader h p fed bytes.now
            → Finds (found_packet h p bytes.now) result self.new.reader.blocks }
        ensures so_far { (h : Head) (p : values.Place)
            → IsPartRead self.old.reader h p fed bytes.now
            → IsReadUpTo self.new.progress self.new.reader h p bytes.now }
    {
        let out = self.reader.feed(&bytes[fed..]);
        self.answer(fed, out, bytes.len())
    }

    /// The answer by that of the reader, which had read `earlier` bytes before; `len` bytes are
    /// there.
    fn answer(&mut self, earlier: usize, out: HeaderOut, len: usize) -> Found
        requires within { (used : ℕ) → out ≡ HeaderOut.Done used → earlier + used ≤ len }
        ensures answers { Answers earlier len self.old.reader.blocks out result self.new.progress }
        ensures reader { self.new.reader ≡ self.old.reader }
    {
        match out {
            HeaderOut::Done(used) => {
                let used = earlier + used;
                self.progress = Progress::Read(used);
                judge(used, self.reader.blocks(), len)
            }
            HeaderOut::Need => {
                self.progress = Progress::Begun(len);
                Found::Part
            }
            HeaderOut::Bad(_) => {
                self.progress = Progress::Unread;
                Found::Other
            }
        }
    }
}
