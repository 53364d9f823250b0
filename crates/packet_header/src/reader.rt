//! The reader of packet headers.
ghost use Rattle.std.specs.Prelude.{◌≡◌, ◌≤◌, ◌++◌, ◌↔◌, ℕ, List, true, [], map, take, length, IfOk, Result};
ghost use Rattle.codestream_model.specs.Values as values;
ghost use Rattle.codestream_model.specs.Packet.{block_count};
ghost use Rattle.codestream_model.specs.PacketHeader.{HaveOwnBands};
ghost use Rattle.codestream_model.specs.HeaderPieces.{HeaderRefusal};
ghost use Rattle.codestream_model.specs.MarkedHeader.{SpellsMarkedHeader, RefusesMarkedHeader, NeedsMarkedHeaderBytes, marked_header_of};
ghost use Rattle.precinct_geometry.specs.Spans.{grid_of};
ghost use Rattle.packet_header.specs.Answers.{why_of, block_of, Tells};
ghost use Rattle.packet_header.specs.Headers.{grids_of, IsSameHeader, IsFed, IsInHeader, ReadsOn, WaitsAfter, Judges, Answers, NeedsMore, EndsIn};
ghost use Rattle.packet_header.specs.Marked.{JudgesEph, NeedsMoreOfEph};

use crate::block::Block;
use crate::blocks::BlocksReader;
use crate::marker::{EPH, end_eph};
use crate::refusal::{HeaderOut, HeaderStop, HeaderWhy, LONGEST};
use precinct_geometry::Bands;
use std::alloc::{AllocError, Global};
use std::marker::Model;
use std::mem;
use stuffed_bits::{BitIn, Source};

/// What is read next.
#[derive(Clone, Copy, Debug, PartialEq, Eq)]
enum Stage {
    /// The header.
    Header,
    /// The first byte of EPH.
    Eph,
    /// The second byte of EPH.
    EphEnd,
}

/// Reads packet headers in any pieces, in room that is taken once.
#[derive(Drop)]
pub struct HeaderReader {
    /// How many code-blocks there is room for.
    room: u32,
    /// Whether EPH follows the header.
    eph: bool,
    stage: Stage,
    /// The code-blocks that were read.
    progress: BlocksReader,
    bits: BitIn,
    /// How many bytes of the header were fed.
    fed: usize,
}

impl Model for HeaderReader {
    ghost use Rattle.std.specs.Prelude.{◌≤◌};
    ghost use Rattle.packet_header.specs.Blocks.{HasRoom};
    ghost use Rattle.packet_header.specs.Headers.{ReaderState};

    ghost Value = { ReaderState };

    ghost view = { λ r. record {
      room = r.room;
      blocks = r.progress.blocks.items;
      eph = r.eph;
      stage = r.stage;
      progress = r.progress;
      bits = r.bits;
      fed = r.fed;
    } };

    ghost invariant = { λ r. HasRoom r.room r.progress × (r.fed ≤ 65536) };
}

impl HeaderReader {
    /// Takes room for headers of precincts with at most `blocks` code-blocks, included or not: 65,536
    /// or fewer.
    ///
    /// # Errors
    ///
    /// `AllocError` where there is no memory.
    pub fn reserve(alloc: Global, blocks: u32) -> Result<HeaderReader, AllocError>
        requires { blocks ≤ 65536 }
        ensures { IfOk result (λ r. r.room ≡ blocks) }
    {
        Ok(HeaderReader {
            room: blocks,
            eph: false,
            stage: Stage::Header,
            progress: BlocksReader::reserve(alloc, blocks)?,
            bits: BitIn::new(),
            fed: 0,
        })
    }

    /// Begins a header (T.800 B.10) and, where `eph` is set, the EPH after it, of a precinct whose
    /// grids of code-blocks are `bands`: no two of the same band, and no more code-blocks than there
    /// is room for.
    pub fn begin(&mut self, bands: &Bands, eph: bool)
        requires own_bands { HaveOwnBands (map grid_of bands.now.items) }
        requires room { block_count (map grid_of bands.now.items) ≤ self.old.room }
        ensures room { self.new.room ≡ self.old.room }
        ensures grids { grids_of self.new ≡ map grid_of bands.now.items }
        ensures eph { self.new.eph ≡ eph }
        ensures fed { IsFed self.new [] }
    {
        self.progress.begin(bands);
        self.eph = eph;
        self.stage = Stage::Header;
        self.bits = BitIn::new();
        self.fed = 0;
    }

    /// Reads what is left of the header.
    fn read_header(&mut self, front: &[u8]) -> Result<usize, HeaderStop>
        requires own_bands { HaveOwnBands (grids_of self.old) }
        requires ready { IsInHeader self.old }
        ensures read { ReadsOn self.old self.new front.now result }
        ensures rests { WaitsAfter self.old self.new front.now result }
        ensures inside { IfOk result (λ used. used ≤ length front.now) }
        ensures stage { self.new.stage ≡ self.old.stage }
        ensures fed { self.new.fed ≡ self.old.fed }
        ensures same { IsSameHeader self.old self.new }
    {
        let bits = mem::replace(&mut self.bits, BitIn::new());
        let mut source = Source::new(front, bits);
        let read = self.progress.read(&mut source);
        self.bits = source.bits;
        read
    }

    /// Reads EPH, from an index of a piece on.
    fn read_eph(&mut self, piece: &[u8], from: usize) -> HeaderOut
        requires inside { from ≤ length piece.now }
        requires own_bands { HaveOwnBands (grids_of self.old) }
        requires eph { self.old.eph ≡ true }
        ensures judged { JudgesEph self.old self.new piece.now from result }
        ensures fed { NeedsMoreOfEph self.old self.new piece.now from result }
        ensures inside { EndsIn piece.now result }
        ensures same { IsSameHeader self.old self.new }
    {
        self.stage = Stage::Eph;
        if from == piece.len() {
            return HeaderOut::Need;
        }
        if piece[from] != EPH[0] {
            return HeaderOut::Bad(HeaderWhy::NoEph);
        }
        self.stage = Stage::EphEnd;
        end_eph(piece, from + 1)
    }

    /// Reads what is left of the header, and the EPH after it.
    fn feed_header(&mut self, piece: &[u8]) -> HeaderOut
        requires fed { (bytes : List ℕ) × IsFed self.old bytes }
        requires stage { self.old.stage ≡ Stage.Header }
        ensures judged { Judges self.old self.new piece.now result }
        ensures fed { NeedsMore self.old self.new piece.now result }
        ensures inside { EndsIn piece.now result }
        ensures same { IsSameHeader self.old self.new }
    {
        let front = &piece[..piece.len().min(LONGEST - self.fed)];
        match self.read_header(front) {
            Err(stop) => {
                self.fed += front.len();
                stop.out(self.fed)
            }
            Ok(used) => {
                if self.eph {
                    return self.read_eph(piece, used);
                }
                HeaderOut::Done(used)
            }
        }
    }

    /// Reads on in a further piece of the bytes since `begin`, and answers for all of them.
    ///
    /// `Done` comes exactly where they begin with a header of at most 65,536 bytes and its EPH,
    /// whatever follows, and tells how many bytes of this piece are theirs; `Bad` exactly where
    /// they are refused for this reason, by a bit within their first 65,536 bytes, since a further
    /// byte is needed, or since other bytes than EPH follow; and `Need` exactly where they end
    /// before the header or its EPH does, and before they are refused. After `Done` and `Bad` a
    /// `begin` must follow.
    pub fn feed(&mut self, piece: &[u8]) -> HeaderOut
        requires fed { (bytes : List ℕ) × IsFed self.old bytes }
        ensures answers { Answers self.old self.new piece.now result }
        ensures inside { EndsIn piece.now result }
        ensures fed { NeedsMore self.old self.new piece.now result }
        ensures same { IsSameHeader self.old self.new }
    {
        match self.stage {
            Stage::Header => self.feed_header(piece),
            Stage::Eph => self.read_eph(piece, 0),
            Stage::EphEnd => end_eph(piece, 0),
        }
    }

    /// Reads the header at the start of bytes (T.800 B.10) and, where `eph` is set, the EPH after
    /// it: `begin` and one `feed`.
    ///
    /// `Done` comes exactly where the bytes begin with a header of at most 65,536 bytes and its EPH,
    /// whatever follows; `Bad` exactly where they are refused for this reason, by a bit within their
    /// first 65,536 bytes, since a further byte is needed, or since other bytes than EPH follow; and
    /// `Need` exactly where they end before the header or its EPH does, and before they are refused.
    pub fn read(&mut self, bands: &Bands, eph: bool, bytes: &[u8]) -> HeaderOut
        requires own_bands { HaveOwnBands (map grid_of bands.now.items) }
        requires room { block_count (map grid_of bands.now.items) ≤ self.old.room }
        ensures room { self.new.room ≡ self.old.room }
        ensures judged { Tells (marked_header_of (map grid_of bands.now.items) eph bytes.now)
            result self.new.blocks }
        ensures found { (used : ℕ) → result ≡ HeaderOut.Done used
            → SpellsMarkedHeader (map grid_of bands.now.items) eph (map block_of self.new.blocks)
            (take used bytes.now) }
        ensures only { (blocks : List values.Block) (header more : List ℕ)
            → SpellsMarkedHeader (map grid_of bands.now.items) eph blocks header
            → bytes.now ≡ header ++ more
            → (result ≡ HeaderOut.Done (length header)) × (map block_of self.new.blocks ≡ blocks) }
        ensures refused { (why : HeaderRefusal) → (result ≡ HeaderOut.Bad (why_of why))
            ↔ RefusesMarkedHeader (map grid_of bands.now.items) eph bytes.now why }
        ensures needs { (result ≡ HeaderOut.Need)
            ↔ NeedsMarkedHeaderBytes (map grid_of bands.now.items) eph bytes.now }
        ensures fed { result ≡ HeaderOut.Need → IsFed self.new bytes.now }
        ensures grids { grids_of self.new ≡ map grid_of bands.now.items }
        ensures eph { self.new.eph ≡ eph }
    {
        self.begin(bands, eph);
        self.feed(bytes)
    }

    /// The code-blocks that the header includes, in header order; after `Done`.
    pub fn blocks(&self) -> &[Block]
        ensures { result.now ≡ self.now.blocks }
    {
        self.progress.blocks.as_slice()
    }
}
