//! The lines of a precinct and the END line.
ghost use Rattle.std.specs.Prelude.{◌≡◌, ◌≤◌, ◌+◌, ◌++◌, List, [], ◌∷◌, length, codes};
ghost use Rattle.std.specs.List.{sum_by};
ghost use Rattle.stream_model.specs.Report as report;
ghost use Rattle.packet_header.specs.Answers.{block_of};
ghost use Rattle.scl_outside.specs.Events.{Event};
ghost use Rattle.scl_outside.specs.Writing.{Puts};
ghost use Rattle.precinct_report.specs.Lines.{precinct_of, counts_of, block_start, blocks_of};
ghost use Rattle.precinct_report.specs.Gathering.{Gathers};

use crate::page::Page;
use crate::writing::{gather_hex, make_room, put};
use packet_header::{Block, Precinct};
use scl_outside::{Duct, PutOut};

/// What a receiver counted, for the END line.
#[derive(Clone, Copy, Debug, PartialEq, Eq)]
pub struct Counts {
    /// The datagrams that the window kept.
    pub kept: u64,
    /// The datagrams that came too late or again.
    pub old: u64,
    /// The frames that aren't datagrams of the stream.
    pub refused: u64,
    /// The Main packets whose bytes aren't one accepted main header.
    pub unsupported: u64,
    /// The marks that the packets before them don't meet, and the PIDs that no precinct has.
    pub disagreed: u64,
    /// The runs that ended at bytes which are no packet.
    pub broken: u64,
}

/// The greatest number of bytes of a line but for the digits of a code-block's bytes.
const LINE: usize = 256;

/// Writes the P line of a precinct and the B line of each of its code-blocks. The number of `bytes`
/// is the sum of the cleanup and refinement lengths of `blocks`. `WriteFault` where a write failed;
/// a prefix of the lines went out then.
pub fn write_precinct<D: Duct>(duct: &mut D, precinct: &Precinct<'_>) -> PutOut
    requires { length precinct.now.bytes.now ≡ sum_by (λ b. b.cleanup + b.refine) precinct.now.blocks.now }
    ensures { (es : List Event)
        × Puts (report.lines (precinct_of precinct.now ∷ [])) (D.meaning duct.old) (D.meaning duct.new)
        result es }
{
    let mut page = Page::new();
    push_precinct(&mut page, precinct);
    match gather_blocks(duct, &mut page, precinct.blocks, precinct.bytes) {
        PutOut::Done => {}
        PutOut::WriteFault => return PutOut::WriteFault,
    }
    put(duct, page.text())
}

/// Writes the END line of these counts. `WriteFault` where a write failed; a prefix of the line
/// went out then.
pub fn write_end<D: Duct>(duct: &mut D, counts: &Counts) -> PutOut
    ensures { (es : List Event)
        × Puts (report.end_line (counts_of counts.now)) (D.meaning duct.old) (D.meaning duct.new)
        result es }
{
    let mut page = Page::new();
    push_end(&mut page, counts);
    put(duct, page.text())
}

/// Gathers the B lines of code-blocks, whose bytes follow each other.
fn gather_blocks<D: Duct>(duct: &mut D, page: &mut Page, blocks: &[Block], bytes: &[u8]) -> PutOut
    requires { length bytes.now ≡ sum_by (λ b. b.cleanup + b.refine) blocks.now }
    ensures { (es : List Event)
        × Gathers (report.block_lines (blocks_of blocks.now) bytes.now)
        (D.meaning duct.old) (D.meaning duct.new) page.old page.new result es }
{
    let mut rest = bytes;
    for block in blocks {
        let (own, after) = rest.split_at(block.cleanup as usize + block.refine as usize);
        match gather_block(duct, page, block, own) {
            PutOut::Done => {}
            PutOut::WriteFault => return PutOut::WriteFault,
        }
        rest = after;
    }
    PutOut::Done
}

/// Gathers the B line of a code-block with these bytes.
fn gather_block<D: Duct>(duct: &mut D, page: &mut Page, block: &Block, bytes: &[u8]) -> PutOut
    ensures { (es : List Event)
        × Gathers (report.block_line (block_of block.now) bytes.now)
        (D.meaning duct.old) (D.meaning duct.new) page.old page.new result es }
{
    match make_room(duct, page, LINE) {
        PutOut::Done => {}
        PutOut::WriteFault => return PutOut::WriteFault,
    }
    push_block(page, block);
    match gather_hex(duct, page, bytes) {
        PutOut::Done => {}
        PutOut::WriteFault => return PutOut::WriteFault,
    }
    match make_room(duct, page, 1) {
        PutOut::Done => {}
        PutOut::WriteFault => return PutOut::WriteFault,
    }
    page.push(b"\n");
    PutOut::Done
}

/// Puts the P line of a precinct on an empty page.
fn push_precinct(page: &mut Page, precinct: &Precinct<'_>)
    requires { page.old ≡ [] }
    ensures { page.new ≡ report.precinct_line (precinct_of precinct.now) }
{
    page.push_number(b"P stamp=", u64::from(precinct.stamp));
    page.push_number(b" pid=", u64::from(precinct.pid));
    page.push_number(b" c=", u64::from(precinct.place.c));
    page.push_number(b" r=", u64::from(precinct.place.r));
    page.push_number(b" k=", u64::from(precinct.place.k));
    page.push_number(b" blocks=", precinct.blocks.len() as u64);
    page.push(b"\n");
}

/// Appends the B line of a code-block up to the digits of its bytes.
fn push_block(page: &mut Page, block: &Block)
    requires { length page.old + 256 ≤ 4096 }
    ensures { page.new ≡ page.old ++ block_start (block_of block.now) }
{
    page.push_number(b"B band=", u64::from(block.band));
    page.push_number(b" col=", u64::from(block.col));
    page.push_number(b" row=", u64::from(block.row));
    page.push_number(b" planes=", u64::from(block.planes));
    page.push_number(b" passes=", u64::from(block.passes));
    page.push_number(b" cleanup=", u64::from(block.cleanup));
    page.push_number(b" refine=", u64::from(block.refine));
    page.push(b" bytes=");
}

/// Puts the END line on an empty page.
fn push_end(page: &mut Page, counts: &Counts)
    requires { page.old ≡ [] }
    ensures { page.new ≡ report.end_line (counts_of counts.now) }
{
    page.push_number(b"END kept=", counts.kept);
    page.push_number(b" old=", counts.old);
    page.push_number(b" refused=", counts.refused);
    page.push_number(b" unsupported=", counts.unsupported);
    page.push_number(b" disagreed=", counts.disagreed);
    page.push_number(b" broken=", counts.broken);
    page.push(b"\n");
}
