//! Packet headers written: the code-blocks that are included, with the least labels and the least Lblocks.
ghost use Rattle.std.specs.Prelude.{◌≡◌, ◌≢◌, ◌≤◌, ◌<◌, ◌+◌, ◌*◌, ◌++◌, [], ◌∷◌, map, length, take, drop, true, IfOk, IfSome};
ghost use Rattle.std.specs.List.{AllByRecursion};
ghost use Rattle.codestream_model.specs.TagTrees.{seats};
ghost use Rattle.codestream_model.specs.Packet.{block_count};
ghost use Rattle.codestream_model.specs.PacketHeader.{HaveOwnBands, AreBlocks, IsWithinLimits, SpellsHeader, written_bits, written_header};
ghost use Rattle.codestream_model.specs.MarkedHeader.{end_marker, SpellsMarkedHeader, written_marked_header};
ghost use Rattle.precinct_geometry.specs.Spans.{grid_of};
ghost use Rattle.tag_tree.specs.LeafReading.{IsSameShape};
ghost use Rattle.tag_tree.specs.LeafWriting.{MeetsLeaf};
ghost use Rattle.packet_header.specs.Answers.{block_of};
ghost use Rattle.packet_header.specs.Positions.{HasGrid, position_at, row_seats};
ghost use Rattle.packet_header.specs.Queues.{remaining};
ghost use Rattle.packet_header.specs.Puts.{Fills, Onward};
ghost use Rattle.packet_header.specs.PositionsWritten.{AreOnGrid, PutsPositions, PutsGrid, PutsBlock, grids_bits, IsAtStart};

use crate::block::Block;
use crate::block_bits::put_values;
use crate::fault::PutFault;
use crate::filling::trees_of;
use crate::grids::TagTrees;
use crate::judging::are_blocks;
use crate::marker::EPH;
use crate::queue::Queue;
use precinct_geometry::{Bands, Grid};
use std::alloc::Global;
use stuffed_bits::{BitWriter, Full};

impl TagTrees {
    /// Puts an included code-block: its zero bit-planes and its values.
    fn put_block(&mut self, block: &Block, bits: &mut BitWriter, buf: &mut [u8]) -> Result<(), Full>
        requires limits { IsWithinLimits (block_of block.now) }
        requires col_in { block.now.col < self.old.planes.cols }
        requires row_in { block.now.row < self.old.planes.rows }
        requires inside { bits.old.len ≤ length buf.old }
        ensures bits { PutsBlock (block_of block.now) self.old.planes bits.old bits.new
            buf.old buf.new result }
        ensures goes { Onward bits.old bits.new buf.old buf.new }
        ensures met { IfOk result (λ _.
            MeetsLeaf block.now.col block.now.row self.old.planes self.new.planes) }
        ensures labels { self.new.planes.labels ≡ self.old.planes.labels }
        ensures same { IsSameShape self.old.planes self.new.planes }
        ensures inclusion { self.new.inclusion ≡ self.old.inclusion }
    {
        self.planes.write_value(block.col, block.row, bits, buf)?;
        put_values(block, bits, buf)
    }

    /// Puts what a header says of the code-block at a position: whether it is included, and the next one that remains if it is there.
    fn put_at(
        &mut self,
        grid: Grid,
        col: u32,
        row: u32,
        queue: &mut Queue<'_>,
        bits: &mut BitWriter,
        buf: &mut [u8],
    ) -> Result<(), Full>
        requires same { HasGrid self.old grid.cols grid.rows }
        requires col_in { col < grid.cols }
        requires row_in { row < grid.rows }
        requires limits { AllByRecursion IsWithinLimits (remaining queue.old) }
        requires inside { bits.old.len ≤ length buf.old }
        ensures bits { PutsPositions (grid_of grid) (position_at grid.band col row ∷ [])
            self.old self.new (remaining queue.old) (remaining queue.new)
            bits.old bits.new buf.old buf.new result }
        ensures goes { Onward bits.old bits.new buf.old buf.new }
        ensures same { HasGrid self.new grid.cols grid.rows }
        ensures limits { AllByRecursion IsWithinLimits (remaining queue.new) }
    {
        self.inclusion.write_inclusion(col, row, bits, buf)?;
        match queue.take_at(grid.band, col, row) {
            None => Ok(()),
            Some(block) => self.put_block(&block, bits, buf),
        }
    }

    /// Puts what a header says of the code-blocks in a row of a grid.
    fn put_row(
        &mut self,
        grid: Grid,
        row: u32,
        queue: &mut Queue<'_>,
        bits: &mut BitWriter,
        buf: &mut [u8],
    ) -> Result<(), Full>
        requires same { HasGrid self.old grid.cols grid.rows }
        requires row_in { row < grid.rows }
        requires limits { AllByRecursion IsWithinLimits (remaining queue.old) }
        requires inside { bits.old.len ≤ length buf.old }
        ensures bits { PutsPositions (grid_of grid) (row_seats grid.band grid.cols row)
            self.old self.new (remaining queue.old) (remaining queue.new)
            bits.old bits.new buf.old buf.new result }
        ensures goes { Onward bits.old bits.new buf.old buf.new }
        ensures same { HasGrid self.new grid.cols grid.rows }
        ensures limits { AllByRecursion IsWithinLimits (remaining queue.new) }
    {
        for col in 0..grid.cols {
            self.put_at(grid, col, row, queue, bits, buf)?;
        }
        Ok(())
    }

    /// Puts what a header says of the code-blocks of a grid.
    fn put_rows(
        &mut self,
        grid: Grid,
        queue: &mut Queue<'_>,
        bits: &mut BitWriter,
        buf: &mut [u8],
    ) -> Result<(), Full>
        requires same { HasGrid self.old grid.cols grid.rows }
        requires limits { AllByRecursion IsWithinLimits (remaining queue.old) }
        requires inside { bits.old.len ≤ length buf.old }
        ensures bits { PutsPositions (grid_of grid) (seats (grid_of grid))
            self.old self.new (remaining queue.old) (remaining queue.new)
            bits.old bits.new buf.old buf.new result }
        ensures goes { Onward bits.old bits.new buf.old buf.new }
        ensures limits { AllByRecursion IsWithinLimits (remaining queue.new) }
    {
        for row in 0..grid.rows {
            self.put_row(grid, row, queue, bits, buf)?;
        }
        Ok(())
    }
}

/// Puts what a header says of the code-blocks of a grid, which are the next of those that remain.
fn put_grid(
    alloc: Global,
    grid: Grid,
    blocks: &[Block],
    queue: &mut Queue<'_>,
    bits: &mut BitWriter,
    buf: &mut [u8],
) -> Result<(), PutFault>
    requires small { grid.cols * grid.rows ≤ 65536 }
    requires on_grid { AreOnGrid (grid_of grid) (map block_of blocks.now) }
    requires limits { AllByRecursion IsWithinLimits (remaining queue.old) }
    requires inside { bits.old.len ≤ length buf.old }
    ensures put { PutsGrid (grid_of grid) (map block_of blocks.now)
        (remaining queue.old) (remaining queue.new) bits.old bits.new buf.old buf.new result }
    ensures fault { result ≢ Err PutFault.Blocks }
    ensures goes { Onward bits.old bits.new buf.old buf.new }
    ensures limits { AllByRecursion IsWithinLimits (remaining queue.new) }
{
    let mut trees = trees_of(alloc, grid, blocks)?;
    trees.put_rows(grid, queue, bits, buf)?;
    Ok(())
}

/// Puts what a header says of the code-blocks of all grids.
fn put_grids(
    alloc: Global,
    grids: &[Grid],
    blocks: &[Block],
    bits: &mut BitWriter,
    buf: &mut [u8],
) -> Result<(), PutFault>
    requires own_bands { HaveOwnBands (map grid_of grids.now) }
    requires few { block_count (map grid_of grids.now) ≤ 65536 }
    requires blocks { AreBlocks (map grid_of grids.now) (map block_of blocks.now) }
    requires inside { bits.old.len ≤ length buf.old }
    ensures bits { Fills (grids_bits (map grid_of grids.now) (map block_of blocks.now))
        bits.old bits.new buf.old buf.new result }
    ensures fault { result ≢ Err PutFault.Blocks }
    ensures goes { Onward bits.old bits.new buf.old buf.new }
{
    let mut queue = Queue::new(blocks);
    for grid in grids {
        put_grid(alloc, *grid, blocks, &mut queue, bits, buf)?;
    }
    Ok(())
}

/// Puts the bits of a header: a single 0 where no code-block is included, else a 1 and those of the grids.
fn put_header(
    alloc: Global,
    grids: &[Grid],
    blocks: &[Block],
    bits: &mut BitWriter,
    buf: &mut [u8],
) -> Result<(), PutFault>
    requires own_bands { HaveOwnBands (map grid_of grids.now) }
    requires few { block_count (map grid_of grids.now) ≤ 65536 }
    requires blocks { AreBlocks (map grid_of grids.now) (map block_of blocks.now) }
    requires inside { bits.old.len ≤ length buf.old }
    ensures bits { Fills (written_bits (map grid_of grids.now) (map block_of blocks.now))
        bits.old bits.new buf.old buf.new result }
    ensures fault { result ≢ Err PutFault.Blocks }
    ensures begun { IfOk result (λ _. 0 < bits.new.len) }
    ensures goes { Onward bits.old bits.new buf.old buf.new }
{
    if blocks.is_empty() {
        bits.put(false, buf)?;
        return Ok(());
    }
    bits.put(true, buf)?;
    put_grids(alloc, grids, blocks, bits, buf)
}

/// Writes the header of a packet at the start of `buf`, without EPH.
fn write_plain(
    alloc: Global,
    bands: &Bands,
    blocks: &[Block],
    buf: &mut [u8],
) -> Result<usize, PutFault>
    requires own_bands { HaveOwnBands (map grid_of bands.now.items) }
    requires few { block_count (map grid_of bands.now.items) ≤ 65536 }
    ensures blocks { result ≡ Err PutFault.Blocks
        → (¬ AreBlocks (map grid_of bands.now.items) (map block_of blocks.now))
        × (buf.new ≡ buf.old) }
    ensures judged { result ≢ Err PutFault.Blocks
        → AreBlocks (map grid_of bands.now.items) (map block_of blocks.now) }
    ensures full { result ≡ Err PutFault.Full → length buf.old
        < length (written_header (map grid_of bands.now.items) (map block_of blocks.now)) }
    ensures written { IfOk result (λ n.
        IsAtStart (written_header (map grid_of bands.now.items) (map block_of blocks.now))
        n buf.new) }
    ensures fits { IfOk result (λ n. n ≤ length buf.old) }
    ensures beyond { IfOk result (λ n. drop n buf.new ≡ drop n buf.old) }
    ensures says { IfOk result (λ n. n ≤ 65536
        → SpellsHeader (map grid_of bands.now.items) (map block_of blocks.now) (take n buf.new)) }
{
    let grids = bands.as_slice();
    if !are_blocks(grids, blocks) {
        return Err(PutFault::Blocks);
    }
    let mut bits = BitWriter::new();
    put_header(alloc, grids, blocks, &mut bits, buf)?;
    Ok(bits.finish(buf)?)
}

/// Writes EPH after a header of `used` bytes, and answers how many bytes both have; `None` where `buf` is too short for it.
fn put_eph(used: usize, buf: &mut [u8]) -> Option<usize>
    requires { used ≤ length buf.old }
    ensures none { result ≡ None → (length buf.old < used + 2) × (buf.new ≡ buf.old) }
    ensures written { IfSome result (λ n.
        (n ≡ used + 2)
        × (used + 2 ≤ length buf.old)
        × (take n buf.new ≡ take used buf.old ++ end_marker true)
        × (drop n buf.new ≡ drop n buf.old)) }
{
    if buf.len() - used < 2 {
        return None;
    }
    buf[used] = EPH[0];
    buf[used + 1] = EPH[1];
    Some(used + 2)
}

/// Writes the header of a packet (T.800 B.10) at the start of `buf`, with EPH (A.8.2) after it where `eph` is set, and answers how
/// many bytes that takes; those after it stay.
///
/// `bands` are the grids of the precinct's code-blocks: no two of the same band, and no more than 65,536 code-blocks. `blocks` are
/// the included ones in header order. The tag trees have the least labels and each code-block the least Lblock, and the pad bits
/// are 0.
///
/// # Errors
///
/// `Blocks` exactly where `blocks` aren't distinct code-blocks of the grids in header order, or a value is out of its range; it
/// is judged first, and `buf` is left as it was. `Full` exactly where the header with its EPH is longer than `buf`. `NoMemory` where
/// there is none for the tag trees.
pub fn write_header(
    alloc: Global,
    bands: &Bands,
    blocks: &[Block],
    eph: bool,
    buf: &mut [u8],
) -> Result<usize, PutFault>
    requires own_bands { HaveOwnBands (map grid_of bands.now.items) }
    requires few { block_count (map grid_of bands.now.items) ≤ 65536 }
    ensures blocks { result ≡ Err PutFault.Blocks
        → (¬ AreBlocks (map grid_of bands.now.items) (map block_of blocks.now))
        × (buf.new ≡ buf.old) }
    ensures judged { result ≢ Err PutFault.Blocks
        → AreBlocks (map grid_of bands.now.items) (map block_of blocks.now) }
    ensures full { result ≡ Err PutFault.Full → length buf.old
        < length (written_marked_header (map grid_of bands.now.items) eph (map block_of blocks.now)) }
    ensures written { IfOk result (λ n.
        IsAtStart (written_marked_header (map grid_of bands.now.items) eph (map block_of blocks.now))
        n buf.new) }
    ensures fits { IfOk result (λ n. n ≤ length buf.old) }
    ensures beyond { IfOk result (λ n. drop n buf.new ≡ drop n buf.old) }
    ensures says { IfOk result (λ n. n ≤ 65536
        → SpellsMarkedHeader (map grid_of bands.now.items) eph (map block_of blocks.now)
        (take n buf.new)) }
{
    let used = write_plain(alloc, bands, blocks, buf)?;
    if !eph {
        return Ok(used);
    }
    match put_eph(used, buf) {
        None => Err(PutFault::Full),
        Some(all) => Ok(all),
    }
}
