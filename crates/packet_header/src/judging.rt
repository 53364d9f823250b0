//! Whether code-blocks are those of a packet: in header order, distinct, and with values in their ranges.
ghost use Rattle.std.specs.Prelude.{◌≡◌, ◌↔◌, map, IsTrue};
ghost use Rattle.std.specs.List.{AllByRecursion, flat_map};
ghost use Rattle.codestream_model.specs.TagTrees.{seats};
ghost use Rattle.codestream_model.specs.PacketHeader.{HaveOwnBands, AreSeated, IsWithinLimits, AreBlocks};
ghost use Rattle.precinct_geometry.specs.Spans.{grid_of};
ghost use Rattle.packet_header.specs.Answers.{block_of};
ghost use Rattle.packet_header.specs.Positions.{row_seats};
ghost use Rattle.packet_header.specs.Queues.{remaining, passed};

use crate::block::{Block, MOST_PLANES};
use crate::pieces::{CLEANUP_END, LEAST_CLEANUP, REFINE_END};
use crate::queue::Queue;
use precinct_geometry::Grid;

/// The greatest number of coding passes.
const MOST_PASSES: u8 = 3;

/// Takes the code-blocks of a row of a grid.
fn pass_row(grid: Grid, row: u32, queue: &mut Queue<'_>)
    ensures { remaining queue.new
        ≡ passed (row_seats grid.band grid.cols row) (remaining queue.old) }
{
    for col in 0..grid.cols {
        let _ = queue.take_at(grid.band, col, row);
    }
}

/// Takes the code-blocks of a grid.
fn pass_grid(grid: Grid, queue: &mut Queue<'_>)
    ensures { remaining queue.new ≡ passed (seats (grid_of grid)) (remaining queue.old) }
{
    for row in 0..grid.rows {
        pass_row(grid, row, queue);
    }
}

/// Whether code-blocks are distinct ones of these grids, in header order.
fn are_in_order(grids: &[Grid], blocks: &[Block]) -> bool
    requires { HaveOwnBands (map grid_of grids.now) }
    ensures { IsTrue result ↔ AreSeated (map grid_of grids.now) (map block_of blocks.now) }
{
    let mut queue = Queue::new(blocks);
    for grid in grids {
        pass_grid(*grid, &mut queue);
    }
    queue.is_done()
}

/// Whether a code-block's values are in their ranges.
fn is_within_limits(block: &Block) -> bool
    ensures { IsTrue result ↔ IsWithinLimits (block_of block.now) }
{
    if block.planes > MOST_PLANES {
        return false;
    }
    if block.passes < 1 || block.passes > MOST_PASSES {
        return false;
    }
    if block.cleanup < LEAST_CLEANUP || block.cleanup >= CLEANUP_END {
        return false;
    }
    if block.refine >= REFINE_END {
        return false;
    }
    block.passes > 1 || block.refine == 0
}

/// Whether the values of all code-blocks are in their ranges.
fn are_within_limits(blocks: &[Block]) -> bool
    ensures { IsTrue result ↔ AllByRecursion IsWithinLimits (map block_of blocks.now) }
{
    for block in blocks {
        if !is_within_limits(block) {
            return false;
        }
    }
    true
}

/// Whether code-blocks are those of a packet of a precinct with these grids, no two of the same band.
pub fn are_blocks(grids: &[Grid], blocks: &[Block]) -> bool
    requires { HaveOwnBands (map grid_of grids.now) }
    ensures { IsTrue result ↔ AreBlocks (map grid_of grids.now) (map block_of blocks.now) }
{
    are_in_order(grids, blocks) && are_within_limits(blocks)
}
