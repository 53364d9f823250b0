//! The code-blocks of a header, read in any pieces: grid after grid, from where the last piece ended.
ghost use Rattle.std.specs.Prelude.{◌≡◌, ◌≤◌, ◌<◌, ◌+◌, ◌^◌, List, true, false, [], map, length, Some, IfSome, IfOk, OnOk, vec_capacity};
ghost use Rattle.codestream_model.specs.Packet.{block_count};
ghost use Rattle.codestream_model.specs.PacketHeader.{HaveOwnBands};
ghost use Rattle.precinct_geometry.specs.Spans.{grid_of};
ghost use Rattle.packet_header.specs.Walks.{positions_in};
ghost use Rattle.packet_header.specs.Blocks.{HasRoom, IsSameRoom, BeginsBlocks, IsReadyIn, TakesPart, TakesAll, IsEntered, IsCurrent, later_grids};
ghost use Rattle.packet_header.specs.Headers.{IsReadyForHeader, EndsHeader, WaitsInHeader};

use crate::block::Block;
use crate::grids::TagTrees;
use crate::refusal::HeaderStop;
use crate::source;
use crate::step::Step;
use precinct_geometry::{Bands, Grid};
use std::alloc::{AllocError, Global};
use stuffed_bits::Source;
use tag_tree::Tree;

/// The code-blocks of a header as far as they were read, and what is read next.
#[derive(Drop)]
pub struct BlocksReader {
    pub trees: TagTrees,
    /// The grids of the precinct.
    pub bands: Bands,
    /// The included code-blocks that were read, in header order.
    pub blocks: Vec<Block>,
    /// Whether the first bit was read, which says whether the packet has code-blocks.
    pub begun: bool,
    /// The index of the grid of the next code-block.
    pub grid: usize,
    /// The column of the next code-block.
    pub col: u32,
    /// The row of the next code-block.
    pub row: u32,
    /// The value of the next code-block that is read next.
    pub step: Step,
}

/// Copies grids.
fn copy(from: &Bands, to: &mut Bands)
    ensures { to.new.items ≡ from.now.items }
{
    to.clear();
    let grids = from.as_slice();
    for grid in grids {
        to.push(*grid);
    }
}

impl BlocksReader {
    /// Takes room for `blocks` code-blocks.
    ///
    /// # Errors
    ///
    /// `AllocError` where there is no memory.
    pub fn reserve(alloc: Global, blocks: u32) -> Result<BlocksReader, AllocError>
        requires { blocks ≤ 65536 }
        ensures { IfOk result (λ r. HasRoom blocks r) }
    {
        let trees = TagTrees {
            inclusion: Tree::reserve(alloc, blocks)?,
            planes: Tree::reserve(alloc, blocks)?,
        };
        Ok(BlocksReader {
            trees,
            bands: Bands::new(),
            blocks: Vec::with_capacity(alloc, blocks as usize)?,
            begun: false,
            grid: 0,
            col: 0,
            row: 0,
            step: Step::Inclusion,
        })
    }

    /// Goes to the first code-block of a grid, or past the last grid.
    fn enter(&mut self, grid: usize)
        requires inclusion { block_count (later_grids grid self.old)
            ≤ self.old.trees.inclusion.leaves }
        requires planes { block_count (later_grids grid self.old) ≤ self.old.trees.planes.leaves }
        ensures place { self.new
            ≡ record self.old { grid = grid; col = 0; row = 0; trees = self.new.trees } }
        ensures trees { IsEntered (later_grids grid self.old) self.new.trees }
        ensures room { self.new.trees.inclusion.leaves ≡ self.old.trees.inclusion.leaves }
        ensures planes_room { self.new.trees.planes.leaves ≡ self.old.trees.planes.leaves }
    {
        self.grid = grid;
        self.col = 0;
        self.row = 0;
        if grid < self.bands.len() {
            let own = self.bands.as_slice()[grid];
            self.trees.reset(own.cols, own.rows);
        } else {
            self.trees.reset(0, 0);
        }
    }

    /// Begins the header of a precinct with these grids.
    pub fn begin(&mut self, bands: &Bands)
        requires inclusion { block_count (map grid_of bands.now.items)
            ≤ self.old.trees.inclusion.leaves }
        requires planes { block_count (map grid_of bands.now.items) ≤ self.old.trees.planes.leaves }
        requires blocks { block_count (map grid_of bands.now.items) ≤ vec_capacity self.old.blocks }
        ensures begun { BeginsBlocks (map grid_of bands.now.items) self.new }
        ensures bands { self.new.bands.items ≡ bands.now.items }
        ensures inclusion { self.new.trees.inclusion.leaves ≡ self.old.trees.inclusion.leaves }
        ensures planes { self.new.trees.planes.leaves ≡ self.old.trees.planes.leaves }
        ensures capacity { vec_capacity self.new.blocks ≡ vec_capacity self.old.blocks }
    {
        copy(bands, &mut self.bands);
        self.blocks.clear();
        self.begun = false;
        self.step = Step::Inclusion;
        self.enter(0);
    }

    /// Reads the first bit: where it is 0, the packet has no code-block.
    fn read_first(&mut self, source: &mut Source<'_>) -> Result<(), HeaderStop>
        requires within { source.old.at ≤ length source.old.piece.now }
        requires ready { IsReadyIn self.old source.old }
        requires begun { self.old.begun ≡ false }
        ensures read { TakesPart self.old self.new source.old source.new result }
        ensures begun { IfOk result (λ _. self.new.begun ≡ true) }
        ensures within { source.new.at ≤ length source.new.piece.now }
        ensures piece { source.new.piece.now ≡ source.old.piece.now }
        ensures same { IsSameRoom self.old self.new }
    {
        if source::bit(source)? {
            self.begun = true;
            return Ok(());
        }
        self.begun = true;
        self.grid = self.bands.len();
        Ok(())
    }

    /// The grid of the next code-block, if there is one.
    fn current(&self) -> Option<Grid>
        ensures current { IsCurrent self.now result }
        ensures small { IfSome result (λ _. self.now.grid + 1 < 2 ^ 64) }
    {
        if self.grid < self.bands.len() {
            Some(self.bands.as_slice()[self.grid])
        } else {
            None
        }
    }

    /// Reads what is left of the code-blocks of this grid, the current one.
    fn read_grid(&mut self, own: Grid, source: &mut Source<'_>) -> Result<(), HeaderStop>
        requires within { source.old.at ≤ length source.old.piece.now }
        requires current { IsCurrent self.old (Some own) }
        requires begun { self.old.begun ≡ true }
        requires ready { IsReadyIn self.old source.old }
        ensures read { TakesPart self.old self.new source.old source.new result }
        ensures whole { OnOk result (positions_in own self.new.row self.new.col ≡ []) }
        ensures grid { self.new.grid ≡ self.old.grid }
        ensures begun { self.new.begun ≡ true }
        ensures within { source.new.at ≤ length source.new.piece.now }
        ensures piece { source.new.piece.now ≡ source.old.piece.now }
        ensures same { IsSameRoom self.old self.new }
    {
        if own.cols == 0 {
            return Ok(());
        }
        self.trees.read_grid(
            own,
            &mut self.col,
            &mut self.row,
            &mut self.step,
            source,
            &mut self.blocks,
        )
    }

    /// Reads what is left of the code-blocks of the grids.
    fn read_grids(&mut self, source: &mut Source<'_>) -> Result<(), HeaderStop>
        requires within { source.old.at ≤ length source.old.piece.now }
        requires ready { IsReadyIn self.old source.old }
        requires begun { self.old.begun ≡ true }
        ensures read { TakesAll self.old self.new source.old source.new result }
        ensures within { source.new.at ≤ length source.new.piece.now }
        ensures piece { source.new.piece.now ≡ source.old.piece.now }
        ensures same { IsSameRoom self.old self.new }
    {
        while let Some(own) = self.current() {
            self.read_grid(own, source)?;
            self.enter(self.grid + 1);
        }
        Ok(())
    }

    /// Reads what is left of the code-blocks.
    fn read_blocks(&mut self, source: &mut Source<'_>) -> Result<(), HeaderStop>
        requires within { source.old.at ≤ length source.old.piece.now }
        requires ready { IsReadyIn self.old source.old }
        ensures read { TakesAll self.old self.new source.old source.new result }
        ensures within { source.new.at ≤ length source.new.piece.now }
        ensures piece { source.new.piece.now ≡ source.old.piece.now }
        ensures same { IsSameRoom self.old self.new }
    {
        if self.begun {
            return self.read_grids(source);
        }
        self.read_first(source)?;
        self.read_grids(source)
    }

    /// Reads what is left of a header, and answers how many bytes of the piece it took.
    pub fn read(&mut self, source: &mut Source<'_>) -> Result<usize, HeaderStop>
        requires within { source.old.at ≤ length source.old.piece.now }
        requires own_bands { HaveOwnBands (map grid_of self.old.bands.items) }
        requires ready { IsReadyForHeader self.old source.old }
        ensures read { EndsHeader self.old self.new source.old result }
        ensures rests { WaitsInHeader self.old self.new source.old source.new result }
        ensures inside { IfOk result (λ used. used ≤ length source.old.piece.now) }
        ensures same { IsSameRoom self.old self.new }
    {
        self.read_blocks(source)?;
        source::close(source)
    }
}
