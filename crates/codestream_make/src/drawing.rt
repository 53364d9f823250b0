//! The contents of precincts, drawn code-block after code-block.
ghost use Rattle.std.specs.Prelude.{◌≡◌, ◌≤◌, ◌<◌, ◌++◌, ◌∷◌, [], OnOk, IfOk, map};
ghost use Rattle.std.specs.List.{flat_map};
ghost use Rattle.codestream_model.specs.TagTrees.{seats};
ghost use Rattle.trial_model.specs.Draws.{draw_bytes};
ghost use Rattle.trial_model.specs.Generator.{draw_content};
ghost use Rattle.precinct_geometry.specs.Spans.{grid_of};
ghost use Rattle.codestream_make.specs.Making.{content_of};

use crate::PrecinctPlan;
use crate::draws::Draws;
use packet_header::Block;
use precinct_geometry::{Bands, Grid};
use std::alloc::{AllocError, Global};

/// The content of a precinct as far as it is drawn.
#[derive(Drop)]
pub struct Drawing {
    pub draws: Draws,
    pub blocks: Vec<Block>,
    pub bytes: Vec<u8>,
}

impl Drawing {
    ghost use Rattle.codestream_make.specs.Drawn.{DrawsAt, seat_at, row_of, HasDrawnBytes};

    /// Draws this number of bytes, each below 255.
    fn put_bytes(&mut self, count: u32) -> Result<(), AllocError>
        ensures { OnOk result (HasDrawnBytes count self.old self.new) }
    {
        for _ in 0..count {
            self.bytes.push(self.draws.below(255) as u8)?;
        }
        Ok(())
    }

    /// Draws the number of coding passes of a code-block, where 0 leaves it out, its zero bit-planes, the lengths of its
    /// segments, and their bytes.
    fn put_block(&mut self, band: u8, col: u32, row: u32) -> Result<(), AllocError>
        ensures { OnOk result (DrawsAt (seat_at band col row ∷ []) self.old self.new) }
    {
        let passes = self.draws.below(4);
        if passes == 0 {
            return Ok(());
        }
        let planes = self.draws.below(8);
        let cleanup = 2 + self.draws.below(63);
        let refine = if passes == 1 { 0 } else { self.draws.below(64) };
        self.blocks.push(Block {
            band,
            col,
            row,
            planes: planes as u8,
            passes: passes as u8,
            cleanup,
            refine,
        })?;
        self.put_bytes(cleanup + refine)?;
        Ok(())
    }

    /// Draws the code-blocks of a row of a grid.
    fn put_row(&mut self, grid: Grid, row: u32) -> Result<(), AllocError>
        ensures { OnOk result (DrawsAt (row_of (grid_of grid) row) self.old self.new) }
    {
        for col in 0..grid.cols {
            self.put_block(grid.band, col, row)?;
        }
        Ok(())
    }

    /// Draws the code-blocks of a grid, in raster order.
    fn put_grid(&mut self, grid: Grid) -> Result<(), AllocError>
        ensures { OnOk result (DrawsAt (seats (grid_of grid)) self.old self.new) }
    {
        for row in 0..grid.rows {
            self.put_row(grid, row)?;
        }
        Ok(())
    }

    /// Draws the code-blocks of grids.
    fn put_grids(&mut self, grids: &[Grid]) -> Result<(), AllocError>
        ensures { OnOk result (DrawsAt (flat_map seats (map grid_of grids.now)) self.old self.new) }
    {
        for grid in grids {
            self.put_grid(*grid)?;
        }
        Ok(())
    }
}

/// Draws the content of a precinct with these code-blocks: it, and the generator after that.
pub fn draw_precinct(
    alloc: Global,
    draws: Draws,
    bands: &Bands,
) -> Result<(PrecinctPlan, Draws), AllocError>
    ensures content { IfOk result (λ r. content_of r.0 ≡ (draw_content (flat_map seats (map grid_of bands.now.items)) draws.state).value) }
    ensures state { IfOk result (λ r. r.1.state ≡ (draw_content (flat_map seats (map grid_of bands.now.items)) draws.state).state) }
{
    let mut drawing = Drawing {
        draws,
        blocks: Vec::new(alloc),
        bytes: Vec::new(alloc),
    };
    drawing.put_grids(bands)?;
    let plan = PrecinctPlan {
        blocks: drawing.blocks,
        bytes: drawing.bytes,
    };
    Ok((plan, drawing.draws))
}
