//! The trees of a grid, filled from its code-blocks.
ghost use Rattle.std.specs.Prelude.{◌≡◌, ◌≤◌, ◌<◌, ◌*◌, [], map, length, IfOk};
ghost use Rattle.codestream_model.specs.TagTrees.{seat_of};
ghost use Rattle.precinct_geometry.specs.Spans.{grid_of};
ghost use Rattle.packet_header.specs.Answers.{block_of};
ghost use Rattle.packet_header.specs.Positions.{HasGrid};
ghost use Rattle.packet_header.specs.PositionsWritten.{AreOnGrid, leaf_place, laid, LaysOut, IsFilled, AreWritten};

use crate::block::{Block, MOST_PLANES};
use crate::grids::TagTrees;
use precinct_geometry::Grid;
use std::alloc::{AllocError, Global};
use tag_tree::Tree;

/// The leaf of a code-block that is included, in the inclusion tree,
const INCLUDED: u8 = 0;

/// and of one that isn't. In the value tree such a leaf has the greatest label.
const LEFT_OUT: u8 = 1;

/// The leaves of a grid's two trees, in raster order.
#[derive(Drop)]
struct Leaves {
    inclusion: Vec<u8>,
    planes: Vec<u8>,
}

impl Leaves {
    /// Sets the leaves of a code-block, if it is of the grid's band.
    fn lay(&mut self, grid: Grid, block: &Block)
        requires small { grid.cols * grid.rows ≤ 65536 }
        requires seated { block.now.band ≡ grid.band
            → leaf_place (grid_of grid) (seat_of (block_of block.now)) < grid.cols * grid.rows }
        requires inclusion { length self.old.inclusion.items ≡ grid.cols * grid.rows }
        requires planes { length self.old.planes.items ≡ grid.cols * grid.rows }
        ensures inclusion { self.new.inclusion.items
            ≡ laid (grid_of grid) (block_of block.now) 0 self.old.inclusion.items }
        ensures planes { self.new.planes.items
            ≡ laid (grid_of grid) (block_of block.now) block.now.planes self.old.planes.items }
    {
        if block.band == grid.band {
            let at = (block.row * grid.cols + block.col) as usize;
            self.inclusion[at] = INCLUDED;
            self.planes[at] = block.planes;
        }
    }
}

/// The leaves of a grid.
fn leaves_of(alloc: Global, grid: Grid, blocks: &[Block]) -> Result<Leaves, AllocError>
    requires small { grid.cols * grid.rows ≤ 65536 }
    requires on_grid { AreOnGrid (grid_of grid) (map block_of blocks.now) }
    ensures inclusion { IfOk result (λ l.
        LaysOut (grid_of grid) (map block_of blocks.now) l.inclusion.items (λ b. 0) 1) }
    ensures planes { IfOk result (λ l.
        LaysOut (grid_of grid) (map block_of blocks.now) l.planes.items (λ b. b.planes) 74) }
{
    let count = (grid.cols * grid.rows) as usize;
    let mut leaves = Leaves {
        inclusion: vec![in alloc; LEFT_OUT; count]?,
        planes: vec![in alloc; MOST_PLANES; count]?,
    };
    for block in blocks {
        leaves.lay(grid, block);
    }
    Ok(leaves)
}

/// A tree with these leaves.
fn tree_of(alloc: Global, grid: Grid, leaves: &[u8]) -> Result<Tree, AllocError>
    requires small { grid.cols * grid.rows ≤ 65536 }
    requires leaves { length leaves.now ≡ grid.cols * grid.rows }
    ensures { IfOk result (λ t. IsFilled (grid_of grid) leaves.now t) }
{
    let mut tree = Tree::reserve(alloc, grid.cols * grid.rows)?;
    tree.reset(grid.cols, grid.rows);
    tree.fill(leaves);
    Ok(tree)
}

/// The two trees of a grid, of which nothing is written.
pub fn trees_of(alloc: Global, grid: Grid, blocks: &[Block]) -> Result<TagTrees, AllocError>
    requires small { grid.cols * grid.rows ≤ 65536 }
    requires on_grid { AreOnGrid (grid_of grid) (map block_of blocks.now) }
    ensures grid { IfOk result (λ t. HasGrid t grid.cols grid.rows) }
    ensures written { IfOk result (λ t. AreWritten (grid_of grid) (map block_of blocks.now) [] t) }
{
    let leaves = leaves_of(alloc, grid, blocks)?;
    Ok(TagTrees {
        inclusion: tree_of(alloc, grid, &leaves.inclusion)?,
        planes: tree_of(alloc, grid, &leaves.planes)?,
    })
}
