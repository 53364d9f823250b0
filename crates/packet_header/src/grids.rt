//! The code-blocks of a grid, read in raster order and each step by step.
ghost use Rattle.std.specs.Prelude.{◌≡◌, ◌≤◌, ◌<◌, ◌+◌, ◌*◌, false, [], length, IfOk, IfErr, vec_len, vec_capacity};
ghost use Rattle.stuffed_bits.specs.BitInState.{IsOfRun};
ghost use Rattle.tag_tree.specs.LeafReading.{IsSameShape};
ghost use Rattle.packet_header.specs.Steps.{Fits, IsOfBlock};
ghost use Rattle.packet_header.specs.Positions.{position_at, seat_at, KnowsBoth, HasGrid, IsReady, ReadsBlock, KeepsBlock, FitsAt};
ghost use Rattle.packet_header.specs.Walks.{positions_in, WalksOn};

use crate::block::{Block, Position};
use crate::pieces::values;
use crate::refusal::HeaderStop;
use crate::source;
use crate::step::{Step, noted};
use precinct_geometry::Grid;
use stuffed_bits::Source;
use tag_tree::Tree;

/// The two trees of a band.
#[derive(Drop)]
pub struct TagTrees {
    /// Which code-blocks are included.
    pub inclusion: Tree,
    /// Their zero bit-planes.
    pub planes: Tree,
}

/// Reads the values of a code-block from a step on, and keeps it.
#[inline(always)]
fn keep_values(
    from: Step,
    step: &mut Step,
    at: Position,
    source: &mut Source<'_>,
    blocks: &mut Vec<Block>,
) -> Result<(), HeaderStop>
    requires within { source.old.at ≤ length source.old.piece.now }
    requires fits { Fits from source.old.bits.part }
    requires of_block { IsOfBlock from }
    requires room { vec_len blocks.old < vec_capacity blocks.old }
    ensures read { KeepsBlock (seat_at at) from step.new source.old source.new
        blocks.old.items blocks.new.items result }
    ensures fits { FitsAt step.new source.new.bits.part result }
    ensures within { source.new.at ≤ length source.new.piece.now }
    ensures piece { source.new.piece.now ≡ source.old.piece.now }
    ensures few { vec_len blocks.new ≤ vec_len blocks.old + 1 }
    ensures kept { IfErr result (λ _. vec_len blocks.new ≡ vec_len blocks.old) }
    ensures capacity { vec_capacity blocks.new ≡ vec_capacity blocks.old }
{
    let block = values(from, step, at, source)?;
    *step = Step::Inclusion;
    blocks.push_reserved(block);
    Ok(())
}

/// Reads the values of a code-block from the step on at which the last piece ended, and keeps it.
///
/// It isn't inlined, since few code-blocks lie in two pieces.
#[inline(never)]
fn resume_values(
    step: &mut Step,
    at: Position,
    source: &mut Source<'_>,
    blocks: &mut Vec<Block>,
) -> Result<(), HeaderStop>
    requires within { source.old.at ≤ length source.old.piece.now }
    requires fits { Fits step.old source.old.bits.part }
    requires of_block { IsOfBlock step.old }
    requires room { vec_len blocks.old < vec_capacity blocks.old }
    ensures read { KeepsBlock (seat_at at) step.old step.new source.old source.new
        blocks.old.items blocks.new.items result }
    ensures fits { FitsAt step.new source.new.bits.part result }
    ensures within { source.new.at ≤ length source.new.piece.now }
    ensures piece { source.new.piece.now ≡ source.old.piece.now }
    ensures few { vec_len blocks.new ≤ vec_len blocks.old + 1 }
    ensures kept { IfErr result (λ _. vec_len blocks.new ≡ vec_len blocks.old) }
    ensures capacity { vec_capacity blocks.new ≡ vec_capacity blocks.old }
{
    let from = *step;
    keep_values(from, step, at, source, blocks)
}

impl TagTrees {
    /// Makes these the trees of a grid, of whose nodes none is known.
    pub fn reset(&mut self, cols: u32, rows: u32)
        requires inclusion { cols * rows ≤ self.old.inclusion.leaves }
        requires planes { cols * rows ≤ self.old.planes.leaves }
        ensures grid { HasGrid self.new cols rows }
        ensures empty { KnowsBoth self.new [] [] }
        ensures inclusion { self.new.inclusion.leaves ≡ self.old.inclusion.leaves }
        ensures planes { self.new.planes.leaves ≡ self.old.planes.leaves }
    {
        self.inclusion.reset(cols, rows);
        self.planes.reset(cols, rows);
    }

    /// Reads an included code-block from its zero bit-planes on, and keeps it.
    fn read_planes(
        &mut self,
        step: &mut Step,
        at: Position,
        source: &mut Source<'_>,
        blocks: &mut Vec<Block>,
    ) -> Result<(), HeaderStop>
        requires within { source.old.at ≤ length source.old.piece.now }
        requires ready { IsReady self.old (seat_at at) Step.Planes source.old }
        requires own { IsOfRun false source.old.bits.part }
        requires same { HasGrid self.old self.old.inclusion.cols self.old.inclusion.rows }
        requires col_in { at.col < self.old.inclusion.cols }
        requires row_in { at.row < self.old.inclusion.rows }
        requires room { vec_len blocks.old < vec_capacity blocks.old }
        ensures read { ReadsBlock self.old self.new (seat_at at) Step.Planes step.new
            source.old source.new blocks.old.items blocks.new.items result }
        ensures fits { FitsAt step.new source.new.bits.part result }
        ensures inclusion { self.new.inclusion ≡ self.old.inclusion }
        ensures planes { IsSameShape self.old.planes self.new.planes }
        ensures within { source.new.at ≤ length source.new.piece.now }
        ensures piece { source.new.piece.now ≡ source.old.piece.now }
        ensures few { vec_len blocks.new ≤ vec_len blocks.old + 1 }
        ensures kept { IfErr result (λ _. vec_len blocks.new ≡ vec_len blocks.old) }
        ensures capacity { vec_capacity blocks.new ≡ vec_capacity blocks.old }
    {
        let label = source::planes(&mut self.planes, at.col, at.row, source);
        let planes = noted(label, Step::Planes, step)?;
        keep_values(Step::Passes { planes }, step, at, source, blocks)
    }

    /// Reads the code-block at a position from a step on, and keeps it if it is included.
    #[inline(always)]
    fn read_at(
        &mut self,
        step: &mut Step,
        at: Position,
        source: &mut Source<'_>,
        blocks: &mut Vec<Block>,
    ) -> Result<(), HeaderStop>
        requires within { source.old.at ≤ length source.old.piece.now }
        requires ready { IsReady self.old (seat_at at) step.old source.old }
        requires fits { Fits step.old source.old.bits.part }
        requires same { HasGrid self.old self.old.inclusion.cols self.old.inclusion.rows }
        requires col_in { at.col < self.old.inclusion.cols }
        requires row_in { at.row < self.old.inclusion.rows }
        requires room { vec_len blocks.old < vec_capacity blocks.old }
        ensures read { ReadsBlock self.old self.new (seat_at at) step.old step.new
            source.old source.new blocks.old.items blocks.new.items result }
        ensures fits { FitsAt step.new source.new.bits.part result }
        ensures inclusion { IsSameShape self.old.inclusion self.new.inclusion }
        ensures planes { IsSameShape self.old.planes self.new.planes }
        ensures within { source.new.at ≤ length source.new.piece.now }
        ensures piece { source.new.piece.now ≡ source.old.piece.now }
        ensures few { vec_len blocks.new ≤ vec_len blocks.old + 1 }
        ensures kept { IfErr result (λ _. vec_len blocks.new ≡ vec_len blocks.old) }
        ensures capacity { vec_capacity blocks.new ≡ vec_capacity blocks.old }
    {
        match *step {
            Step::Inclusion => {
                let label = source::inclusion(&mut self.inclusion, at.col, at.row, source)?;
                if label != 0 {
                    return Ok(());
                }
                self.read_planes(step, at, source, blocks)
            }
            Step::Planes => self.read_planes(step, at, source, blocks),
            _ => resume_values(step, at, source, blocks),
        }
    }

    /// Reads what is left of the code-blocks of a grid, from a place on.
    pub fn read_grid(
        &mut self,
        grid: Grid,
        col: &mut u32,
        row: &mut u32,
        step: &mut Step,
        source: &mut Source<'_>,
        blocks: &mut Vec<Block>,
    ) -> Result<(), HeaderStop>
        requires within { source.old.at ≤ length source.old.piece.now }
        requires ready { IsReady self.old (position_at grid.band col.old row.old) step.old
            source.old }
        requires fits { Fits step.old source.old.bits.part }
        requires same { HasGrid self.old grid.cols grid.rows }
        requires col_in { col.old < grid.cols }
        requires none { positions_in grid row.old col.old ≡ [] → step.old ≡ Step.Inclusion }
        requires room { vec_len blocks.old + length (positions_in grid row.old col.old)
            ≤ vec_capacity blocks.old }
        ensures read { WalksOn self.old self.new
            (positions_in grid row.old col.old) (positions_in grid row.new col.new)
            step.old step.new source.old source.new blocks.old.items blocks.new.items result }
        ensures whole { IfOk result (λ _. positions_in grid row.new col.new ≡ []) }
        ensures fits { FitsAt step.new source.new.bits.part result }
        ensures col_in { col.new < grid.cols }
        ensures none { positions_in grid row.new col.new ≡ [] → step.new ≡ Step.Inclusion }
        ensures few { vec_len blocks.new + length (positions_in grid row.new col.new)
            ≤ vec_len blocks.old + length (positions_in grid row.old col.old) }
        ensures inclusion { IsSameShape self.old.inclusion self.new.inclusion }
        ensures planes { IsSameShape self.old.planes self.new.planes }
        ensures within { source.new.at ≤ length source.new.piece.now }
        ensures piece { source.new.piece.now ≡ source.old.piece.now }
        ensures capacity { vec_capacity blocks.new ≡ vec_capacity blocks.old }
    {
        while *row < grid.rows {
            let at = Position {
                band: grid.band,
                col: *col,
                row: *row,
            };
            self.read_at(step, at, source, blocks)?;
            *col += 1;
            if *col == grid.cols {
                *col = 0;
                *row += 1;
            }
        }
        Ok(())
    }
}
