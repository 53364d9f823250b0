//! Code-blocks that are taken in header order.
ghost use Rattle.std.specs.Prelude.{◌≡◌, ◌↔◌, [], map, IsTrue};
ghost use Rattle.packet_header.specs.Answers.{block_of};
ghost use Rattle.packet_header.specs.Positions.{position_at};
ghost use Rattle.packet_header.specs.Queues.{remaining, TakesAt};

use crate::block::Block;

/// Code-blocks that are taken one after another.
#[derive(Drop)]
pub struct Queue<'a> {
    blocks: &'a [Block],
    /// How many were taken.
    at: usize,
}

impl<'a> Queue<'a> {
    /// A queue of all of these.
    pub fn new(blocks: &'a [Block]) -> Queue<'a>
        ensures { remaining result ≡ map block_of blocks.now }
    {
        Queue { blocks, at: 0 }
    }

    /// Takes the next code-block, if it is at this position.
    pub fn take_at(&mut self, band: u8, col: u32, row: u32) -> Option<Block>
        ensures { TakesAt (position_at band col row)
            (remaining self.old) (remaining self.new) result }
    {
        if self.at >= self.blocks.len() {
            return None;
        }
        let block = self.blocks[self.at];
        if block.band != band || block.col != col || block.row != row {
            return None;
        }
        self.at += 1;
        Some(block)
    }

    /// Whether none remains.
    pub fn is_done(&self) -> bool
        ensures { IsTrue result ↔ (remaining self.now ≡ []) }
    {
        self.at >= self.blocks.len()
    }
}
