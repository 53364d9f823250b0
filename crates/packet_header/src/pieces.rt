//! The values of an included code-block (T.800 B.10.6 and B.10.7, with the segments of T.814), each
//! with what follows it, so that reading can begin at any of them.
ghost use Rattle.std.specs.Prelude.{◌≡◌, ◌≤◌, true, length};
ghost use Rattle.codestream_model.specs.HeaderPieces.{refine_width};
ghost use Rattle.stuffed_bits.specs.BitInState.{IsFree, IsOfNumber, IsOfRun};
ghost use Rattle.packet_header.specs.Positions.{seat_at};
ghost use Rattle.packet_header.specs.Steps.{Fits, FitsBlock, IsOfBlock, ReadsFrom, position_of};

use crate::block::{Block, Position};
use crate::refusal::{HeaderStop, HeaderWhy};
use crate::source;
use crate::step::{Step, noted};
use stuffed_bits::Source;

/// The least Lblock (T.800 B.10.7.1).
pub const LEAST_LBLOCK: u8 = 3;

/// As many ones as this are too many for an Lblock: it would pass 24.
const MOST_ONES: u8 = 22;

/// A cleanup segment has at least this many bytes.
pub const LEAST_CLEANUP: u32 = 2;

/// A cleanup segment has fewer bytes than this.
pub const CLEANUP_END: u32 = 65_535;

/// A refinement segment has fewer bytes than this.
pub const REFINE_END: u32 = 2_047;

/// The bits of a refinement length.
pub fn refine_bits(passes: u8, lblock: u8) -> u8
    requires { lblock ≤ 24 }
    ensures width { result ≡ refine_width passes lblock }
    ensures low { result ≤ 25 }
{
    if passes == 2 { lblock } else { lblock + 1 }
}

/// Reads the values from the first bit of the number of passes on: `0` is 1.
#[inline(always)]
fn first_passes(known: Block, step: &mut Step, source: &mut Source<'_>) -> Result<Block, HeaderStop>
    requires within { source.old.at ≤ length source.old.piece.now }
    requires free { IsFree source.old.bits }
    ensures reads { ReadsFrom (position_of known) (Step.Passes known.planes)
        step.new source.old source.new result }
    ensures fits { FitsBlock step.new source.new.bits.part result }
    ensures within { source.new.at ≤ length source.new.piece.now }
    ensures piece { source.new.piece.now ≡ source.old.piece.now }
{
    let here = Step::Passes {
        planes: known.planes,
    };
    if noted(source::bit(source), here, step)? {
        return more_passes(known, step, source);
    }
    lblock(Block { passes: 1, ..known }, step, source)
}

/// Reads the values from the second bit on, after a 1: `10` is 2.
#[inline(always)]
fn more_passes(known: Block, step: &mut Step, source: &mut Source<'_>) -> Result<Block, HeaderStop>
    requires within { source.old.at ≤ length source.old.piece.now }
    requires free { IsFree source.old.bits }
    ensures reads { ReadsFrom (position_of known) (Step.MorePasses known.planes)
        step.new source.old source.new result }
    ensures fits { FitsBlock step.new source.new.bits.part result }
    ensures within { source.new.at ≤ length source.new.piece.now }
    ensures piece { source.new.piece.now ≡ source.old.piece.now }
{
    let here = Step::MorePasses {
        planes: known.planes,
    };
    if noted(source::bit(source), here, step)? {
        return last_passes(known, step, source);
    }
    lblock(Block { passes: 2, ..known }, step, source)
}

/// Reads the values from the last two bits of the number of passes on, after two ones: `1100` is 3.
#[inline(always)]
fn last_passes(known: Block, step: &mut Step, source: &mut Source<'_>) -> Result<Block, HeaderStop>
    requires within { source.old.at ≤ length source.old.piece.now }
    requires own { IsOfNumber 2 source.old.bits.part }
    ensures reads { ReadsFrom (position_of known) (Step.LastPasses known.planes)
        step.new source.old source.new result }
    ensures fits { FitsBlock step.new source.new.bits.part result }
    ensures within { source.new.at ≤ length source.new.piece.now }
    ensures piece { source.new.piece.now ≡ source.old.piece.now }
{
    let here = Step::LastPasses {
        planes: known.planes,
    };
    let code = noted(source::number(2, source), here, step)?;
    if code != 0 {
        return Err(HeaderStop::Bad(HeaderWhy::Passes));
    }
    lblock(Block { passes: 3, ..known }, step, source)
}

/// Reads the values from Lblock on: a one for each number that it is above 3, and a zero.
#[inline(always)]
fn lblock(known: Block, step: &mut Step, source: &mut Source<'_>) -> Result<Block, HeaderStop>
    requires within { source.old.at ≤ length source.old.piece.now }
    requires own { IsOfRun true source.old.bits.part }
    ensures reads { ReadsFrom (position_of known) (Step.Lblock known.planes known.passes)
        step.new source.old source.new result }
    ensures fits { FitsBlock step.new source.new.bits.part result }
    ensures within { source.new.at ≤ length source.new.piece.now }
    ensures piece { source.new.piece.now ≡ source.old.piece.now }
{
    let here = Step::Lblock {
        planes: known.planes,
        passes: known.passes,
    };
    let ones = noted(source::run(true, MOST_ONES, source), here, step)?;
    if ones >= MOST_ONES {
        return Err(HeaderStop::Bad(HeaderWhy::LengthBits));
    }
    cleanup(known, LEAST_LBLOCK + ones, step, source)
}

/// Reads the lengths of the segments, from that of the cleanup segment on: 2 to 65,534.
#[inline(always)]
fn cleanup(
    known: Block,
    lblock: u8,
    step: &mut Step,
    source: &mut Source<'_>,
) -> Result<Block, HeaderStop>
    requires within { source.old.at ≤ length source.old.piece.now }
    requires low { lblock ≤ 24 }
    requires own { IsOfNumber lblock source.old.bits.part }
    ensures reads { ReadsFrom (position_of known) (Step.Cleanup known.planes known.passes lblock)
        step.new source.old source.new result }
    ensures fits { FitsBlock step.new source.new.bits.part result }
    ensures within { source.new.at ≤ length source.new.piece.now }
    ensures piece { source.new.piece.now ≡ source.old.piece.now }
{
    let here = Step::Cleanup {
        planes: known.planes,
        passes: known.passes,
        lblock,
    };
    let length = noted(source::number(lblock, source), here, step)?;
    if length < LEAST_CLEANUP {
        return Err(HeaderStop::Bad(HeaderWhy::CleanupShort));
    }
    if length >= CLEANUP_END {
        return Err(HeaderStop::Bad(HeaderWhy::CleanupLong));
    }
    refine(
        Block {
            cleanup: length,
            ..known
        },
        lblock,
        step,
        source,
    )
}

/// Reads the length of the refinement segment, 0 to 2,046; with one pass there is none.
#[inline(always)]
fn refine(
    known: Block,
    lblock: u8,
    step: &mut Step,
    source: &mut Source<'_>,
) -> Result<Block, HeaderStop>
    requires within { source.old.at ≤ length source.old.piece.now }
    requires low { lblock ≤ 24 }
    requires none { known.passes ≤ 1 → IsFree source.old.bits }
    requires own { 2 ≤ known.passes
        → IsOfNumber (refine_width known.passes lblock) source.old.bits.part }
    ensures reads { ReadsFrom (position_of known)
        (Step.Refine known.planes known.passes lblock known.cleanup) step.new source.old source.new result }
    ensures fits { FitsBlock step.new source.new.bits.part result }
    ensures within { source.new.at ≤ length source.new.piece.now }
    ensures piece { source.new.piece.now ≡ source.old.piece.now }
{
    if known.passes <= 1 {
        return Ok(Block { refine: 0, ..known });
    }
    let here = Step::Refine {
        planes: known.planes,
        passes: known.passes,
        lblock,
        cleanup: known.cleanup,
    };
    let width = refine_bits(known.passes, lblock);
    let length = noted(source::number(width, source), here, step)?;
    if length >= REFINE_END {
        return Err(HeaderStop::Bad(HeaderWhy::RefineLong));
    }
    Ok(Block {
        refine: length,
        ..known
    })
}

/// Reads the values of a code-block from a step on, and notes the step where the reading stops.
#[inline(always)]
pub fn values(
    from: Step,
    step: &mut Step,
    at: Position,
    source: &mut Source<'_>,
) -> Result<Block, HeaderStop>
    requires within { source.old.at ≤ length source.old.piece.now }
    requires fits { Fits from source.old.bits.part }
    requires of_block { IsOfBlock from }
    ensures reads { ReadsFrom (seat_at at) from step.new source.old source.new result }
    ensures fits { FitsBlock step.new source.new.bits.part result }
    ensures within { source.new.at ≤ length source.new.piece.now }
    ensures piece { source.new.piece.now ≡ source.old.piece.now }
{
    let none = Block {
        band: at.band,
        col: at.col,
        row: at.row,
        planes: 0,
        passes: 0,
        cleanup: 0,
        refine: 0,
    };
    match from {
        Step::Passes { planes } => first_passes(Block { planes, ..none }, step, source),
        Step::MorePasses { planes } => more_passes(Block { planes, ..none }, step, source),
        Step::LastPasses { planes } => last_passes(Block { planes, ..none }, step, source),
        Step::Lblock { planes, passes } => lblock(
            Block {
                planes,
                passes,
                ..none
            },
            step,
            source,
        ),
        Step::Cleanup {
            planes,
            passes,
            lblock,
        } => cleanup(
            Block {
                planes,
                passes,
                ..none
            },
            lblock,
            step,
            source,
        ),
        Step::Refine {
            planes,
            passes,
            lblock,
            cleanup,
        } => refine(
            Block {
                planes,
                passes,
                cleanup,
                ..none
            },
            lblock,
            step,
            source,
        ),
        Step::Inclusion | Step::Planes => unreachable!(),
    }
}
