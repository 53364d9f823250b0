//! The values of a packet header, one after another of the bytes at hand.
ghost use Rattle.std.specs.Prelude.{◌≡◌, ◌≤◌, ◌<◌, ℕ, List, Bool, false, length, IfOk, OnOk, IsSome};
ghost use Rattle.codestream_model.specs.PacketHeaderReading.{read_bit, read_number};
ghost use Rattle.stuffed_bits.specs.BitInState.{IsFree, IsOfNumber, IsOfRun};
ghost use Rattle.tag_tree.specs.declared.kind.Kind.TheVariants.{Inclusion, Value};
ghost use Rattle.tag_tree.specs.LeafReading.{IsSameShape};
ghost use Rattle.tag_tree.specs.LeafGoing.{IsFreeOrKnown};
ghost use Rattle.tag_tree.specs.Kinds.{leaf_reading};
ghost use Rattle.packet_header.specs.Leaves.{GetsLeaf, FreesPlanes};
ghost use Rattle.packet_header.specs.Moves.{HasGiven, Gets, GetsRun, IsStopNeed};
ghost use Rattle.packet_header.specs.Closing.{Closes, ClosesAll};

use crate::refusal::HeaderStop;
use stuffed_bits::Source;
use tag_tree::Tree;

/// Reads a bit.
#[inline(always)]
pub fn bit(source: &mut Source<'_>) -> Result<bool, HeaderStop>
    requires within { source.old.at ≤ length source.old.piece.now }
    requires free { IsFree source.old.bits }
    ensures gets { Gets read_bit source.old source.new result }
    ensures free { IsFree source.new.bits }
    ensures within { source.new.at ≤ length source.new.piece.now }
    ensures piece { source.new.piece.now ≡ source.old.piece.now }
{
    Ok(source.bits.bit(source.piece, &mut source.at)?)
}

/// Reads a number of `width` bits, the greatest first.
#[inline(always)]
pub fn number(width: u8, source: &mut Source<'_>) -> Result<u32, HeaderStop>
    requires within { source.old.at ≤ length source.old.piece.now }
    requires low { width ≤ 25 }
    requires own { IsOfNumber width source.old.bits.part }
    ensures gets { Gets (read_number width) source.old source.new result }
    ensures free { OnOk result (IsFree source.new.bits) }
    ensures own { IsStopNeed result → IsOfNumber width source.new.bits.part }
    ensures within { source.new.at ≤ length source.new.piece.now }
    ensures piece { source.new.piece.now ≡ source.old.piece.now }
{
    Ok(source.bits.number(width, source.piece, &mut source.at)?)
}

/// Reads a run of bits of one kind, and the bit that ends it; where it has `most` bits, only these.
#[inline(always)]
pub fn run(of: bool, most: u8, source: &mut Source<'_>) -> Result<u8, HeaderStop>
    requires within { source.old.at ≤ length source.old.piece.now }
    requires own { IsOfRun of source.old.bits.part }
    ensures gets { GetsRun of most source.old source.new result }
    ensures few { IfOk result (λ n. n ≤ most) }
    ensures free { IfOk result (λ n. n < most → IsFree source.new.bits) }
    ensures own { IsStopNeed result → IsOfRun of source.new.bits.part }
    ensures within { source.new.at ≤ length source.new.piece.now }
    ensures piece { source.new.piece.now ≡ source.old.piece.now }
{
    Ok(source.bits.run(of, most, source.piece, &mut source.at)?)
}

/// Reads a leaf of an inclusion tree: 0 where it is included, else 1.
#[inline(always)]
pub fn inclusion(
    tree: &mut Tree,
    col: u32,
    row: u32,
    source: &mut Source<'_>,
) -> Result<u8, HeaderStop>
    requires within { source.old.at ≤ length source.old.piece.now }
    requires free { IsFree source.old.bits }
    requires col_in { col < tree.old.cols }
    requires row_in { row < tree.old.rows }
    ensures gets { GetsLeaf Inclusion col row tree.old tree.new source.old source.new result }
    ensures free { IsFree source.new.bits }
    ensures same { IsSameShape tree.old tree.new }
    ensures within { source.new.at ≤ length source.new.piece.now }
    ensures piece { source.new.piece.now ≡ source.old.piece.now }
{
    Ok(tree.read_inclusion(col, row, source)?)
}

/// Reads a leaf of a value tree, 0 to 74.
#[inline(always)]
pub fn planes(
    tree: &mut Tree,
    col: u32,
    row: u32,
    source: &mut Source<'_>,
) -> Result<u8, HeaderStop>
    requires within { source.old.at ≤ length source.old.piece.now }
    requires own { IsOfRun false source.old.bits.part }
    requires col_in { col < tree.old.cols }
    requires row_in { row < tree.old.rows }
    ensures gets { GetsLeaf Value col row tree.old tree.new source.old source.new result }
    ensures free { FreesPlanes col row tree.old tree.new source.old source.new result }
    ensures own { IsStopNeed result → IsOfRun false source.new.bits.part }
    ensures same { IsSameShape tree.old tree.new }
    ensures within { source.new.at ≤ length source.new.piece.now }
    ensures piece { source.new.piece.now ≡ source.old.piece.now }
{
    Ok(tree.read_value(col, row, source)?)
}

/// Drops the pad bits, takes the byte after a last byte FF, and answers how many bytes of the piece
/// were taken. A bit was read before.
pub fn close(source: &mut Source<'_>) -> Result<usize, HeaderStop>
    requires within { source.old.at ≤ length source.old.piece.now }
    requires free { IsFree source.old.bits }
    requires begun { IsSome source.old.bits.last }
    ensures closes { ClosesAll source.old result }
    ensures same { IsStopNeed result → source.new.bits ≡ source.old.bits }
    ensures whole { IsStopNeed result → source.old.at ≡ length source.old.piece.now }
    ensures within { IfOk result (λ used. used ≤ length source.new.piece.now) }
    ensures piece { source.new.piece.now ≡ source.old.piece.now }
{
    source.bits.close(source.piece, &mut source.at)?;
    Ok(source.at)
}
