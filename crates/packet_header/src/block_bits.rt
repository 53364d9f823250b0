//! The bits of an included code-block's values (T.800 B.10.6 and B.10.7, with the segments of T.814).
ghost use Rattle.std.specs.Prelude.{◌≡◌, ◌≤◌, ◌+◌, ◌==◌, true, false, length, if◌then◌else◌};
ghost use Rattle.codestream_model.specs.StuffedBits.{number_bits};
ghost use Rattle.codestream_model.specs.TagTrees.{exponent};
ghost use Rattle.codestream_model.specs.HeaderPieces.{passes_code, run_of};
ghost use Rattle.codestream_model.specs.PacketHeader.{IsWithinLimits, least_lblock};
ghost use Rattle.packet_header.specs.Answers.{block_of};
ghost use Rattle.packet_header.specs.Puts.{Puts, refine_tail, value_bits};

use crate::block::Block;
use crate::pieces::{LEAST_LBLOCK, refine_bits};
use stuffed_bits::{BitWriter, Full};

/// Puts `ones` ones and a zero.
fn put_ones(ones: u8, bits: &mut BitWriter, buf: &mut [u8]) -> Result<(), Full>
    requires { bits.old.len ≤ length buf.old }
    ensures { Puts (run_of true ones false) bits.old bits.new buf.old buf.new result }
{
    if ones == 0 {
        return bits.put(false, buf);
    }
    bits.put(true, buf)?;
    put_ones(ones - 1, bits, buf)
}

/// Puts a number in `width` bits.
fn put_number(width: u8, number: u32, bits: &mut BitWriter, buf: &mut [u8]) -> Result<(), Full>
    requires low { width ≤ 32 }
    requires inside { bits.old.len ≤ length buf.old }
    ensures { Puts (number_bits width number) bits.old bits.new buf.old buf.new result }
{
    if width == 0 {
        return Ok(());
    }
    bits.put((number >> (width - 1)) % 2 == 1, buf)?;
    put_number(width - 1, number, bits, buf)
}

/// Puts the number of coding passes, 1 to 3: `0`, `10` or `1100`.
fn put_passes(passes: u8, bits: &mut BitWriter, buf: &mut [u8]) -> Result<(), Full>
    requires some { 1 ≤ passes }
    requires few { passes ≤ 3 }
    requires inside { bits.old.len ≤ length buf.old }
    ensures { Puts (passes_code passes) bits.old bits.new buf.old buf.new result }
{
    match passes {
        1 => put_number(1, 0b0, bits, buf),
        2 => put_number(2, 0b10, bits, buf),
        _ => put_number(4, 0b1100, bits, buf),
    }
}

/// The number of bits of a number, without leading zeros.
fn bits_in(number: u32) -> u8
    ensures exponent { result ≡ exponent (number + 1) }
    ensures low { result ≤ 32 }
{
    if number == 0 {
        return 0;
    }
    bits_in(number / 2) + 1
}

/// How many bits a refinement length has beyond Lblock.
fn further_bits(passes: u8) -> u8
    ensures { result ≡ (if passes == 3 then 1 else 0) }
{
    if passes == 3 { 1 } else { 0 }
}

/// The least Lblock that both lengths of a code-block fit.
fn lblock_of(block: &Block) -> u8
    requires { IsWithinLimits (block_of block.now) }
    ensures least { result ≡ least_lblock (block_of block.now) }
    ensures low { result ≤ 24 }
{
    let refine = bits_in(block.refine).saturating_sub(further_bits(block.passes));
    LEAST_LBLOCK.max(bits_in(block.cleanup).max(refine))
}

/// Puts the length of a refinement segment; with one pass there is none.
fn put_refine(block: &Block, lblock: u8, bits: &mut BitWriter, buf: &mut [u8]) -> Result<(), Full>
    requires low { lblock ≤ 24 }
    requires inside { bits.old.len ≤ length buf.old }
    ensures { Puts (refine_tail block.now.passes lblock block.now.refine)
        bits.old bits.new buf.old buf.new result }
{
    if block.passes == 1 {
        return Ok(());
    }
    put_number(refine_bits(block.passes, lblock), block.refine, bits, buf)
}

/// Puts the values of an included code-block, after its zero bit-planes: its passes, Lblock, and the lengths of its segments.
pub fn put_values(block: &Block, bits: &mut BitWriter, buf: &mut [u8]) -> Result<(), Full>
    requires limits { IsWithinLimits (block_of block.now) }
    requires inside { bits.old.len ≤ length buf.old }
    ensures { Puts (value_bits (least_lblock (block_of block.now)) (block_of block.now))
        bits.old bits.new buf.old buf.new result }
{
    let lblock = lblock_of(block);
    put_passes(block.passes, bits, buf)?;
    put_ones(lblock - LEAST_LBLOCK, bits, buf)?;
    put_number(lblock, block.cleanup, bits, buf)?;
    put_refine(block, lblock, bits, buf)
}
