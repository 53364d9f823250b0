//! Packet headers that were worked out by hand from the bits, or by another program.
ghost use Rattle.std.specs.Prelude.{◌≡◌, ◌≤◌, ◌+◌, ◌*◌, [], ◌∷◌, map};
ghost use Rattle.codestream_model.specs.Packet.{block_count};
ghost use Rattle.codestream_model.specs.PacketHeader.{HaveOwnBands};
ghost use Rattle.precinct_geometry.specs.Spans.{grid_of};

use super::*;
use precinct_geometry::{Bands, Grid};
use std::alloc::{AllocError, Global};

/// The one grid of a precinct of resolution 0.
fn lowest(cols: u32, rows: u32) -> Bands
    ensures { result.items ≡ record { band = 0; cols = cols; rows = rows } ∷ [] }
{
    let mut bands = Bands::new();
    bands.push(Grid {
        band: 0,
        cols,
        rows,
    });
    bands
}

/// The three grids of a precinct of a higher resolution.
fn higher(hl: (u32, u32), lh: (u32, u32), hh: (u32, u32)) -> Bands
    ensures { result.items ≡ record { band = 1; cols = hl.0; rows = hl.1 } ∷ record { band = 2; cols = lh.0; rows = lh.1 } ∷ record { band = 3; cols = hh.0; rows = hh.1 } ∷ [] }
{
    let mut bands = Bands::new();
    bands.push(Grid {
        band: 1,
        cols: hl.0,
        rows: hl.1,
    });
    bands.push(Grid {
        band: 2,
        cols: lh.0,
        rows: lh.1,
    });
    bands.push(Grid {
        band: 3,
        cols: hh.0,
        rows: hh.1,
    });
    bands
}

/// Bytes, and what is read of them: of a precinct with one grid of these columns and rows.
#[derive(Clone, Copy)]
struct Case {
    cols: u8,
    rows: u8,
    bytes: &'static [u8],
    out: HeaderOut,
    blocks: &'static [Block],
}

/// A code-block: its band, its column and row, its zero bit-planes, passes, and the bytes of its segments.
macro_rules! block {
    ($band:literal, $col:literal, $row:literal, $planes:literal, $passes:literal, $cleanup:literal, $refine:literal) => {
        Block {
            band: $band,
            col: $col,
            row: $row,
            planes: $planes,
            passes: $passes,
            cleanup: $cleanup,
            refine: $refine,
        }
    };
}

mod pieces;

/// A case with one code-block.
const fn of_one(bytes: &'static [u8], out: HeaderOut, blocks: &'static [Block]) -> Case {
    Case {
        cols: 1,
        rows: 1,
        bytes,
        out,
        blocks,
    }
}

/// A refusal, and bytes of one code-block that end one bit before it.
const fn refused(bytes: &'static [u8], why: HeaderWhy) -> Case {
    of_one(bytes, HeaderOut::Bad(why), &[])
}

const fn wanting(bytes: &'static [u8]) -> Case {
    of_one(bytes, HeaderOut::Need, &[])
}

/// Whether a case is answered right for its bytes after the first `earlier`, with its code-blocks.
fn is_answer(reader: &HeaderReader, out: HeaderOut, case: &Case, earlier: usize) -> bool {
    let expected = match case.out {
        HeaderOut::Done(used) => HeaderOut::Done(used.saturating_sub(earlier)),
        other => other,
    };
    let same_blocks = !matches!(out, HeaderOut::Done(_)) || reader.blocks() == case.blocks;
    out == expected && same_blocks
}

/// The first of these cases that is read otherwise.
fn first_other(alloc: Global, cases: &[Case]) -> Result<Option<usize>, AllocError> {
    let mut reader = HeaderReader::reserve(alloc, 65_536)?;
    for (row, case) in cases.iter().enumerate() {
        let bands = lowest(u32::from(case.cols), u32::from(case.rows));
        let out = reader.read(&bands, false, case.bytes);
        if !is_answer(&reader, out, case, 0) {
            return Ok(Some(row));
        }
    }
    Ok(None)
}

#[test]
fn headers_of_one_code_block_are_read(rt: HostRuntime) -> Result<(), AllocError> {
    let cases = [
        wanting(&[]),
        of_one(&[0x00, 0xFF], HeaderOut::Done(1), &[]),
        of_one(
            &[0xC8, 0x80, 0xAA, 0xBB],
            HeaderOut::Done(2),
            &[block!(0, 0, 0, 2, 1, 2, 0)],
        ),
        of_one(
            &[0xF1, 0x30],
            HeaderOut::Done(2),
            &[block!(0, 0, 0, 0, 2, 2, 3)],
        ),
        of_one(
            &[0xF8, 0x46],
            HeaderOut::Done(2),
            &[block!(0, 0, 0, 0, 3, 2, 3)],
        ),
        of_one(
            &[0xEF, 0xFF, 0x00, 0x01, 0x00],
            HeaderOut::Done(5),
            &[block!(0, 0, 0, 0, 1, 2, 0)],
        ),
        wanting(&[0xEF, 0xFF]),
        refused(&[0xEF, 0xFF, 0x80], HeaderWhy::Stuffed),
        wanting(&[0xEF, 0xF0, 0xFF]),
        of_one(
            &[0xEF, 0xF0, 0xFF, 0x00],
            HeaderOut::Done(4),
            &[block!(0, 0, 0, 0, 1, 255, 0)],
        ),
        refused(&[0xEF, 0xF0, 0xFF, 0x80], HeaderWhy::Stuffed),
        refused(&[0xFA], HeaderWhy::Passes),
        refused(&[0xE1], HeaderWhy::CleanupShort),
    ];
    assert_eq!(rt; first_other(rt.alloc(), &cases)?, None);
    Ok(())
}

#[test]
fn headers_of_two_code_blocks_are_read(rt: HostRuntime) -> Result<(), AllocError> {
    let second: &[Block] = &[block!(0, 1, 0, 1, 1, 2, 0)];
    let cases = [
        Case {
            cols: 2,
            rows: 1,
            bytes: &[0x80],
            out: HeaderOut::Done(1),
            blocks: &[],
        },
        Case {
            cols: 2,
            rows: 1,
            bytes: &[0xD6, 0x20],
            out: HeaderOut::Done(2),
            blocks: second,
        },
        Case {
            cols: 2,
            rows: 1,
            bytes: &[0xDA, 0x20],
            out: HeaderOut::Done(2),
            blocks: second,
        },
    ];
    assert_eq!(rt; first_other(rt.alloc(), &cases)?, None);
    Ok(())
}

#[test]
fn each_refusal_waits_for_its_deciding_bit(rt: HostRuntime) -> Result<(), AllocError> {
    let cases = [
        wanting(&[0xCE]),
        refused(&[0xCE, 0x80], HeaderWhy::Passes),
        wanting(&[0xCF]),
        refused(&[0xCF, 0x00], HeaderWhy::Passes),
        wanting(&[0xC0, 0xBF, 0xFF, 0x7F]),
        refused(&[0xC0, 0xBF, 0xFF, 0x7F, 0x80], HeaderWhy::LengthBits),
        wanting(&[0xD0]),
        refused(&[0xD0, 0x80], HeaderWhy::CleanupShort),
        refused(&[0xD0, 0x00], HeaderWhy::CleanupShort),
        wanting(&[0xC0, 0xBF, 0xFE, 0xFF, 0x7F]),
        refused(
            &[0xC0, 0xBF, 0xFE, 0xFF, 0x7F, 0x80],
            HeaderWhy::CleanupLong,
        ),
        wanting(&[0xC1, 0xBF, 0xC0, 0x0B, 0xFF]),
        refused(&[0xC1, 0xBF, 0xC0, 0x0B, 0xFF, 0x40], HeaderWhy::RefineLong),
        refused(&[0xC0, 0, 0, 0, 0, 0, 0, 0, 0, 0], HeaderWhy::ZeroPlanes),
        Case {
            cols: 4,
            rows: 1,
            bytes: &[0xD4, 0, 0, 0, 0, 0, 0, 0, 0, 0],
            out: HeaderOut::Need,
            blocks: &[],
        },
        Case {
            cols: 4,
            rows: 1,
            bytes: &[0xD4, 0, 0, 0, 0, 0, 0, 0, 0, 0, 0],
            out: HeaderOut::Bad(HeaderWhy::ZeroPlanes),
            blocks: &[],
        },
    ];
    assert_eq!(rt; first_other(rt.alloc(), &cases)?, None);
    Ok(())
}

#[test]
fn the_greatest_values_are_read(rt: HostRuntime) -> Result<(), AllocError> {
    let cases = [
        of_one(
            &[0xC0, 0, 0, 0, 0, 0, 0, 0, 0, 0x08, 0x80],
            HeaderOut::Done(11),
            &[block!(0, 0, 0, 74, 1, 2, 0)],
        ),
        of_one(
            &[0xEF, 0xFF, 0x7F, 0xC0, 0x00, 0x00, 0x40],
            HeaderOut::Done(7),
            &[block!(0, 0, 0, 0, 1, 2, 0)],
        ),
        refused(&[0xEF, 0xFF, 0x7F, 0xE0], HeaderWhy::LengthBits),
        of_one(
            &[0xEF, 0xFF, 0x5F, 0xFF, 0x60],
            HeaderOut::Done(5),
            &[block!(0, 0, 0, 0, 1, 65_534, 0)],
        ),
        of_one(&[0xE2], HeaderOut::Done(1), &[block!(0, 0, 0, 0, 1, 2, 0)]),
        of_one(
            &[0xF7, 0xF8, 0x01, 0x7F, 0xE0],
            HeaderOut::Done(5),
            &[block!(0, 0, 0, 0, 2, 2, 2_046)],
        ),
        of_one(
            &[0xF9, 0xFC, 0x01, 0x7F, 0xE0],
            HeaderOut::Done(5),
            &[block!(0, 0, 0, 0, 3, 2, 2_046)],
        ),
        of_one(
            &[0xF8, 0x5E],
            HeaderOut::Done(2),
            &[block!(0, 0, 0, 0, 3, 2, 15)],
        ),
        Case {
            cols: 4,
            rows: 1,
            bytes: &[0xD4, 0, 0, 0, 0, 0, 0, 0, 0, 0, 0xE2],
            out: HeaderOut::Done(11),
            blocks: &[block!(0, 3, 0, 74, 1, 2, 0)],
        },
        Case {
            cols: 5,
            rows: 3,
            bytes: &[
                0xFE, 0x37, 0x50, 0xAE, 0xF4, 0x61, 0x38, 0x20, 0xF9, 0xF6, 0x44, 0xB2, 0x8C, 0x5E,
                0xDF, 0x00,
            ],
            out: HeaderOut::Done(16),
            blocks: &[
                block!(0, 0, 0, 3, 1, 40, 0),
                block!(0, 3, 0, 1, 2, 70, 9),
                block!(0, 4, 1, 5, 3, 200, 300),
                block!(0, 1, 2, 3, 1, 2, 0),
                block!(0, 2, 2, 0, 1, 31, 0),
            ],
        },
    ];
    assert_eq!(rt; first_other(rt.alloc(), &cases)?, None);
    Ok(())
}

#[test]
fn each_band_has_trees_of_its_own(rt: HostRuntime) -> Result<(), AllocError> {
    let mut reader = HeaderReader::reserve(rt.alloc(), 5)?;
    let out = reader.read(&higher((0, 0), (1, 1), (0, 0)), false, &[0xD1, 0x80]);
    assert_eq!(rt; out, HeaderOut::Done(2));
    let below = block!(2, 0, 0, 1, 1, 3, 0);
    assert_eq!(rt; reader.blocks(), [below].as_slice());
    let out = reader.read(
        &higher((2, 1), (1, 2), (1, 1)),
        false,
        &[0xD1, 0x97, 0xEF, 0x64, 0x79, 0x0E, 0x53, 0x1A, 0x20],
    );
    assert_eq!(rt; out, HeaderOut::Done(9));
    let four = [
        block!(1, 1, 0, 3, 1, 5, 0),
        block!(2, 0, 0, 0, 2, 100, 60),
        block!(2, 0, 1, 4, 3, 9, 17),
        block!(3, 0, 0, 1, 1, 2, 0),
    ];
    assert_eq!(rt; reader.blocks(), four.as_slice());
    Ok(())
}

/// What a buffer holds where nothing was written.
const BLANK: [u8; 24] = [0x55; 24];

/// Whether these code-blocks have this header, the bytes after it stay, and a shorter buffer is full.
fn is_written(alloc: Global, bands: &Bands, blocks: &[Block], header: &[u8]) -> bool
    requires own_bands { HaveOwnBands (map grid_of bands.now.items) }
    requires few { block_count (map grid_of bands.now.items) ≤ 65536 }
{
    let mut buf = BLANK;
    match write_header(alloc, bands, blocks, false, &mut buf) {
        Err(_) => false,
        Ok(size) => {
            let shorter = size.saturating_sub(1);
            let same = &buf[..size] == header && buf[size..] == BLANK[size..];
            let full = write_header(alloc, bands, blocks, false, &mut buf[..shorter]);
            same && full == Err(PutFault::Full)
        }
    }
}

#[test]
fn headers_of_one_code_block_are_written(rt: HostRuntime) -> Result<(), PutFault> {
    let cases: [(Block, &[u8]); 12] = [
        (block!(0, 0, 0, 2, 1, 2, 0), &[0xC8, 0x80]),
        (block!(0, 0, 0, 0, 2, 2, 3), &[0xF1, 0x30]),
        (block!(0, 0, 0, 0, 2, 2, 8), &[0xF4, 0x50]),
        (block!(0, 0, 0, 0, 3, 2, 3), &[0xF8, 0x46]),
        (block!(0, 0, 0, 0, 3, 2, 15), &[0xF8, 0x5E]),
        (block!(0, 0, 0, 0, 3, 2, 16), &[0xF9, 0x14, 0x00]),
        (
            block!(0, 0, 0, 0, 3, 2, 2_046),
            &[0xF9, 0xFC, 0x01, 0x7F, 0xE0],
        ),
        (
            block!(0, 0, 0, 0, 2, 2, 2_046),
            &[0xF7, 0xF8, 0x01, 0x7F, 0xE0],
        ),
        (block!(0, 0, 0, 0, 1, 255, 0), &[0xEF, 0xBF, 0xC0]),
        (
            block!(0, 0, 0, 0, 1, 65_534, 0),
            &[0xEF, 0xFF, 0x5F, 0xFF, 0x60],
        ),
        (
            block!(0, 0, 0, 0, 3, 65_534, 2_046),
            &[0xF9, 0xFF, 0x7B, 0xFF, 0x7C, 0x07, 0xFE],
        ),
        (
            block!(0, 0, 0, 74, 1, 2, 0),
            &[0xC0, 0, 0, 0, 0, 0, 0, 0, 0, 0x08, 0x80],
        ),
    ];
    let bands = lowest(1, 1);
    for (block, header) in cases {
        assert!(rt; is_written(rt.alloc(), &bands, &[block], header));
    }
    assert!(rt; is_written(rt.alloc(), &bands, &[], &[0x00]));
    Ok(())
}

#[test]
fn headers_of_more_code_blocks_are_written(rt: HostRuntime) -> Result<(), PutFault> {
    let second = [block!(0, 1, 0, 1, 1, 2, 0)];
    assert!(rt; is_written(rt.alloc(), &lowest(2, 1), &second, &[0xD6, 0x20]));
    let last = [block!(0, 3, 0, 74, 1, 2, 0)];
    let header = [0xD4, 0, 0, 0, 0, 0, 0, 0, 0, 0, 0xE2];
    assert!(rt; is_written(rt.alloc(), &lowest(4, 1), &last, &header));
    let below = [block!(2, 0, 0, 1, 1, 3, 0)];
    let bands = higher((0, 0), (1, 1), (0, 0));
    assert!(rt; is_written(rt.alloc(), &bands, &below, &[0xD1, 0x80]));
    assert!(rt; is_written(rt.alloc(), &bands, &[], &[0x00]));
    let four = [
        block!(1, 1, 0, 3, 1, 5, 0),
        block!(2, 0, 0, 0, 2, 100, 60),
        block!(2, 0, 1, 4, 3, 9, 17),
        block!(3, 0, 0, 1, 1, 2, 0),
    ];
    let header = [0xD1, 0x97, 0xEF, 0x64, 0x79, 0x0E, 0x53, 0x1A, 0x20];
    let bands = higher((2, 1), (1, 2), (1, 1));
    assert!(rt; is_written(rt.alloc(), &bands, &four, &header));
    let five = [
        block!(0, 0, 0, 3, 1, 40, 0),
        block!(0, 3, 0, 1, 2, 70, 9),
        block!(0, 4, 1, 5, 3, 200, 300),
        block!(0, 1, 2, 3, 1, 2, 0),
        block!(0, 2, 2, 0, 1, 31, 0),
    ];
    let header = [
        0xFE, 0x37, 0x50, 0xAE, 0xF4, 0x61, 0x38, 0x20, 0xF9, 0xF6, 0x44, 0xB2, 0x8C, 0x5E, 0xDF,
        0x00,
    ];
    assert!(rt; is_written(rt.alloc(), &lowest(5, 3), &five, &header));
    Ok(())
}

/// Whether these code-blocks are refused, whatever the buffer.
fn are_refused(alloc: Global, bands: &Bands, blocks: &[Block]) -> bool
    requires own_bands { HaveOwnBands (map grid_of bands.now.items) }
    requires few { block_count (map grid_of bands.now.items) ≤ 65536 }
{
    let mut buf = BLANK;
    let wide = write_header(alloc, bands, blocks, false, &mut buf);
    let empty = write_header(alloc, bands, blocks, false, &mut []);
    wide == Err(PutFault::Blocks) && empty == Err(PutFault::Blocks)
}

#[test]
fn code_blocks_that_no_packet_includes_are_refused(rt: HostRuntime) -> Result<(), PutFault> {
    let good = block!(0, 0, 0, 0, 1, 2, 0);
    let cases: [&[Block]; 16] = [
        &[block!(0, 1, 0, 0, 1, 2, 0), good],
        &[block!(0, 0, 1, 0, 1, 2, 0), block!(0, 1, 0, 0, 1, 2, 0)],
        &[good, good],
        &[good, block!(0, 0, 0, 3, 2, 9, 9)],
        &[block!(0, 2, 0, 0, 1, 2, 0)],
        &[block!(0, 0, 2, 0, 1, 2, 0)],
        &[block!(1, 0, 0, 0, 1, 2, 0)],
        &[good, block!(1, 1, 0, 0, 1, 2, 0)],
        &[block!(0, 0, 0, 0, 0, 2, 0)],
        &[block!(0, 0, 0, 0, 4, 2, 0)],
        &[block!(0, 0, 0, 75, 1, 2, 0)],
        &[block!(0, 0, 0, 0, 1, 1, 0)],
        &[block!(0, 0, 0, 0, 1, 65_535, 0)],
        &[block!(0, 0, 0, 0, 2, 2, 2_047)],
        &[block!(0, 0, 0, 0, 1, 2, 1)],
        &[good, block!(0, 1, 0, 0, 3, 2, 2_047)],
    ];
    let bands = lowest(2, 2);
    for blocks in cases {
        assert!(rt; are_refused(rt.alloc(), &bands, blocks));
    }
    let swapped = [block!(2, 0, 0, 0, 1, 2, 0), block!(1, 0, 0, 0, 1, 2, 0)];
    assert!(rt; are_refused(rt.alloc(), &higher((1, 1), (1, 1), (1, 1)), &swapped));
    Ok(())
}

/// Adds the code-blocks of a grid, all included.
fn include_all(blocks: &mut Vec<Block>, band: u8, cols: u32, rows: u32) -> Result<(), AllocError> {
    for row in 0..rows {
        for col in 0..cols {
            blocks.push(Block {
                band,
                col,
                row,
                planes: 0,
                passes: 1,
                cleanup: 2,
                refine: 0,
            })?;
        }
    }
    Ok(())
}

/// A buffer that is longer than the longest header.
fn long_buffer(alloc: Global) -> Result<Vec<u8>, AllocError> {
    vec![in alloc; 0x55u8; 70_000]
}

/// The first `size` of these bytes, or all.
fn front(bytes: &[u8], size: usize) -> &[u8] {
    &bytes[..size.min(bytes.len())]
}

/// What is read of the first `size` bytes.
fn read_front(
    alloc: Global,
    bands: &Bands,
    eph: bool,
    bytes: &[u8],
    size: usize,
) -> Result<HeaderOut, AllocError>
    requires own_bands { HaveOwnBands (map grid_of bands.now.items) }
    requires few { block_count (map grid_of bands.now.items) ≤ 65536 }
{
    let mut reader = HeaderReader::reserve(alloc, 65_536)?;
    Ok(reader.read(bands, eph, front(bytes, size)))
}

/// Whether these code-blocks are read of these bytes, and they are a header of this size.
fn is_read_back(
    alloc: Global,
    bands: &Bands,
    blocks: &[Block],
    bytes: &[u8],
    size: usize,
) -> Result<bool, AllocError>
    requires own_bands { HaveOwnBands (map grid_of bands.now.items) }
    requires few { block_count (map grid_of bands.now.items) ≤ 65536 }
{
    let mut reader = HeaderReader::reserve(alloc, 65_536)?;
    let out = reader.read(bands, false, bytes);
    Ok(out == HeaderOut::Done(size) && reader.blocks() == blocks)
}

#[test]
fn a_header_of_65_536_code_blocks_is_read_back(rt: HostRuntime) -> Result<(), PutFault> {
    let mut blocks = Vec::new(rt.alloc());
    include_all(&mut blocks, 1, 256, 128)?;
    include_all(&mut blocks, 2, 128, 128)?;
    include_all(&mut blocks, 3, 128, 128)?;
    assert_eq!(rt; blocks.len(), 65_536);
    let bands = higher((256, 128), (128, 128), (128, 128));
    let mut buf = long_buffer(rt.alloc())?;
    let size = write_header(rt.alloc(), &bands, &blocks, false, &mut buf);
    assert_eq!(rt; size, Ok(62_849));
    assert_eq!(rt; front(&buf, 4), [0xFF, 0x7F, 0xF1, 0x62].as_slice());
    assert!(rt; front(&buf, 62_849).ends_with(&[0x58, 0xB1, 0x62, 0xC4]));
    assert!(rt; is_read_back(rt.alloc(), &bands, &blocks, &buf, 62_849)?);
    Ok(())
}

/// Writes the header of 256 columns and rows of code-blocks, of which the first `longer` have a longer
/// cleanup segment.
fn write_many(alloc: Global, longer: usize, eph: bool, buf: &mut [u8]) -> Result<usize, PutFault> {
    let mut blocks = Vec::new(alloc);
    include_all(&mut blocks, 0, 256, 256)?;
    for (at, block) in blocks.iter_mut().enumerate() {
        if at < longer {
            block.cleanup = 8;
        }
    }
    write_header(alloc, &lowest(256, 256), &blocks, eph, buf)
}

#[test]
fn a_header_of_65_536_bytes_is_the_longest_that_is_read(rt: HostRuntime) -> Result<(), PutFault> {
    let bands = lowest(256, 256);
    let mut buf = long_buffer(rt.alloc())?;
    assert_eq!(rt; write_many(rt.alloc(), 10_748, false, &mut buf), Ok(65_536));
    let longest = HeaderOut::Done(65_536);
    assert_eq!(rt;
        read_front(rt.alloc(), &bands, false, &buf, 70_000)?,
        longest
    );
    assert_eq!(rt;
        read_front(rt.alloc(), &bands, false, &buf, 65_536)?,
        longest
    );
    assert_eq!(rt;
        read_front(rt.alloc(), &bands, false, &buf, 65_535)?,
        HeaderOut::Need
    );
    Ok(())
}

#[test]
fn a_header_of_65_537_bytes_is_written_and_not_read(rt: HostRuntime) -> Result<(), PutFault> {
    let bands = lowest(256, 256);
    let mut buf = long_buffer(rt.alloc())?;
    assert_eq!(rt; write_many(rt.alloc(), 10_752, false, &mut buf), Ok(65_537));
    let too_long = HeaderOut::Bad(HeaderWhy::TooLong);
    assert_eq!(rt;
        read_front(rt.alloc(), &bands, false, &buf, 70_000)?,
        too_long
    );
    assert_eq!(rt;
        read_front(rt.alloc(), &bands, false, &buf, 65_536)?,
        too_long
    );
    assert_eq!(rt;
        read_front(rt.alloc(), &bands, false, &buf, 65_535)?,
        HeaderOut::Need
    );
    Ok(())
}

/// What is read of these bytes, of a precinct with one code-block, where EPH follows each packet header.
fn read_marked(alloc: Global, bytes: &[u8]) -> Result<HeaderOut, AllocError> {
    let mut reader = HeaderReader::reserve(alloc, 65_536)?;
    Ok(reader.read(&lowest(1, 1), true, bytes))
}

#[test]
fn eph_belongs_to_the_header_where_it_is_asked_for(rt: HostRuntime) -> Result<(), AllocError> {
    let no_eph = HeaderOut::Bad(HeaderWhy::NoEph);
    let cases: [(&[u8], HeaderOut); 12] = [
        (&[0xC8, 0x80, 0xFF, 0x92, 0xAA, 0xBB], HeaderOut::Done(4)),
        (&[0x00, 0xFF, 0x92], HeaderOut::Done(3)),
        (
            &[0xEF, 0xFF, 0x00, 0x01, 0x00, 0xFF, 0x92],
            HeaderOut::Done(7),
        ),
        (&[0xEF, 0xF0, 0xFF, 0x00, 0xFF, 0x92], HeaderOut::Done(6)),
        (&[0xC8, 0x80, 0xAA, 0xBB], no_eph),
        (&[0xC8, 0x80, 0xFF, 0x93, 0xAA, 0xBB], no_eph),
        (&[0x00, 0x00], no_eph),
        (&[0xC8, 0x80, 0xFF], HeaderOut::Need),
        (&[0xC8, 0x80], HeaderOut::Need),
        (&[], HeaderOut::Need),
        (
            &[0xEF, 0xF0, 0xFF, 0x92],
            HeaderOut::Bad(HeaderWhy::Stuffed),
        ),
        (&[0xFA, 0xFF, 0x92], HeaderOut::Bad(HeaderWhy::Passes)),
    ];
    for (row, (bytes, want)) in cases.iter().enumerate() {
        assert_eq!(rt; read_marked(rt.alloc(), bytes)?, *want, "in row {row}");
    }
    Ok(())
}

#[test]
fn eph_is_not_counted_into_the_greatest_length_of_a_header(
    rt: HostRuntime,
) -> Result<(), PutFault> {
    let bands = lowest(256, 256);
    let mut buf = long_buffer(rt.alloc())?;
    assert_eq!(rt; write_many(rt.alloc(), 10_748, true, &mut buf), Ok(65_538));
    assert_eq!(rt;
        read_front(rt.alloc(), &bands, true, &buf, 65_538)?,
        HeaderOut::Done(65_538)
    );
    assert_eq!(rt;
        read_front(rt.alloc(), &bands, true, &buf, 65_537)?,
        HeaderOut::Need
    );
    let mut shorter = vec![in rt.alloc(); 0x55u8; 65_537]?;
    let out = write_many(rt.alloc(), 10_748, true, &mut shorter);
    assert_eq!(rt; out, Err(PutFault::Full));
    Ok(())
}
