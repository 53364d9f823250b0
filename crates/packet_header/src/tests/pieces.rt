//! Packet headers fed in pieces.
ghost use Rattle.std.specs.Prelude.{◌≡◌, ◌≤◌, map};
ghost use Rattle.codestream_model.specs.Packet.{block_count};
ghost use Rattle.codestream_model.specs.PacketHeader.{HaveOwnBands};
ghost use Rattle.precinct_geometry.specs.Spans.{grid_of};

use super::*;

/// The first place at which a case is answered otherwise if it is cut there into two pieces; its
/// last byte decides.
fn first_other_cut(reader: &mut HeaderReader, case: &Case, eph: bool) -> Option<usize>
    requires { reader.old.room ≡ 65536 }
    ensures { reader.new.room ≡ 65536 }
{
    let bands = lowest(u32::from(case.cols), u32::from(case.rows));
    for cut in 0..case.bytes.len() {
        reader.begin(&bands, eph);
        if reader.feed(&case.bytes[..cut]) != HeaderOut::Need {
            return Some(cut);
        }
        let last = reader.feed(&case.bytes[cut..]);
        if !is_answer(reader, last, case, cut) {
            return Some(cut);
        }
    }
    None
}

/// Whether a case is answered right byte by byte, with `Need` before its last byte.
fn is_read_byte_by_byte(reader: &mut HeaderReader, case: &Case, eph: bool) -> bool
    requires { reader.old.room ≡ 65536 }
    ensures { reader.new.room ≡ 65536 }
{
    let bands = lowest(u32::from(case.cols), u32::from(case.rows));
    let earlier = case.bytes.len().saturating_sub(1);
    reader.begin(&bands, eph);
    for byte in &case.bytes[..earlier] {
        if reader.feed(&[*byte]) != HeaderOut::Need {
            return false;
        }
    }
    let last = reader.feed(&case.bytes[earlier..]);
    is_answer(reader, last, case, earlier)
}

/// The first of these cases that is answered otherwise in pieces.
fn first_other_in_pieces(
    alloc: Global,
    cases: &[Case],
    eph: bool,
) -> Result<Option<usize>, AllocError> {
    let mut reader = HeaderReader::reserve(alloc, 65_536)?;
    for (row, case) in cases.iter().enumerate() {
        let cut = first_other_cut(&mut reader, case, eph);
        let whole = is_read_byte_by_byte(&mut reader, case, eph);
        if cut.is_some() || !whole {
            return Ok(Some(row));
        }
    }
    Ok(None)
}

#[test]
fn headers_are_read_in_any_pieces(rt: HostRuntime) -> Result<(), AllocError> {
    let second: &[Block] = &[block!(0, 1, 0, 1, 1, 2, 0)];
    let cases = [
        of_one(&[0x00], HeaderOut::Done(1), &[]),
        of_one(
            &[0xC8, 0x80],
            HeaderOut::Done(2),
            &[block!(0, 0, 0, 2, 1, 2, 0)],
        ),
        of_one(
            &[0xF1, 0x30],
            HeaderOut::Done(2),
            &[block!(0, 0, 0, 0, 2, 2, 3)],
        ),
        of_one(
            &[0xF8, 0x46],
            HeaderOut::Done(2),
            &[block!(0, 0, 0, 0, 3, 2, 3)],
        ),
        of_one(
            &[0xEF, 0xFF, 0x00, 0x01, 0x00],
            HeaderOut::Done(5),
            &[block!(0, 0, 0, 0, 1, 2, 0)],
        ),
        of_one(
            &[0xEF, 0xF0, 0xFF, 0x00],
            HeaderOut::Done(4),
            &[block!(0, 0, 0, 0, 1, 255, 0)],
        ),
        Case {
            cols: 2,
            rows: 1,
            bytes: &[0x80],
            out: HeaderOut::Done(1),
            blocks: &[],
        },
        Case {
            cols: 2,
            rows: 1,
            bytes: &[0xD6, 0x20],
            out: HeaderOut::Done(2),
            blocks: second,
        },
        Case {
            cols: 2,
            rows: 1,
            bytes: &[0xDA, 0x20],
            out: HeaderOut::Done(2),
            blocks: second,
        },
    ];
    assert_eq!(rt; first_other_in_pieces(rt.alloc(), &cases, false)?, None);
    Ok(())
}

#[test]
fn long_values_are_cut_at_each_byte(rt: HostRuntime) -> Result<(), AllocError> {
    let cases = [
        of_one(
            &[0xC0, 0, 0, 0, 0, 0, 0, 0, 0, 0x08, 0x80],
            HeaderOut::Done(11),
            &[block!(0, 0, 0, 74, 1, 2, 0)],
        ),
        of_one(
            &[0xEF, 0xFF, 0x7F, 0xC0, 0x00, 0x00, 0x40],
            HeaderOut::Done(7),
            &[block!(0, 0, 0, 0, 1, 2, 0)],
        ),
        of_one(
            &[0xEF, 0xFF, 0x5F, 0xFF, 0x60],
            HeaderOut::Done(5),
            &[block!(0, 0, 0, 0, 1, 65_534, 0)],
        ),
        of_one(
            &[0xF9, 0xFC, 0x01, 0x7F, 0xE0],
            HeaderOut::Done(5),
            &[block!(0, 0, 0, 0, 3, 2, 2_046)],
        ),
        Case {
            cols: 5,
            rows: 3,
            bytes: &[
                0xFE, 0x37, 0x50, 0xAE, 0xF4, 0x61, 0x38, 0x20, 0xF9, 0xF6, 0x44, 0xB2, 0x8C, 0x5E,
                0xDF, 0x00,
            ],
            out: HeaderOut::Done(16),
            blocks: &[
                block!(0, 0, 0, 3, 1, 40, 0),
                block!(0, 3, 0, 1, 2, 70, 9),
                block!(0, 4, 1, 5, 3, 200, 300),
                block!(0, 1, 2, 3, 1, 2, 0),
                block!(0, 2, 2, 0, 1, 31, 0),
            ],
        },
    ];
    assert_eq!(rt; first_other_in_pieces(rt.alloc(), &cases, false)?, None);
    Ok(())
}

#[test]
fn headers_are_refused_in_any_pieces(rt: HostRuntime) -> Result<(), AllocError> {
    let cases = [
        refused(&[0xEF, 0xFF, 0x80], HeaderWhy::Stuffed),
        refused(&[0xEF, 0xF0, 0xFF, 0x80], HeaderWhy::Stuffed),
        refused(&[0xFA], HeaderWhy::Passes),
        refused(&[0xCE, 0x80], HeaderWhy::Passes),
        refused(&[0xCF, 0x00], HeaderWhy::Passes),
        refused(&[0xC0, 0xBF, 0xFF, 0x7F, 0x80], HeaderWhy::LengthBits),
        refused(&[0xE1], HeaderWhy::CleanupShort),
        refused(&[0xD0, 0x80], HeaderWhy::CleanupShort),
        refused(
            &[0xC0, 0xBF, 0xFE, 0xFF, 0x7F, 0x80],
            HeaderWhy::CleanupLong,
        ),
        refused(&[0xC1, 0xBF, 0xC0, 0x0B, 0xFF, 0x40], HeaderWhy::RefineLong),
        refused(&[0xC0, 0, 0, 0, 0, 0, 0, 0, 0, 0], HeaderWhy::ZeroPlanes),
    ];
    assert_eq!(rt; first_other_in_pieces(rt.alloc(), &cases, false)?, None);
    Ok(())
}

#[test]
fn headers_with_eph_are_read_in_any_pieces(rt: HostRuntime) -> Result<(), AllocError> {
    let cases = [
        of_one(&[0x00, 0xFF, 0x92], HeaderOut::Done(3), &[]),
        of_one(
            &[0xC8, 0x80, 0xFF, 0x92],
            HeaderOut::Done(4),
            &[block!(0, 0, 0, 2, 1, 2, 0)],
        ),
        of_one(
            &[0xEF, 0xF0, 0xFF, 0x00, 0xFF, 0x92],
            HeaderOut::Done(6),
            &[block!(0, 0, 0, 0, 1, 255, 0)],
        ),
        refused(&[0xC8, 0x80, 0xAA], HeaderWhy::NoEph),
        refused(&[0xC8, 0x80, 0xFF, 0x93], HeaderWhy::NoEph),
        refused(&[0xEF, 0xF0, 0xFF, 0x80], HeaderWhy::Stuffed),
    ];
    assert_eq!(rt; first_other_in_pieces(rt.alloc(), &cases, true)?, None);
    Ok(())
}

/// What is read of the first `size` bytes in pieces of 1,380, counted from the first of them.
fn feed_front(
    alloc: Global,
    bands: &Bands,
    eph: bool,
    bytes: &[u8],
    size: usize,
) -> Result<HeaderOut, AllocError>
    requires own_bands { HaveOwnBands (map grid_of bands.now.items) }
    requires few { block_count (map grid_of bands.now.items) ≤ 65536 }
{
    let mut reader = HeaderReader::reserve(alloc, 65_536)?;
    reader.begin(bands, eph);
    let mut earlier: usize = 0;
    for piece in front(bytes, size).chunks(1_380) {
        match reader.feed(piece) {
            HeaderOut::Need => earlier = earlier.saturating_add(piece.len()),
            HeaderOut::Done(used) => return Ok(HeaderOut::Done(earlier.saturating_add(used))),
            refused => return Ok(refused),
        }
    }
    Ok(HeaderOut::Need)
}

#[test]
fn the_longest_headers_are_read_in_pieces(rt: HostRuntime) -> Result<(), PutFault> {
    let bands = lowest(256, 256);
    let mut buf = long_buffer(rt.alloc())?;
    assert_eq!(rt; write_many(rt.alloc(), 10_744, false, &mut buf), Ok(65_535));
    assert_eq!(rt;
        feed_front(rt.alloc(), &bands, false, &buf, 70_000)?,
        HeaderOut::Done(65_535)
    );
    assert_eq!(rt;
        feed_front(rt.alloc(), &bands, false, &buf, 65_534)?,
        HeaderOut::Need
    );
    assert_eq!(rt; write_many(rt.alloc(), 10_748, false, &mut buf), Ok(65_536));
    assert_eq!(rt;
        feed_front(rt.alloc(), &bands, false, &buf, 70_000)?,
        HeaderOut::Done(65_536)
    );
    assert_eq!(rt;
        feed_front(rt.alloc(), &bands, false, &buf, 65_535)?,
        HeaderOut::Need
    );
    assert_eq!(rt; write_many(rt.alloc(), 10_752, false, &mut buf), Ok(65_537));
    assert_eq!(rt;
        feed_front(rt.alloc(), &bands, false, &buf, 65_536)?,
        HeaderOut::Bad(HeaderWhy::TooLong)
    );
    assert_eq!(rt;
        feed_front(rt.alloc(), &bands, false, &buf, 65_535)?,
        HeaderOut::Need
    );
    assert_eq!(rt; write_many(rt.alloc(), 10_748, true, &mut buf), Ok(65_538));
    assert_eq!(rt;
        feed_front(rt.alloc(), &bands, true, &buf, 70_000)?,
        HeaderOut::Done(65_538)
    );
    assert_eq!(rt;
        feed_front(rt.alloc(), &bands, true, &buf, 65_537)?,
        HeaderOut::Need
    );
    Ok(())
}
