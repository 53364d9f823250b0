//! Bits that were worked out by hand from the bytes: eight in each, seven after FF.
use super::*;

/// Bytes and the bits that are read of them; the index after that; what closing them answers, and the
/// index then.
type ReadRow<'a> = (&'a [u8], &'a [u8], usize, (Result<(), Stop>, usize));

const C880: [u8; 10] = [1, 1, 0, 0, 1, 0, 0, 0, 1, 0];

const EF64: [u8; 16] = [1, 1, 1, 0, 1, 1, 1, 1, 0, 1, 1, 0, 0, 1, 0, 0];

const EFBFC0: [u8; 18] = [1, 1, 1, 0, 1, 1, 1, 1, 1, 0, 1, 1, 1, 1, 1, 1, 1, 1];

const FF55: [u8; 15] = [1, 1, 1, 1, 1, 1, 1, 1, 1, 0, 1, 0, 1, 0, 1];

const X01FF: [u8; 16] = [0, 0, 0, 0, 0, 0, 0, 1, 1, 1, 1, 1, 1, 1, 1, 1];

#[test]
fn bits_are_read_and_closed(rt: HostRuntime) {
    let rows: [ReadRow; 9] = [
        (&[0xC8, 0x80, 0xAA], &C880, 2, (Ok(()), 2)),
        (&[0xEF, 0x64], &EF64, 2, (Ok(()), 2)),
        (&[0xEF, 0xBF, 0xC0], &EFBFC0, 3, (Ok(()), 3)),
        (&[0xFF, 0x55, 0xFF], &FF55, 2, (Ok(()), 2)),
        (&[0xFF, 0x7F, 0x80], &FF55[..9], 2, (Ok(()), 2)),
        (&[0x01, 0xFF, 0x7F, 0xFF], &X01FF, 2, (Ok(()), 3)),
        (&[0x01, 0xFF], &X01FF, 2, (Err(Stop::Need), 2)),
        (&[0x01, 0xFF, 0x80], &X01FF, 2, (Err(Stop::Stuffed), 2)),
        (&[0x01, 0xFF], &X01FF[..9], 2, (Err(Stop::Need), 2)),
    ];
    for (row, (bytes, bits, used, (closed, end))) in rows.iter().enumerate() {
        let mut reader = BitIn::new();
        let mut at = 0;
        assert_eq!(rt;
            reader.bit(&[], &mut at),
            Err(Stop::Need),
            "before row {row}"
        );
        for (i, bit) in bits.iter().enumerate() {
            let Ok(read) = reader.bit(bytes, &mut at) else {
                assert!(rt; false, "bit {i} of row {row} isn't read");
                return;
            };
            assert_eq!(rt; read, *bit == 1, "bit {i} of row {row}");
            if i + 1 == bits.len() {
                assert_eq!(rt; at, *used, "row {row}");
                assert_eq!(rt; reader.close(bytes, &mut at), *closed, "row {row}");
                assert_eq!(rt; at, *end, "row {row}");
            }
        }
    }
}

#[test]
fn a_stuffed_byte_gives_no_bit(rt: HostRuntime) {
    let mut reader = BitIn::new();
    let mut at = 0;
    for _ in 0..8 {
        assert_eq!(rt; reader.bit(&[0xFF], &mut at), Ok(true));
    }
    let mut further = 0;
    assert_eq!(rt; reader.bit(&[], &mut further), Err(Stop::Need));
    assert_eq!(rt; reader.bit(&[0x80], &mut further), Err(Stop::Stuffed));
    assert_eq!(rt; further, 0);
}

#[test]
fn numbers_are_read_across_bytes(rt: HostRuntime) {
    let bytes = [0xFF, 0x55, 0xC8];
    let mut reader = BitIn::new();
    let mut at = 0;
    assert_eq!(rt; reader.number(0, &bytes, &mut at), Ok(0));
    assert_eq!(rt; at, 0);
    assert_eq!(rt; reader.number(3, &bytes, &mut at), Ok(0b111));
    assert_eq!(rt; at, 1);
    assert_eq!(rt; reader.number(12, &bytes, &mut at), Ok(0b1111_1101_0101));
    assert_eq!(rt; reader.bit(&bytes, &mut at), Ok(true));
    assert_eq!(rt; reader.number(7, &bytes, &mut at), Ok(0x48));
    assert_eq!(rt; at, 3);
    assert_eq!(rt; reader.number(0, &bytes, &mut at), Ok(0));
    assert_eq!(rt; reader.number(1, &bytes, &mut at), Err(Stop::Need));
}

#[test]
fn the_longest_number_reaches_into_five_bytes(rt: HostRuntime) {
    let bytes = [0x01, 0x23, 0xFF, 0x7F, 0x80];
    let mut reader = BitIn::new();
    let mut at = 0;
    assert_eq!(rt; reader.number(7, &bytes, &mut at), Ok(0));
    assert_eq!(rt; reader.number(25, &bytes, &mut at), Ok(0x123_FFFF));
    assert_eq!(rt; at, 5);
    let mut other = BitIn::new();
    let mut start = 0;
    assert_eq!(rt; other.number(25, &bytes, &mut start), Ok(0x2_47FF));
    assert_eq!(rt; start, 4);
}

#[test]
fn a_number_that_is_cut_or_broken_is_not_read(rt: HostRuntime) {
    let mut at = 0;
    assert_eq!(rt; BitIn::new().number(15, &[0xFF, 0x7F], &mut at), Ok(0x7FFF));
    let mut cut = 0;
    assert_eq!(rt;
        BitIn::new().number(16, &[0xFF, 0x7F], &mut cut),
        Err(Stop::Need)
    );
    let mut broken = 0;
    assert_eq!(rt;
        BitIn::new().number(9, &[0xFF, 0x80], &mut broken),
        Err(Stop::Stuffed)
    );
}

#[test]
fn a_number_goes_on_in_a_further_piece(rt: HostRuntime) {
    let mut reader = BitIn::new();
    let mut at = 0;
    assert_eq!(rt; reader.number(8, &[0xFF], &mut at), Ok(0xFF));
    let mut further = 0;
    assert_eq!(rt; reader.number(7, &[0x55], &mut further), Ok(0x55));
    assert_eq!(rt; further, 1);
}

#[test]
fn a_number_is_read_byte_by_byte(rt: HostRuntime) {
    let mut reader = BitIn::new();
    let mut first = 0;
    assert_eq!(rt; reader.number(25, &[0x01], &mut first), Err(Stop::Need));
    assert_eq!(rt; first, 1);
    let mut second = 0;
    assert_eq!(rt;
        reader.number(25, &[0x23, 0xFF], &mut second),
        Err(Stop::Need)
    );
    assert_eq!(rt; second, 2);
    let mut last = 0;
    assert_eq!(rt; reader.number(25, &[0x7F, 0x80], &mut last), Ok(0x2_47FF));
    assert_eq!(rt; last, 1);
}

#[test]
fn a_run_is_read_byte_by_byte(rt: HostRuntime) {
    let mut reader = BitIn::new();
    let mut first = 0;
    assert_eq!(rt; reader.run(false, 75, &[0x1F], &mut first), Ok(3));
    let mut second = 0;
    assert_eq!(rt; reader.run(true, 22, &[0xFF], &mut second), Err(Stop::Need));
    assert_eq!(rt; second, 1);
    let mut third = 0;
    assert_eq!(rt; reader.run(true, 22, &[0x7F], &mut third), Err(Stop::Need));
    let mut last = 0;
    assert_eq!(rt; reader.run(true, 22, &[0x40], &mut last), Ok(4 + 8 + 7));
    assert_eq!(rt; last, 1);
}

#[test]
fn runs_are_read_with_the_bit_that_ends_them(rt: HostRuntime) {
    let bytes = [0x1F, 0xFF, 0x7F, 0x40];
    let mut reader = BitIn::new();
    let mut at = 0;
    assert_eq!(rt; reader.run(false, 75, &bytes, &mut at), Ok(3));
    assert_eq!(rt; at, 1);
    assert_eq!(rt; reader.run(true, 22, &bytes, &mut at), Ok(4 + 8 + 7));
    assert_eq!(rt; at, 4);
    assert_eq!(rt; reader.run(false, 75, &bytes, &mut at), Ok(0));
    assert_eq!(rt; reader.run(false, 5, &bytes, &mut at), Ok(5));
    assert_eq!(rt; reader.run(true, 0, &bytes, &mut at), Ok(0));
    assert_eq!(rt; reader.run(true, 9, &bytes, &mut at), Ok(0));
    assert_eq!(rt; reader.run(true, 9, &bytes, &mut at), Err(Stop::Need));
}

#[test]
fn a_run_of_the_most_bits_takes_no_further_one(rt: HostRuntime) {
    let bytes = [0xFF, 0x7F, 0xFE];
    let mut reader = BitIn::new();
    let mut at = 0;
    assert_eq!(rt; reader.run(true, 22, &bytes, &mut at), Ok(22));
    assert_eq!(rt; reader.bit(&bytes, &mut at), Ok(false));
    assert_eq!(rt; reader.bit(&bytes, &mut at), Err(Stop::Need));
    let mut whole = 0;
    assert_eq!(rt; BitIn::new().run(true, 8, &[0xFF, 0x80], &mut whole), Ok(8));
    let mut broken = 0;
    assert_eq!(rt;
        BitIn::new().run(true, 9, &[0xFF, 0x80], &mut broken),
        Err(Stop::Stuffed)
    );
}

/// Writes bits and closes them.
fn write(bits: &[u8], buf: &mut [u8]) -> Result<usize, Full> {
    let mut writer = BitWriter::new();
    for (i, bit) in bits.iter().enumerate() {
        writer.put(*bit == 1, buf)?;
        if i + 1 == bits.len() {
            return writer.finish(buf);
        }
    }
    Ok(0)
}

#[test]
fn bits_are_written_within_the_buffer(rt: HostRuntime) {
    let rows: [(&[u8], usize, Result<usize, Full>, [u8; 4]); 9] = [
        (&C880, 4, Ok(2), [0xC8, 0x80, 0x55, 0x55]),
        (&EF64, 2, Ok(2), [0xEF, 0x64, 0x55, 0x55]),
        (&EFBFC0, 3, Ok(3), [0xEF, 0xBF, 0xC0, 0x55]),
        (&EFBFC0, 2, Err(Full), [0xEF, 0xBF, 0x55, 0x55]),
        (&FF55, 2, Ok(2), [0xFF, 0x55, 0x55, 0x55]),
        (&FF55[..8], 2, Ok(2), [0xFF, 0x00, 0x55, 0x55]),
        (&X01FF, 3, Ok(3), [0x01, 0xFF, 0x00, 0x55]),
        (&X01FF, 2, Err(Full), [0x01, 0xFF, 0x55, 0x55]),
        (&FF55[..1], 0, Err(Full), [0x55, 0x55, 0x55, 0x55]),
    ];
    for (row, (bits, room, answer, bytes)) in rows.iter().enumerate() {
        let mut buf = [0x55u8; 4];
        let room = (*room).min(4);
        assert_eq!(rt; write(bits, &mut buf[..room]), *answer, "row {row}");
        assert_eq!(rt; buf, *bytes, "row {row}");
    }
}
