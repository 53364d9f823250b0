//! Headers whose bytes follow from the layout of the standard.
use super::*;

#[test]
fn headers_are_written_as_they_are_read(rt: HostRuntime) {
    let cases: [(bool, u8, u16, u32, u32, [u8; 12]); 3] = [
        (
            false,
            96,
            0,
            0,
            1,
            [0x80, 0x60, 0, 0, 0, 0, 0, 0, 0, 0, 0, 1],
        ),
        (
            true,
            96,
            1,
            3600,
            1,
            [0x80, 0xE0, 0, 1, 0, 0, 0x0E, 0x10, 0, 0, 0, 1],
        ),
        (
            false,
            127,
            0xFFFE,
            0x0102_0304,
            0xA0B0_C0D0,
            [0x80, 0x7F, 0xFF, 0xFE, 1, 2, 3, 4, 0xA0, 0xB0, 0xC0, 0xD0],
        ),
    ];
    for (row, (marker, kind, number, stamp, source, bytes)) in cases.iter().enumerate() {
        let rtp = Rtp {
            marker: *marker,
            kind: *kind % 128,
            number: *number,
            stamp: *stamp,
            source: *source,
            body_from: 12,
            body_to: 12,
        };
        let mut buf = [0u8; 12];
        write_rtp(&rtp, &mut buf);
        assert_eq!(rt; buf, *bytes, "in row {row}");
        assert_eq!(rt; read_rtp(&buf), Ok(rtp), "in row {row}");
    }
}
