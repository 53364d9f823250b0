//! Headers whose values were worked out by hand from the bit layout.
//! Each row is a payload's bytes and what is read of them.
use super::*;

const LEAST_MAIN: [u8; 8] = [0x40, 0, 0, 9, 0, 0, 0, 0];

const GREATEST_BODY: [u8; 8] = [0x3F, 0xFF, 0xFF, 0xFF, 0xFF, 0xFF, 0xFF, 0xFF];

fn main_at(eseq: u8, xtrac: u8, start: usize) -> Result<(Payload, usize), PayloadFault> {
    Ok((Payload::Main(MainHead { eseq, xtrac }), start))
}

fn body(
    res: u8,
    eseq: u8,
    ordb: bool,
    pos: u16,
    pid: u32,
) -> Result<(Payload, usize), PayloadFault> {
    let head = BodyHead {
        res,
        eseq,
        ordb,
        pos,
        pid,
    };
    Ok((Payload::Body(head), 8))
}

#[test]
fn headers_are_read_by_their_bits(rt: HostRuntime) {
    let mut extended = [0u8; 36];
    extended[0] = 0xC4;
    extended[1] = 0xF0;
    let mut greatest = [0u8; 4104];
    greatest[..8].copy_from_slice(&GREATEST_BODY);
    let cases: [(&[u8], Result<(Payload, usize), PayloadFault>); 12] = [
        (&[0xC4, 0, 0, 0, 0, 0, 0, 0], main_at(0, 0, 8)),
        (&LEAST_MAIN, main_at(9, 0, 8)),
        (&extended, main_at(0, 7, 36)),
        (&extended[..35], Err(PayloadFault::Extension)),
        (&[0xC4, 0, 0, 0, 0, 0, 0], Err(PayloadFault::Short)),
        (
            &[0x07, 0x80, 0, 0, 0, 0, 0, 0, 0x5A],
            body(7, 0, true, 0, 0),
        ),
        (&[0x07, 0x80, 0, 0, 0, 0, 0, 0], Err(PayloadFault::Pos)),
        (
            &[0x07, 0x80, 0, 0, 0, 0x10, 0, 0x01, 0x5A, 0x5A],
            body(7, 0, true, 1, 1),
        ),
        (&greatest, body(7, 255, true, 4095, 1_048_575)),
        (&greatest[..4103], Err(PayloadFault::Pos)),
        (&[0, 0, 0, 0, 0xFF, 0xF0, 0, 0], body(0, 0, false, 4095, 0)),
        (&[], Err(PayloadFault::Short)),
    ];
    for (at, (bytes, want)) in cases.iter().enumerate() {
        assert_eq!(rt; read_payload(bytes), *want, "in row {at}");
    }
}

#[test]
fn headers_are_written_by_their_bits(rt: HostRuntime) {
    let cases: [(u8, u8, bool, u16, u32, [u8; 8]); 4] = [
        (7, 0, true, 0, 0, [0x07, 0x80, 0, 0, 0, 0, 0, 0]),
        (7, 0, true, 1, 1, [0x07, 0x80, 0, 0, 0, 0x10, 0, 0x01]),
        (2, 9, false, 0, 0, [0x02, 0, 0, 0x09, 0, 0, 0, 0]),
        (
            7,
            255,
            true,
            4095,
            1_048_575,
            [0x07, 0x80, 0, 0xFF, 0xFF, 0xFF, 0xFF, 0xFF],
        ),
    ];
    for (at, (res, eseq, ordb, pos, pid, bytes)) in cases.iter().enumerate() {
        let head = BodyHead {
            res: *res % 8,
            eseq: *eseq,
            ordb: *ordb,
            pos: *pos % 4096,
            pid: *pid % 1_048_576,
        };
        let mut buf = [0u8; 8];
        write_body(&head, &mut buf);
        assert_eq!(rt; buf, *bytes, "in row {at}");
    }
    let mut buf = [0u8; 8];
    write_main(9, 4, &mut buf);
    assert_eq!(rt; buf, [0xC4, 0, 0, 9, 0, 0, 0, 0]);
}

#[test]
fn numbers_are_counted_modulo_two_to_the_24(rt: HostRuntime) {
    assert_eq!(rt; extended(0xFF, 0xFFFE), 0xFF_FFFE);
    assert_eq!(rt; ahead_of(0xFF_FFFE, 1), Some(3));
    assert_eq!(rt; ahead_of(5, 8_388_612), Some(8_388_607));
    assert_eq!(rt; ahead_of(5, 8_388_613), None);
    assert_eq!(rt; ahead_of(5, 4), None);
}

#[test]
fn resolutions_count_down_from_seven(rt: HostRuntime) {
    assert_eq!(rt; resolution_code(5, 5), 7);
    assert_eq!(rt; resolution_code(0, 5), 2);
    assert_eq!(rt; resolution_code(0, 15), 0);
    assert_eq!(rt; resolution_code(9, 15), 1);
}
