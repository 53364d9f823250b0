//! Main and Body packets whose precincts and counts were worked out by hand from the rules.
use super::*;
use scl_payload::BodyHead;
use std::alloc::Global;
use std::process::Abort;
use std::test::Fail;

/// The main header of an image of three samples in a row, each a precinct: k = 0, 1 and 2 with the
/// PIDs 0, 1 and 2.
const THREE_SAMPLES: [u8; 90] = [
    0xFF, 0x4F, 0xFF, 0x51, 0, 0x29, 0x40, 0, 0, 0, 0, 3, 0, 0, 0, 1, 0, 0, 0, 0, 0, 0, 0, 0, 0, 0,
    0, 3, 0, 0, 0, 1, 0, 0, 0, 0, 0, 0, 0, 0, 0, 1, 7, 1, 1, 0xFF, 0x50, 0, 8, 0, 2, 0, 0, 0, 0,
    0xFF, 0x52, 0, 0x0D, 1, 3, 0, 1, 0, 0, 4, 4, 0x40, 1, 0, 0xFF, 0x5C, 0, 4, 0x40, 0x48, 0xFF,
    0x90, 0, 0x0A, 0, 0, 0, 0, 0, 0, 0, 1, 0xFF, 0x93,
];

/// A packet of one code-block with the cleanup bytes AABB.
const PACKET: [u8; 4] = [0xC8, 0x80, 0xAA, 0xBB];

/// A call, and then the PIDs of the packets that the steps after it give. A mark is POS and PID.
#[derive(Clone, Copy)]
enum Call<'a> {
    Main(u32, &'a [u8], HeadTaken),
    Body(u32, Option<(u16, u32)>, &'a [u8], &'a [u32]),
    Gap,
}

/// The counts of unsupported main headers, of disagreeing marks and of broken runs.
type Counts = (u64, u64, u64);

/// Makes the calls on a new decoder.
fn decodes(rt: &impl Abort, alloc: Global, calls: &[Call<'_>], counts: Counts) -> Result<(), Fail> {
    let mut decoder = Decoder::new(alloc)?;
    for call in calls {
        let pids = match call {
            Call::Main(stamp, bytes, answer) => {
                assert_eq!(rt; decoder.main(*stamp, 0, bytes), *answer);
                &[]
            }
            Call::Body(stamp, mark, bytes, pids) => {
                let (pos, pid) = mark.unwrap_or((0, 0));
                let head = BodyHead {
                    res: 7,
                    eseq: 0,
                    ordb: mark.is_some(),
                    pos,
                    pid,
                };
                assert!(rt; usize::from(pos) < bytes.len() && bytes.len() <= 9_000);
                decoder.body(*stamp, 0, &head, bytes);
                *pids
            }
            Call::Gap => {
                decoder.gap();
                &[]
            }
        };
        gives(rt, &mut decoder, pids)?;
        assert!(rt; !decoder.step());
    }
    let counted = (decoder.unsupported(), decoder.disagreed(), decoder.broken());
    assert_eq!(rt; counted, counts);
    Ok(())
}

/// Follows the rules up to each of these packets.
fn gives(rt: &impl Abort, decoder: &mut Decoder, pids: &[u32]) -> Result<(), Fail> {
    for pid in pids {
        assert!(rt; decoder.step(), "no packet of PID {pid}");
        let Some(stamp) = decoder.stamp() else {
            panic!(rt; "no main header");
        };
        assert_eq!(rt; decoder.released(stamp).pid, *pid);
    }
    Ok(())
}

#[test]
fn packets_are_given_from_the_main_header_or_a_mark_on(rt: HostRuntime) -> Result<(), Fail> {
    let alloc = rt.alloc();
    let main = Call::Main(9, &THREE_SAMPLES, HeadTaken::Taken);
    let all = [
        main,
        Call::Body(9, None, &[0, 0xC8, 0x80, 0xAA, 0xBB, 0], &[0, 1, 2]),
    ];
    decodes(&rt, alloc, &all, (0, 0, 0))?;
    let split = [
        Call::Main(9, &THREE_SAMPLES, HeadTaken::Taken),
        Call::Body(9, None, &PACKET[..3], &[]),
        Call::Body(9, None, &[0xBB, 0], &[0, 1]),
        Call::Gap,
        Call::Body(9, None, &[0, 0], &[]),
        Call::Body(9, Some((2, 1)), &[0xEE, 0xEE, 0, 0], &[1, 2]),
    ];
    decodes(&rt, alloc, &split, (0, 0, 0))?;
    let byte_by_byte = [
        Call::Main(9, &THREE_SAMPLES, HeadTaken::Taken),
        Call::Body(9, None, &PACKET[..1], &[]),
        Call::Body(9, None, &PACKET[1..2], &[]),
        Call::Body(9, None, &PACKET[2..3], &[]),
        Call::Body(9, None, &[0xBB, 0xC8], &[0]),
        Call::Body(9, Some((1, 2)), &[0x80, 0], &[2]),
    ];
    decodes(&rt, alloc, &byte_by_byte, (0, 1, 0))?;
    let past_the_last = [
        Call::Main(9, &THREE_SAMPLES, HeadTaken::Taken),
        Call::Body(
            9,
            Some((5, 1)),
            &[0, 0, 0, 0xFF, 0xD9, 0, 0],
            &[0, 1, 2, 1, 2],
        ),
    ];
    decodes(&rt, alloc, &past_the_last, (0, 0, 0))
}

#[test]
fn marks_and_packets_that_disagree_are_counted(rt: HostRuntime) -> Result<(), Fail> {
    let cases: [(Option<(u16, u32)>, &[u8], &[u32], Counts); 7] = [
        // a packet ends past the mark
        (Some((3, 1)), &[0xC8, 0x80, 0, 0, 0, 0], &[1, 2], (0, 1, 0)),
        // a packet isn't whole while a mark is left
        (Some((2, 1)), &[0xC8, 0x80, 0], &[1], (0, 1, 0)),
        // a packet ends at the mark
        (
            Some((4, 1)),
            &[0xC8, 0x80, 0xAA, 0xBB, 0, 0],
            &[0, 1, 2],
            (0, 0, 0),
        ),
        // the mark names another precinct
        (Some((1, 2)), &[0, 0], &[0, 2], (0, 1, 0)),
        // no precinct has the number
        (Some((1, 3)), &[0, 0, 0], &[0, 1, 2], (0, 1, 0)),
        // bytes that are no packet, before a mark and after it
        (Some((1, 1)), &[0xEF, 0xFF, 0x80, 0, 0], &[], (0, 0, 2)),
        // rule 5 comes before rule 4
        (Some((1, 1)), &[0xEE, 0, 0], &[1, 2], (0, 0, 1)),
    ];
    for (mark, bytes, pids, counts) in cases {
        let calls = [
            Call::Main(9, &THREE_SAMPLES, HeadTaken::Taken),
            Call::Body(9, mark, bytes, pids),
        ];
        decodes(&rt, rt.alloc(), &calls, counts)?;
    }
    Ok(())
}

#[test]
fn a_main_header_is_in_force_until_the_next_or_another_stamp(rt: HostRuntime) -> Result<(), Fail> {
    let alloc = rt.alloc();
    let mut longer = [0; 91];
    longer[..90].copy_from_slice(&THREE_SAMPLES);
    for bytes in [&longer[..], &THREE_SAMPLES[..89], &[]] {
        let calls = [
            Call::Main(9, &THREE_SAMPLES, HeadTaken::Taken),
            Call::Main(9, bytes, HeadTaken::Unsupported),
            Call::Body(9, Some((0, 0)), &[0, 0, 0], &[]),
        ];
        decodes(&rt, alloc, &calls, (1, 0, 0))?;
    }
    let stray = [
        Call::Body(9, Some((0, 7)), &[0], &[]),
        Call::Main(9, &THREE_SAMPLES, HeadTaken::Taken),
        Call::Body(8, Some((0, 7)), &[0], &[]),
        Call::Body(9, Some((0, 0)), &[0, 0, 0], &[]),
    ];
    decodes(&rt, alloc, &stray, (0, 0, 0))?;
    let again = [
        Call::Main(9, &THREE_SAMPLES, HeadTaken::Taken),
        Call::Body(9, None, &[0, 0], &[0, 1]),
        Call::Main(9, &THREE_SAMPLES, HeadTaken::Taken),
        Call::Body(9, None, &[0, 0, 0], &[0, 1, 2]),
    ];
    decodes(&rt, alloc, &again, (0, 0, 0))
}

#[test]
fn a_packet_is_given_with_all_its_bytes_under_its_main_header(rt: HostRuntime) -> Result<(), Fail> {
    let mut decoder = Decoder::new(rt.alloc())?;
    assert!(rt; decoder.head().is_none());
    assert_eq!(rt; decoder.heads(), 0);
    let head = BodyHead {
        res: 7,
        eseq: 0,
        ordb: false,
        pos: 0,
        pid: 0,
    };
    for heads in [1, 2] {
        assert_eq!(rt; decoder.main(9, 0, &THREE_SAMPLES), HeadTaken::Taken);
        assert!(rt; !decoder.step());
        decoder.body(9, 0, &head, &[0xC8, 0x80, 0xAA, 0xBB, 0]);
        for raw in [&PACKET[..], &[0]] {
            assert!(rt; decoder.step());
            assert_eq!(rt; decoder.raw(), raw);
            assert_eq!(rt; decoder.head(), Some(&THREE_SAMPLES[..]));
            assert_eq!(rt; decoder.heads(), heads);
        }
        assert!(rt; !decoder.step());
    }
    assert_eq!(rt;
        decoder.main(9, 0, &THREE_SAMPLES[..89]),
        HeadTaken::Unsupported
    );
    assert!(rt; decoder.head().is_none());
    assert_eq!(rt; decoder.heads(), 2);
    Ok(())
}
