//! Codestreams whose items were told apart by hand.
use super::*;
use j2k_markers::HeadWhy;
use packet_header::{Block, HeaderWhy};
use precinct_geometry::Place;
use scl_outside::DuctMem;
use std::alloc::Global;
use std::process::Abort;
use std::test::Fail;

/// The main header of a 1 × 1 image with one precinct of one code-block, with Psot 0.
const HEAD: [u8; 89] = [
    0xFF, 0x4F, 0xFF, 0x51, 0x00, 0x29, 0x40, 0x00, 0x00, 0x00, 0x00, 0x01, 0x00, 0x00, 0x00, 0x01,
    0x00, 0x00, 0x00, 0x00, 0x00, 0x00, 0x00, 0x00, 0x00, 0x00, 0x00, 0x01, 0x00, 0x00, 0x00, 0x01,
    0x00, 0x00, 0x00, 0x00, 0x00, 0x00, 0x00, 0x00, 0x00, 0x01, 0x07, 0x01, 0x01, 0xFF, 0x50, 0x00,
    0x08, 0x00, 0x02, 0x00, 0x00, 0x00, 0x00, 0xFF, 0x52, 0x00, 0x0C, 0x00, 0x03, 0x00, 0x01, 0x00,
    0x00, 0x04, 0x04, 0x40, 0x01, 0xFF, 0x5C, 0x00, 0x04, 0x40, 0x48, 0xFF, 0x90, 0x00, 0x0A, 0x00,
    0x00, 0x00, 0x00, 0x00, 0x00, 0x00, 0x01, 0xFF, 0x93,
];

/// The main header of a 3 × 1 image with three precincts of one code-block each, with Psot 0.
const THREE: [u8; 90] = [
    0xFF, 0x4F, 0xFF, 0x51, 0x00, 0x29, 0x40, 0x00, 0x00, 0x00, 0x00, 0x03, 0x00, 0x00, 0x00, 0x01,
    0x00, 0x00, 0x00, 0x00, 0x00, 0x00, 0x00, 0x00, 0x00, 0x00, 0x00, 0x03, 0x00, 0x00, 0x00, 0x01,
    0x00, 0x00, 0x00, 0x00, 0x00, 0x00, 0x00, 0x00, 0x00, 0x01, 0x07, 0x01, 0x01, 0xFF, 0x50, 0x00,
    0x08, 0x00, 0x02, 0x00, 0x00, 0x00, 0x00, 0xFF, 0x52, 0x00, 0x0D, 0x01, 0x03, 0x00, 0x01, 0x00,
    0x00, 0x04, 0x04, 0x40, 0x01, 0x00, 0xFF, 0x5C, 0x00, 0x04, 0x40, 0x48, 0xFF, 0x90, 0x00, 0x0A,
    0x00, 0x00, 0x00, 0x00, 0x00, 0x00, 0x00, 0x01, 0xFF, 0x93,
];

/// A packet with one code-block of two bytes, and EOC.
const TAIL: [u8; 6] = [0xC8, 0x80, 0xAA, 0xBB, 0xFF, 0xD9];

/// An object in memory with this input, of which the bytes from the 88th on come one by one or as they fit.
fn duct(alloc: Global, input: &[u8], single: bool) -> Result<DuctMem, Fail> {
    if single {
        let chunks = [88, 1, 1, 1, 1, 1, 1, 1, 1, 1, 1, 1];
        Ok(DuctMem::new(alloc, input, &chunks, &[], &[], 10_000)?)
    } else {
        Ok(DuctMem::new(alloc, input, &[], &[], &[], 10_000)?)
    }
}

const fn refused(at: u64, why: WalkWhy) -> PieceOut {
    PieceOut::Refused(WalkFault { at, why })
}

/// The main header with other bytes from some offsets on, and then these bytes.
fn codestream(alloc: Global, patches: &[(usize, &[u8])], tail: &[u8]) -> Result<Vec<u8>, Fail> {
    let mut bytes = Vec::from_slice(alloc, &HEAD)?;
    for (at, patch) in patches {
        for (i, byte) in patch.iter().enumerate() {
            if let Some(place) = bytes.get_mut(at.wrapping_add(i)) {
                *place = *byte;
            }
        }
    }
    bytes.extend_from_slice(tail)?;
    Ok(bytes)
}

/// Steps to the next answer. The bytes of several `More` one after another are joined, up to `len` bytes.
fn next_item(
    pieces: &mut Pieces,
    duct: &mut DuctMem,
    alloc: Global,
    len: usize,
) -> Result<(PieceOut, Vec<u8>), Fail> {
    let answer = if pieces.live() {
        pieces.step(duct)
    } else {
        PieceOut::ReadFault
    };
    let mut bytes = Vec::from_slice(alloc, pieces.bytes())?;
    for _ in 0..len {
        if answer == PieceOut::More && bytes.len() < len && pieces.live() {
            if pieces.step(duct) == PieceOut::More {
                bytes.extend_from_slice(pieces.bytes())?;
            }
        }
    }
    Ok((answer, bytes))
}

/// Reads an input at once and byte by byte: the answers of `Pieces`, each with its bytes where there are any.
fn pieces_give(
    rt: &impl Abort,
    alloc: Global,
    input: &[u8],
    wanted: &[(PieceOut, &[u8])],
) -> Result<(), Fail> {
    for single in [false, true] {
        let mut duct = duct(alloc, input, single)?;
        let mut pieces = Pieces::new(alloc)?;
        for (answer, bytes) in wanted {
            assert!(rt; pieces.live(), "before {answer:?} of {input:?}");
            let (item, given) = next_item(&mut pieces, &mut duct, alloc, bytes.len())?;
            assert_eq!(rt; item, *answer, "in {input:?}");
            assert!(rt;
                bytes.is_empty() || given.as_slice() == *bytes,
                "at {answer:?} of {input:?}"
            );
        }
        assert!(rt; !pieces.live(), "after {input:?}");
        assert!(rt; duct.told());
    }
    Ok(())
}

#[test]
fn items_come_one_by_one_with_their_bytes(rt: HostRuntime) -> Result<(), Fail> {
    let alloc = rt.alloc();
    let rows: [(&[u8], &[(PieceOut, &[u8])]); 6] = [
        (
            &[0x00, 0xFF, 0xD9],
            &[
                (PieceOut::Start, &[0x00]),
                (PieceOut::FrameEnd, &[]),
                (PieceOut::End, &[]),
            ],
        ),
        (
            &TAIL,
            &[
                (PieceOut::Start, &[0xC8, 0x80]),
                (PieceOut::More, &[0xAA, 0xBB]),
                (PieceOut::FrameEnd, &[]),
                (PieceOut::End, &[]),
            ],
        ),
        (
            &[0xFA],
            &[(refused(89, WalkWhy::Header(HeaderWhy::Passes)), &[])],
        ),
        (
            &[0xE1],
            &[(refused(89, WalkWhy::Header(HeaderWhy::CleanupShort)), &[])],
        ),
        (
            &[0xEF, 0xFF, 0x7F, 0xE0],
            &[(refused(89, WalkWhy::Header(HeaderWhy::LengthBits)), &[])],
        ),
        (&[], &[(refused(89, WalkWhy::Cut), &[])]),
    ];
    for (tail, rest) in rows {
        let input = codestream(alloc, &[], tail)?;
        let mut wanted = Vec::from_slice(alloc, &[(PieceOut::Head, &HEAD[..])])?;
        wanted.extend_from_slice(rest)?;
        pieces_give(&rt, alloc, &input, &wanted)?;
    }
    pieces_give(&rt, alloc, &[], &[(PieceOut::End, &[])])
}

/// The last answer of `Pieces` over an input of at most three packets.
fn last_answer(alloc: Global, input: &[u8]) -> Result<PieceOut, Fail> {
    let mut duct = duct(alloc, input, false)?;
    let mut pieces = Pieces::new(alloc)?;
    let mut answer = PieceOut::End;
    for _ in 0..20 {
        if pieces.live() {
            answer = pieces.step(&mut duct);
        }
    }
    Ok(answer)
}

/// A width of less than 65,536 and a height of 1,024, each in four bytes.
const fn size(width: u16) -> [u8; 8] {
    [0, 0, (width / 256) as u8, (width % 256) as u8, 0, 0, 4, 0]
}

#[test]
fn a_refusal_names_its_offset_in_a_first_and_in_a_later_codestream(
    rt: HostRuntime,
) -> Result<(), Fail> {
    let alloc = rt.alloc();
    let psot_19 = [0, 0, 0, 19];
    let psot_14 = [0, 0, 0, 14];
    let cases: [(usize, &[u8], &[u8], u64, WalkWhy); 9] = [
        (1, &[0x4E], &[], 0, WalkWhy::Head(HeadWhy::NoSoc)),
        (5, &[0x28], &[], 2, WalkWhy::Head(HeadWhy::Length)),
        (75, &[0xFF, 0x64, 0xFF, 0xFF], &[], 89, WalkWhy::Cut),
        (0, &[], &[0x00], 90, WalkWhy::Cut),
        (0, &[], &[0x00, 0x00], 91, WalkWhy::Cut),
        (0, &[], &[0x00, 0x00, 0x00], 90, WalkWhy::NoEoc),
        (0, &[], &[0xC8, 0x80, 0xAA], 92, WalkWhy::Cut),
        (81, &psot_19, &TAIL, 93, WalkWhy::Psot),
        (81, &psot_14, &[0x00], 90, WalkWhy::Psot),
    ];
    for (at, patch, tail, place, why) in cases {
        let bytes = codestream(alloc, &[(at, patch)], tail)?;
        assert_eq!(rt; last_answer(alloc, &bytes)?, refused(place, why));
        let mut later = codestream(alloc, &[], &TAIL)?;
        later.extend_from_slice(&bytes)?;
        assert_eq!(rt; last_answer(alloc, &later)?, refused(95 + place, why));
    }
    // 257 × 256 code-blocks of 4 × 4 samples, and 256 × 256
    let wide = codestream(
        alloc,
        &[(8, &size(1028)), (24, &size(1028)), (65, &[0, 0])],
        &[],
    )?;
    assert_eq!(rt;
        last_answer(alloc, &wide)?,
        refused(89, WalkWhy::TooManyBlocks)
    );
    let full = codestream(
        alloc,
        &[(8, &size(1024)), (24, &size(1024)), (65, &[0, 0])],
        &[],
    )?;
    assert_eq!(rt; last_answer(alloc, &full)?, refused(89, WalkWhy::Cut));
    Ok(())
}

#[test]
fn a_failed_read_ends_the_input(rt: HostRuntime) -> Result<(), Fail> {
    let alloc = rt.alloc();
    let input = codestream(alloc, &[], &TAIL)?;
    let mut duct = DuctMem::new(alloc, &input, &[89], &[1], &[], 10_000)?;
    let mut pieces = Pieces::new(alloc)?;
    for answer in [PieceOut::Head, PieceOut::ReadFault] {
        assert!(rt; pieces.live());
        assert_eq!(rt; pieces.step(&mut duct), answer);
    }
    assert!(rt; !pieces.live());
    assert!(rt; duct.told());
    Ok(())
}

/// Reads the packets of an input with `Walk`, at once and byte by byte. Each has these code-blocks; their bytes are
/// joined. Returns the answer after them.
fn walk_gives(
    rt: &impl Abort,
    alloc: Global,
    input: &[u8],
    count: u32,
    blocks: &[Block],
    bytes: &[u8],
) -> Result<WalkOut, Fail> {
    let mut last = WalkOut::End;
    for single in [false, true] {
        let mut duct = duct(alloc, input, single)?;
        let mut walk = Walk::new(alloc)?;
        let mut given = Vec::new(alloc);
        for pid in 0..count {
            assert!(rt; walk.live());
            let WalkOut::Packet = walk.step(&mut duct) else {
                panic!(rt; "no packet {pid} in {input:?}");
            };
            let packet = walk.packet(3600);
            assert_eq!(rt; packet.stamp, 3600);
            assert_eq!(rt; packet.pid, pid);
            assert_eq!(rt; packet.place, Place { c: 0, r: 0, k: pid });
            assert!(rt; packet.blocks == blocks);
            given.extend_from_slice(packet.bytes)?;
        }
        assert!(rt; given.as_slice() == bytes);
        assert!(rt; walk.live());
        last = walk.step(&mut duct);
        assert!(rt; duct.told());
    }
    Ok(last)
}

#[test]
fn packets_come_whole(rt: HostRuntime) -> Result<(), Fail> {
    let alloc = rt.alloc();
    let block = Block {
        band: 0,
        col: 0,
        row: 0,
        planes: 0,
        passes: 1,
        cleanup: 2,
        refine: 0,
    };
    let two = Block { planes: 2, ..block };
    let empty = codestream(alloc, &[], &[0x00, 0xFF, 0xD9])?;
    assert_eq!(rt;
        walk_gives(&rt, alloc, &empty, 1, &[], &[])?,
        WalkOut::FrameEnd
    );
    let one = codestream(alloc, &[], &TAIL)?;
    assert_eq!(rt;
        walk_gives(&rt, alloc, &one, 1, &[two], &[0xAA, 0xBB])?,
        WalkOut::FrameEnd
    );
    let stuffed = codestream(
        alloc,
        &[],
        &[0xEF, 0xFF, 0x00, 0x01, 0x00, 0x01, 0x02, 0xFF, 0xD9],
    )?;
    assert_eq!(rt;
        walk_gives(&rt, alloc, &stuffed, 1, &[block], &[0x01, 0x02])?,
        WalkOut::FrameEnd
    );
    let greatest = [
        0xEF, 0xFF, 0x7F, 0xC0, 0x00, 0x00, 0x40, 0x01, 0x02, 0xFF, 0xD9,
    ];
    let lblock = codestream(alloc, &[], &greatest)?;
    assert_eq!(rt;
        walk_gives(&rt, alloc, &lblock, 1, &[block], &[0x01, 0x02])?,
        WalkOut::FrameEnd
    );
    assert_eq!(rt; walk_gives(&rt, alloc, &[], 0, &[], &[])?, WalkOut::End);
    Ok(())
}

#[test]
fn the_packets_of_a_codestream_come_in_order(rt: HostRuntime) -> Result<(), Fail> {
    let alloc = rt.alloc();
    let block = Block {
        band: 0,
        col: 0,
        row: 0,
        planes: 0,
        passes: 1,
        cleanup: 100,
        refine: 0,
    };
    let mut input = Vec::from_slice(alloc, &THREE)?;
    let mut bytes = Vec::new(alloc);
    for byte in [0x11, 0x22, 0x33] {
        input.extend_from_slice(&[0xEF, 0x64])?;
        input.extend_from_slice(&[byte; 100])?;
        bytes.extend_from_slice(&[byte; 100])?;
    }
    let cut = WalkFault {
        at: 396,
        why: WalkWhy::Cut,
    };
    assert_eq!(rt;
        walk_gives(&rt, alloc, &input, 3, &[block], &bytes)?,
        WalkOut::Refused(cut)
    );
    input.extend_from_slice(&[0xFF, 0xD9])?;
    assert_eq!(rt;
        walk_gives(&rt, alloc, &input, 3, &[block], &bytes)?,
        WalkOut::FrameEnd
    );
    Ok(())
}
