//! Worked codestreams, made.
ghost use Rattle.std.specs.Prelude.{◌≡◌, []};

mod generated;

use super::*;
use arrayvec::ArrayVec;
use j2k_markers::{HeadPlan, HeadWhy, PCRL};
use packet_header::Block;
use std::alloc::{AllocError, Global};
use std::process::Abort;
use std::test::Fail;

/// A codestream of one pixel with Psot 18.
const ONE_PIXEL: [u8; 95] = [
    0xFF, 0x4F, 0xFF, 0x51, 0x00, 0x29, 0x40, 0x00, 0x00, 0x00, 0x00, 0x01, 0x00, 0x00, 0x00, 0x01,
    0x00, 0x00, 0x00, 0x00, 0x00, 0x00, 0x00, 0x00, 0x00, 0x00, 0x00, 0x01, 0x00, 0x00, 0x00, 0x01,
    0x00, 0x00, 0x00, 0x00, 0x00, 0x00, 0x00, 0x00, 0x00, 0x01, 0x07, 0x01, 0x01, 0xFF, 0x50, 0x00,
    0x08, 0x00, 0x02, 0x00, 0x00, 0x00, 0x00, 0xFF, 0x52, 0x00, 0x0C, 0x00, 0x03, 0x00, 0x01, 0x00,
    0x00, 0x04, 0x04, 0x40, 0x01, 0xFF, 0x5C, 0x00, 0x04, 0x40, 0x48, 0xFF, 0x90, 0x00, 0x0A, 0x00,
    0x00, 0x00, 0x00, 0x00, 0x12, 0x00, 0x01, 0xFF, 0x93, 0xC8, 0x80, 0xAA, 0xBB, 0xFF, 0xD9,
];

/// The code-block of the one pixel.
const BLOCK: Block = Block {
    band: 0,
    col: 0,
    row: 0,
    planes: 2,
    passes: 1,
    cleanup: 2,
    refine: 0,
};

/// The plan of the header of this picture, one pixel high, of one component and one precinct.
fn head_of(alloc: Global, width: u32, eph: bool) -> HeadPlan
    ensures block_x { result.block.0 ≡ 6 }
    ensures block_y { result.block.1 ≡ 6 }
    ensures precincts { result.precincts.items ≡ [] }
    ensures extra { result.extra.items ≡ [] }
{
    let mut steps = ArrayVec::new();
    steps.push((1, 1));
    HeadPlan {
        area: (0, 0, width, 1),
        steps,
        levels: 0,
        block: (6, 6),
        style: 0x40,
        precincts: ArrayVec::new(),
        psot: 7,
        extra: Vec::new(alloc),
        order: PCRL,
        eph,
    }
}

/// What a packet is to say.
fn content_of(alloc: Global, blocks: &[Block], bytes: &[u8]) -> Result<PrecinctPlan, AllocError> {
    Ok(PrecinctPlan {
        blocks: Vec::from_slice(alloc, blocks)?,
        bytes: Vec::from_slice(alloc, bytes)?,
    })
}

/// What is made of a picture whose packets are all to say this.
fn made(
    alloc: Global,
    (width, eph): (u32, bool),
    count: usize,
    (blocks, bytes): (&[Block], &[u8]),
) -> Result<Result<Vec<u8>, MakeFault>, AllocError> {
    let mut content = Vec::new(alloc);
    for _ in 0..count {
        content.push(content_of(alloc, blocks, bytes)?)?;
    }
    let head = head_of(alloc, width, eph);
    Ok(make(alloc, &CodePlan { head, content }))
}

#[test]
fn the_codestream_of_one_pixel_is_made(rt: HostRuntime) -> Result<(), Fail> {
    let alloc = rt.alloc();
    let bytes = made(alloc, (1, false), 1, (&[BLOCK], &[0xAA, 0xBB]))?;
    assert_eq!(rt; bytes.expect(&rt, "made").as_slice(), ONE_PIXEL.as_slice());
    // With EPH after the packet header Psot is 20.
    let bytes = made(alloc, (1, true), 1, (&[BLOCK], &[0xAA, 0xBB]))?.expect(&rt, "made");
    assert_eq!(rt; bytes.len(), 97);
    assert_eq!(rt; (bytes.get(59), bytes.get(84)), (Some(&4), Some(&20)));
    let end = [0xC8, 0x80, 0xFF, 0x92, 0xAA, 0xBB, 0xFF, 0xD9];
    assert!(rt; bytes.ends_with(&end));
    // An empty packet is one byte.
    let bytes = made(alloc, (1, false), 1, (&[], &[]))?.expect(&rt, "made");
    assert_eq!(rt; (bytes.len(), bytes.get(84)), (92, Some(&15)));
    assert!(rt; bytes.ends_with(&[0x00, 0xFF, 0xD9]));
    Ok(())
}

/// What a plan is refused for.
fn refused(rt: &impl Abort, answer: Result<Vec<u8>, MakeFault>, why: MakeFault) {
    assert_eq!(rt; answer.err(), Some(why));
}

#[test]
fn plans_are_refused_by_the_first_fault(rt: HostRuntime) -> Result<(), Fail> {
    let alloc = rt.alloc();
    let content = (&[BLOCK][..], &[0xAA, 0xBB][..]);
    for count in [0, 2, 3] {
        refused(
            &rt,
            made(alloc, (1, false), count, content)?,
            MakeFault::Content,
        );
    }
    let wide = Block { col: 1, ..BLOCK };
    let upper = Block { band: 1, ..BLOCK };
    let passes = Block { passes: 4, ..BLOCK };
    let cases: [(&[Block], &[u8]); 7] = [
        (&[BLOCK], &[0xAA]),
        (&[BLOCK], &[0xAA, 0xBB, 0xCC]),
        (&[], &[0xAA]),
        (&[wide], &[0xAA, 0xBB]),
        (&[upper], &[0xAA, 0xBB]),
        (&[passes], &[0xAA, 0xBB]),
        (&[BLOCK, BLOCK], &[0xAA, 0xBB, 0xAA, 0xBB]),
    ];
    for case in cases {
        refused(&rt, made(alloc, (1, false), 1, case)?, MakeFault::Content);
    }
    // A header that is refused comes first.
    let head = MakeFault::Head(HeadWhy::Area);
    refused(&rt, made(alloc, (0, false), 0, content)?, head);
    Ok(())
}
