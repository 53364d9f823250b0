//! Headers that are stripped, and codestreams that are built again.
ghost use Rattle.std.specs.Prelude.{◌≡◌, IfSome};
ghost use Rattle.codestream_model.specs.MainHeader.{SpellsHead};
ghost use Rattle.codestream_model.specs.Precincts.{IsPrecinct};
ghost use Rattle.precinct_geometry.specs.Spans.{place_of};

use super::*;
use j2k_markers::{Head, RPCL, read_head};
use precinct_geometry::{Geometry, Place};
use scl_outside::{DuctMem, PutOut};
use std::alloc::{AllocError, Global};
use std::process::Abort;
use std::test::Fail;

/// SOC, SIZ, CAP, COD and QCD of one sample.
const ONE: [u8; 75] = [
    0xFF, 0x4F, 0xFF, 0x51, 0x00, 0x29, 0x40, 0x00, 0x00, 0x00, 0x00, 0x01, 0x00, 0x00, 0x00, 0x01,
    0x00, 0x00, 0x00, 0x00, 0x00, 0x00, 0x00, 0x00, 0x00, 0x00, 0x00, 0x01, 0x00, 0x00, 0x00, 0x01,
    0x00, 0x00, 0x00, 0x00, 0x00, 0x00, 0x00, 0x00, 0x00, 0x01, 0x07, 0x01, 0x01, 0xFF, 0x50, 0x00,
    0x08, 0x00, 0x02, 0x00, 0x00, 0x00, 0x00, 0xFF, 0x52, 0x00, 0x0C, 0x00, 0x03, 0x00, 0x01, 0x00,
    0x00, 0x04, 0x04, 0x40, 0x01, 0xFF, 0x5C, 0x00, 0x04, 0x40, 0x48,
];

/// COM with the text `made`.
const COM: [u8; 10] = [0xFF, 0x64, 0x00, 0x08, 0x00, 0x01, 0x6D, 0x61, 0x64, 0x65];

/// QCC of component 0.
const QCC: [u8; 7] = [0xFF, 0x5D, 0x00, 0x05, 0x00, 0x40, 0x48];

/// TLM of one tile-part.
const TLM: [u8; 10] = [0xFF, 0x55, 0x00, 0x08, 0x00, 0x40, 0x00, 0x00, 0x00, 0x12];

/// PLT with the length of one packet.
const PLT: [u8; 6] = [0xFF, 0x58, 0x00, 0x04, 0x00, 0x04];

/// SOT with Psot 0.
const SOT: [u8; 12] = [0xFF, 0x90, 0x00, 0x0A, 0, 0, 0, 0, 0, 0, 0, 0x01];

/// SOT with Psot 18.
const SOT_OF_18: [u8; 12] = [0xFF, 0x90, 0x00, 0x0A, 0, 0, 0, 0, 0, 0x12, 0, 0x01];

/// SOD.
const SOD: [u8; 2] = [0xFF, 0x93];

/// EOC.
const EOC: [u8; 2] = [0xFF, 0xD9];

/// The main header of three samples side by side, in precincts of one sample each.
const THREE: [u8; 90] = [
    0xFF, 0x4F, 0xFF, 0x51, 0x00, 0x29, 0x40, 0x00, 0x00, 0x00, 0x00, 0x03, 0x00, 0x00, 0x00, 0x01,
    0x00, 0x00, 0x00, 0x00, 0x00, 0x00, 0x00, 0x00, 0x00, 0x00, 0x00, 0x03, 0x00, 0x00, 0x00, 0x01,
    0x00, 0x00, 0x00, 0x00, 0x00, 0x00, 0x00, 0x00, 0x00, 0x01, 0x07, 0x01, 0x01, 0xFF, 0x50, 0x00,
    0x08, 0x00, 0x02, 0x00, 0x00, 0x00, 0x00, 0xFF, 0x52, 0x00, 0x0D, 0x01, 0x03, 0x00, 0x01, 0x00,
    0x00, 0x04, 0x04, 0x40, 0x01, 0x00, 0xFF, 0x5C, 0x00, 0x04, 0x40, 0x48, 0xFF, 0x90, 0x00, 0x0A,
    0x00, 0x00, 0x00, 0x00, 0x00, 0x00, 0x00, 0x01, 0xFF, 0x93,
];

/// All these bytes, one after another.
fn joined(alloc: Global, pieces: &[&[u8]]) -> Result<Vec<u8>, AllocError> {
    let mut bytes = Vec::new(alloc);
    for piece in pieces {
        bytes.extend_from_slice(piece)?;
    }
    Ok(bytes)
}

/// The values of an accepted header.
fn accepted(rt: &impl Abort, header: &[u8]) -> Head
    ensures { SpellsHead result header.now }
{
    let Ok(head) = read_head(header) else {
        panic!(rt; "the header is refused");
    };
    assert!(rt; head.length() as usize == header.len());
    head
}

/// The number of bytes of an accepted header when it is stripped.
fn strip(rt: &impl Abort, header: &[u8], out: &mut [u8; 8192]) -> usize {
    let _ = accepted(rt, header);
    stripped(header, out)
}

#[test]
fn lengths_are_left_out_of_headers(rt: HostRuntime) -> Result<(), Fail> {
    let cases: [(&[&[u8]], &[&[u8]], usize); 3] = [
        (
            &[&ONE, &COM, &QCC, &TLM, &SOT, &SOD],
            &[&ONE, &COM, &QCC, &SOT, &SOD],
            106,
        ),
        (
            &[&ONE, &SOT_OF_18, &PLT, &COM, &SOD],
            &[&ONE, &SOT, &COM, &SOD],
            99,
        ),
        (&[&THREE], &[&THREE], 90),
    ];
    let mut out = [0u8; 8192];
    for (header, expected, size) in cases {
        let header = joined(rt.alloc(), header)?;
        let expected = joined(rt.alloc(), expected)?;
        let len = strip(&rt, &header, &mut out);
        assert_eq!(rt; len, size);
        assert_eq!(rt; out.get(..len), Some(expected.as_slice()));
    }
    Ok(())
}

/// A packet that is put: the number of its main header, that of its precinct, and its bytes.
#[derive(Clone, Copy)]
struct Call<'a> {
    heads: u64,
    k: u32,
    raw: &'a [u8],
}

/// A precinct of an image of one component and resolution.
fn place_at(rt: &impl Abort, geometry: &Geometry, k: u32) -> Place
    ensures { IsPrecinct geometry.now (place_of result) }
{
    let place = Place { c: 0, r: 0, k };
    assert!(rt; geometry.holds(place));
    place
}

/// Puts the packet of a precinct of an image of one component and resolution.
fn put_one(
    rt: &impl Abort,
    rebuild: &mut Rebuild,
    duct: &mut DuctMem,
    header: &[u8],
    call: Call<'_>,
) -> PutOut
    requires { IfSome rebuild.old (λ o. SpellsHead o.head header.now) }
    ensures { result ≡ PutOut.Done → IfSome rebuild.new (λ o. SpellsHead o.head header.now) }
{
    let geometry = Geometry::new(accepted(rt, header));
    let place = place_at(rt, &geometry, call.k);
    rebuild.put(duct, call.heads, header, place, call.raw)
}

/// Puts packets and closes what is open. It ends at the first failed write.
fn rebuild(
    rt: &impl Abort,
    alloc: Global,
    duct: &mut DuctMem,
    header: &[u8],
    calls: &[Call<'_>],
) -> Result<PutOut, AllocError> {
    let mut rebuild = Rebuild::new(alloc)?;
    for call in calls {
        match put_one(rt, &mut rebuild, duct, header, *call) {
            PutOut::Done => {}
            PutOut::WriteFault => return Ok(PutOut::WriteFault),
        }
    }
    Ok(rebuild.close(duct))
}

/// A packet under the first main header.
fn first(k: u32, raw: &[u8]) -> Call<'_> {
    Call { heads: 1, k, raw }
}

/// A packet under the second main header.
fn second(k: u32, raw: &[u8]) -> Call<'_> {
    Call { heads: 2, k, raw }
}

#[test]
fn precincts_without_a_packet_have_an_empty_one(rt: HostRuntime) -> Result<(), Fail> {
    let cases: [(&[Call<'_>], &[&[u8]]); 5] = [
        (
            &[first(1, b"one"), first(2, b"two")],
            &[&THREE, &[0], b"one", b"two", &EOC],
        ),
        (&[first(1, b"one")], &[&THREE, &[0], b"one", &[0], &EOC]),
        (&[], &[]),
        (
            &[first(0, b"nil"), first(0, b"nil")],
            &[&THREE, b"nil", &[0, 0], &EOC, &THREE, b"nil", &[0, 0], &EOC],
        ),
        (
            &[first(0, b"nil"), second(1, b"one")],
            &[
                &THREE,
                b"nil",
                &[0, 0],
                &EOC,
                &THREE,
                &[0],
                b"one",
                &[0],
                &EOC,
            ],
        ),
    ];
    for (calls, expected) in cases {
        let mut duct = DuctMem::new(rt.alloc(), &[], &[], &[], &[], 10_000)?;
        assert_eq!(rt;
            rebuild(&rt, rt.alloc(), &mut duct, &THREE, calls)?,
            PutOut::Done
        );
        assert_eq!(rt; duct.written(), joined(rt.alloc(), expected)?.as_slice());
        assert!(rt; duct.told());
    }
    Ok(())
}

#[test]
fn an_empty_packet_has_eph_where_the_header_asks_for_it(rt: HostRuntime) -> Result<(), Fail> {
    let mut header = THREE;
    header[59] = 0x05;
    header[60] = RPCL;
    let mut duct = DuctMem::new(rt.alloc(), &[], &[], &[], &[], 10_000)?;
    let calls = [first(1, b"one")];
    assert_eq!(rt;
        rebuild(&rt, rt.alloc(), &mut duct, &header, &calls)?,
        PutOut::Done
    );
    let expected = joined(
        rt.alloc(),
        &[&header, &[0, 0xFF, 0x92], b"one", &[0, 0xFF, 0x92], &EOC],
    )?;
    assert_eq!(rt; duct.written(), expected.as_slice());
    assert!(rt; duct.told());
    Ok(())
}

#[test]
fn nothing_is_written_after_a_failed_write(rt: HostRuntime) -> Result<(), Fail> {
    let calls = [first(1, b"one"), first(2, b"two")];
    let pieces: [&[u8]; 5] = [&THREE, &[0], b"one", b"two", &EOC];
    for (bad, before) in [(0u64, 0), (1, 1), (2, 2), (3, 3), (4, 4)] {
        let mut duct = DuctMem::new(rt.alloc(), &[], &[], &[], &[bad], 10_000)?;
        let out = rebuild(&rt, rt.alloc(), &mut duct, &THREE, &calls)?;
        assert_eq!(rt; out, PutOut::WriteFault);
        assert_eq!(rt;
            duct.written(),
            joined(rt.alloc(), &pieces[..before])?.as_slice()
        );
        assert!(rt; duct.told());
    }
    Ok(())
}
