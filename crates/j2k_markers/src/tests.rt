//! Headers and refusals that were worked out by hand, and the headers of two encoders.
mod headers;
mod limits;
mod pairs;

ghost use Rattle.std.specs.Prelude.{◌≡◌, ◌≤◌, []};

use super::*;
use arrayvec::ArrayVec;
use headers::{GROK, GROK_RPCL, ONE_PIXEL, OPENJPH, OPENJPH_RPCL, THREE_PRECINCTS};
use std::alloc::{AllocError, Global};

/// A header with some bytes of it, those from one place up to another, replaced.
#[derive(Clone, Copy)]
struct Change {
    from: usize,
    to: usize,
    put: &'static [u8],
}

/// The header with the change; bytes can be put in before the last byte, not after it.
fn changed(alloc: Global, header: &[u8], change: &Change) -> Result<Vec<u8>, AllocError> {
    let mut bytes = Vec::new(alloc);
    for (at, byte) in header.iter().enumerate() {
        if at == change.from {
            bytes.extend_from_slice(change.put)?;
        }
        if at < change.from || at >= change.to {
            bytes.push(*byte)?;
        }
    }
    Ok(bytes)
}

/// A change, where the header is then refused, and why.
const fn refused(
    from: usize,
    to: usize,
    put: &'static [u8],
    at: u32,
    why: HeadWhy,
) -> (Change, HeadFault) {
    (Change { from, to, put }, HeadFault { at, why })
}

/// A change with which the header is taken.
const fn taken(from: usize, to: usize, put: &'static [u8]) -> Change {
    Change { from, to, put }
}

/// The first of these changes with which the header of one pixel isn't refused so.
fn first_other(alloc: Global, cases: &[(Change, HeadFault)]) -> Result<Option<usize>, AllocError> {
    for (row, (change, fault)) in cases.iter().enumerate() {
        let bytes = changed(alloc, &ONE_PIXEL, change)?;
        if read_head(&bytes).err() != Some(*fault) {
            return Ok(Some(row));
        }
    }
    Ok(None)
}

#[test]
fn a_faulty_siz_is_refused_at_its_first_fault(rt: HostRuntime) -> Result<(), AllocError> {
    let cases = [
        refused(40, 42, &[0, 0], 2, HeadWhy::Components),
        refused(40, 42, &[0, 17], 2, HeadWhy::Components),
        refused(40, 42, &[0, 16], 2, HeadWhy::Length),
        refused(40, 42, &[0, 2], 2, HeadWhy::Length),
        refused(6, 8, &[0xBF, 0xFF], 2, HeadWhy::Rsiz),
        refused(8, 12, &[0x80, 0, 0, 0], 2, HeadWhy::Area),
        refused(12, 16, &[0x80, 0, 0, 0], 2, HeadWhy::Area),
        refused(16, 20, &[0, 0, 0, 1], 2, HeadWhy::Area),
        refused(20, 24, &[0, 0, 0, 1], 2, HeadWhy::Area),
        refused(32, 36, &[0, 0, 0, 1], 2, HeadWhy::Tiles),
        refused(36, 40, &[0, 0, 0, 1], 2, HeadWhy::Tiles),
        refused(24, 28, &[0, 0, 0, 0], 2, HeadWhy::Tiles),
        refused(28, 32, &[0, 0, 0, 0], 2, HeadWhy::Tiles),
        refused(43, 44, &[0], 2, HeadWhy::Step),
        refused(44, 45, &[0], 2, HeadWhy::Step),
        // the image is the place 1 alone, of which a step of 2 keeps nothing
        refused(
            8,
            44,
            &[
                0, 0, 0, 2, 0, 0, 0, 1, 0, 0, 0, 1, 0, 0, 0, 0, 0, 0, 0, 2, 0, 0, 0, 1, 0, 0, 0, 0,
                0, 0, 0, 0, 0, 1, 7, 2,
            ],
            2,
            HeadWhy::Area,
        ),
        // the same, and a second component with a step of 0
        refused(
            4,
            45,
            &[
                0, 44, 0x40, 0, 0, 0, 0, 2, 0, 0, 0, 1, 0, 0, 0, 1, 0, 0, 0, 0, 0, 0, 0, 2, 0, 0,
                0, 1, 0, 0, 0, 0, 0, 0, 0, 0, 0, 2, 7, 2, 1, 7, 1, 0,
            ],
            2,
            HeadWhy::Step,
        ),
        // two faults: the first of the order is the answer
        refused(40, 44, &[0, 0, 7, 0], 2, HeadWhy::Components),
        refused(6, 12, &[0, 0, 0x80, 0, 0, 0], 2, HeadWhy::Rsiz),
    ];
    assert_eq!(rt; first_other(rt.alloc(), &cases)?, None);
    Ok(())
}

#[test]
fn a_faulty_cap_is_refused_at_its_first_fault(rt: HostRuntime) -> Result<(), AllocError> {
    let cases = [
        refused(49, 53, &[0, 2, 0, 1], 45, HeadWhy::Cap),
        refused(53, 55, &[0x20, 0], 45, HeadWhy::Cap),
        refused(47, 55, &[0, 6, 0, 0, 0, 0], 45, HeadWhy::Cap),
        refused(47, 55, &[0, 6, 0, 2, 0, 0], 45, HeadWhy::Length),
        refused(
            47,
            55,
            &[0, 10, 0, 2, 0, 0, 0, 0, 0, 0],
            45,
            HeadWhy::Length,
        ),
        refused(47, 55, &[0, 5, 0, 2, 0], 45, HeadWhy::Length),
    ];
    assert_eq!(rt; first_other(rt.alloc(), &cases)?, None);
    Ok(())
}

#[test]
fn a_faulty_cod_is_refused_at_its_first_fault(rt: HostRuntime) -> Result<(), AllocError> {
    let cases = [
        refused(59, 60, &[8], 55, HeadWhy::Style),
        refused(59, 60, &[2], 55, HeadWhy::Sop),
        refused(59, 60, &[6], 55, HeadWhy::Sop),
        refused(60, 61, &[0], 55, HeadWhy::Order),
        refused(60, 61, &[1], 55, HeadWhy::Order),
        refused(60, 61, &[4], 55, HeadWhy::Order),
        refused(61, 63, &[0, 2], 55, HeadWhy::Layers),
        refused(64, 65, &[16], 55, HeadWhy::Levels),
        refused(59, 60, &[1], 55, HeadWhy::Length),
        refused(65, 66, &[9], 55, HeadWhy::Blocks),
        refused(66, 67, &[9], 55, HeadWhy::Blocks),
        refused(65, 67, &[8, 1], 55, HeadWhy::Blocks),
        refused(67, 68, &[0], 55, HeadWhy::Style),
        refused(67, 68, &[0x41], 55, HeadWhy::Style),
        // N_L 1 with 2^15 by 2^15 at resolution 0, and a size of 0 in y or in x at resolution 1
        refused(
            57,
            69,
            &[0, 14, 1, 3, 0, 1, 0, 1, 4, 4, 0x40, 1, 0xFF, 0x0F],
            55,
            HeadWhy::Precinct,
        ),
        refused(
            57,
            69,
            &[0, 14, 1, 3, 0, 1, 0, 1, 4, 4, 0x40, 1, 0xFF, 0xF0],
            55,
            HeadWhy::Precinct,
        ),
        // two faults: the first of the order is the answer
        refused(59, 61, &[6, 1], 55, HeadWhy::Sop),
        refused(60, 63, &[1, 0, 2], 55, HeadWhy::Order),
        refused(59, 65, &[1, 3, 0, 1, 0, 16], 55, HeadWhy::Levels),
    ];
    assert_eq!(rt; first_other(rt.alloc(), &cases)?, None);
    Ok(())
}

#[test]
fn a_faulty_tile_part_is_refused_behind_all_segments(rt: HostRuntime) -> Result<(), AllocError> {
    let cases = [
        refused(77, 79, &[0, 11], 75, HeadWhy::Length),
        refused(79, 81, &[0, 1], 75, HeadWhy::TileHeader),
        refused(85, 86, &[1], 75, HeadWhy::TileHeader),
        refused(86, 87, &[2], 75, HeadWhy::TileHeader),
        refused(73, 74, &[0x42], 69, HeadWhy::Quant),
        refused(73, 74, &[0x43], 69, HeadWhy::Quant),
        refused(71, 75, &[0, 5, 0x40, 0x48, 0x48], 69, HeadWhy::Quant),
        // the same with a fault in SOT
        refused(
            73,
            86,
            &[0x42, 0x48, 0xFF, 0x90, 0, 10, 0, 0, 0, 0, 0, 0, 1],
            75,
            HeadWhy::TileHeader,
        ),
        // a bad marker at 75 after a bad COD
        refused(
            59,
            76,
            &[
                2, 3, 0, 1, 0, 0, 4, 4, 0x40, 1, 0xFF, 0x5C, 0, 4, 0x40, 0x48, 0xFE,
            ],
            55,
            HeadWhy::Sop,
        ),
    ];
    assert_eq!(rt; first_other(rt.alloc(), &cases)?, None);
    Ok(())
}

#[test]
fn markers_are_refused_where_they_may_not_stand(rt: HostRuntime) -> Result<(), AllocError> {
    let cases = [
        refused(0, 2, &[0xFF, 0xD8], 0, HeadWhy::NoSoc),
        refused(2, 4, &[0xFF, 0x52], 2, HeadWhy::NoSiz),
        refused(
            75,
            75,
            &[0xFF, 0x53, 0, 5, 0, 0, 0],
            75,
            HeadWhy::Marker(0xFF53),
        ),
        refused(75, 75, &[0xFF, 0x58, 0, 3, 0], 75, HeadWhy::Marker(0xFF58)),
        refused(
            75,
            75,
            &[0xFF, 0x5C, 0, 4, 0x40, 0x48],
            75,
            HeadWhy::Twice(0xFF5C),
        ),
        refused(75, 75, &[0xFF, 0x51], 75, HeadWhy::Twice(0xFF51)),
        refused(45, 55, &[], 65, HeadWhy::Missing(0xFF50)),
        refused(55, 69, &[], 61, HeadWhy::Missing(0xFF52)),
        refused(69, 75, &[], 69, HeadWhy::Missing(0xFF5C)),
        refused(45, 75, &[], 45, HeadWhy::Missing(0xFF50)),
        refused(75, 75, &[0xFF, 0x64, 0, 1], 75, HeadWhy::Length),
        refused(
            87,
            87,
            &[0xFF, 0x55, 0, 4, 0, 0],
            87,
            HeadWhy::Marker(0xFF55),
        ),
        refused(87, 87, &[0xFF, 0x90, 0, 10], 87, HeadWhy::Marker(0xFF90)),
        refused(87, 87, &[0xFF, 0x64, 0, 1], 87, HeadWhy::Length),
        // QCD of a wrong style, and no CAP
        refused(
            45,
            74,
            &[
                0xFF, 0x52, 0, 12, 0, 3, 0, 1, 0, 0, 4, 4, 0x40, 1, 0xFF, 0x5C, 0, 4, 0x42,
            ],
            65,
            HeadWhy::Missing(0xFF50),
        ),
    ];
    assert_eq!(rt; first_other(rt.alloc(), &cases)?, None);
    Ok(())
}

#[test]
fn a_header_that_ends_too_soon_is_cut_at_its_end(rt: HostRuntime) {
    let cases: [(&[u8], u32, HeadWhy); 9] = [
        (&[], 0, HeadWhy::Cut),
        (&[0], 1, HeadWhy::Cut),
        (&[0xFF, 0x4F, 0], 3, HeadWhy::Cut),
        (&[0xFF, 0x4F, 0xFF, 0x52], 2, HeadWhy::NoSiz),
        (&[0xFF, 0x4F, 0xFF, 0x51, 0, 40], 2, HeadWhy::Length),
        (&[0xFF, 0x4F, 0xFF, 0x51, 0, 41], 6, HeadWhy::Cut),
        (&[0xFF, 0x4F, 0xFF, 0x51, 0xFF, 0xFF], 6, HeadWhy::Cut),
        (&ONE_PIXEL[..60], 60, HeadWhy::Cut),
        (&ONE_PIXEL[..88], 88, HeadWhy::Cut),
    ];
    for (row, (bytes, at, why)) in cases.iter().enumerate() {
        let fault = HeadFault { at: *at, why: *why };
        assert_eq!(rt; read_head(bytes).err(), Some(fault), "in row {row}");
    }
}

#[test]
fn a_header_of_more_than_8192_bytes_is_too_long(rt: HostRuntime) {
    let mut bytes = [0u8; 8200];
    bytes[..75].copy_from_slice(&ONE_PIXEL[..75]);
    bytes[75..79].copy_from_slice(&[0xFF, 0x64, 0xFF, 0xFF]);
    let cases = [
        (79, 79, HeadWhy::Cut),
        (8191, 8191, HeadWhy::Cut),
        (8192, 8192, HeadWhy::TooLong),
        (8200, 8192, HeadWhy::TooLong),
    ];
    for (length, at, why) in cases {
        let fault = HeadFault { at, why };
        assert_eq!(rt;
            read_head(&bytes[..length]).err(),
            Some(fault),
            "with {length} bytes"
        );
    }
}

/// An image of one resolution with precincts of 1 by 1.
#[derive(Clone, Copy)]
struct Dots {
    components: u8,
    wide: u32,
    high: u32,
}

/// Its header. SOT is at 76 and three bytes more for each component after the first.
fn header_of_dots(alloc: Global, image: Dots) -> Result<Vec<u8>, AllocError>
    requires { image.components ≤ 16 }
{
    let mut bytes = Vec::new(alloc);
    let (wide, high) = (image.wide.to_be_bytes(), image.high.to_be_bytes());
    let components = image.components;
    bytes.extend_from_slice(&[0xFF, 0x4F, 0xFF, 0x51, 0, 38 + 3 * components, 0x40, 0])?;
    bytes.extend_from_slice(&wide)?;
    bytes.extend_from_slice(&high)?;
    bytes.extend_from_slice(&[0, 0, 0, 0, 0, 0, 0, 0])?;
    bytes.extend_from_slice(&wide)?;
    bytes.extend_from_slice(&high)?;
    bytes.extend_from_slice(&[0, 0, 0, 0, 0, 0, 0, 0, 0, components])?;
    for _ in 0..components {
        bytes.extend_from_slice(&[7, 1, 1])?;
    }
    bytes.extend_from_slice(&THREE_PRECINCTS[45..])?;
    Ok(bytes)
}

/// The header of an image of 1,024 by 1,024 with precincts of 1 by 1.
fn million(alloc: Global, components: u8) -> Result<Vec<u8>, AllocError>
    requires { components ≤ 16 }
{
    header_of_dots(
        alloc,
        Dots {
            components,
            wide: 1024,
            high: 1024,
        },
    )
}

#[test]
fn a_pid_of_2_to_the_20_is_refused_at_sot(rt: HostRuntime) -> Result<(), AllocError> {
    assert_eq!(rt; read_head(&million(rt.alloc(), 1)?).err(), None);
    let fault = HeadFault {
        at: 79,
        why: HeadWhy::Ids,
    };
    assert_eq!(rt; read_head(&million(rt.alloc(), 2)?).err(), Some(fault));
    // 16 components of 2^60 + 2^15 precincts: the least number past all is 2^64 + 2^19
    let most = Dots {
        components: 16,
        wide: 1_073_774_592,
        high: 1_073_709_057,
    };
    let fault = HeadFault {
        at: 121,
        why: HeadWhy::Ids,
    };
    assert_eq!(rt;
        read_head(&header_of_dots(rt.alloc(), most)?).err(),
        Some(fault)
    );
    Ok(())
}

/// What a header says.
#[derive(Clone, Copy)]
struct Values {
    area: (u32, u32, u32, u32),
    steps: &'static [(u8, u8)],
    levels: u8,
    block: (u8, u8),
    precincts: &'static [(u8, u8)],
    order: u8,
    eph: bool,
    psot: u32,
    sot: u32,
    length: u32,
}

/// Whether the bytes begin with a header that says this.
fn says(bytes: &[u8], values: &Values) -> bool {
    let Ok(head) = read_head(bytes) else {
        return false;
    };
    for c in 0..head.components() {
        if values.steps.get(usize::from(c)) != Some(&head.step(c)) {
            return false;
        }
    }
    for r in 0..head.levels() + 1 {
        if values.precincts.get(usize::from(r)) != Some(&head.precinct(r)) {
            return false;
        }
    }
    head.area() == values.area
        && usize::from(head.components()) == values.steps.len()
        && head.levels() == values.levels
        && head.block() == values.block
        && usize::from(head.levels()) + 1 == values.precincts.len()
        && head.order() == values.order
        && head.eph() == values.eph
        && head.psot() == values.psot
        && head.sot() == values.sot
        && head.length() == values.length
}

/// The values of the header of one pixel.
const ONE_PIXEL_VALUES: Values = Values {
    area: (0, 0, 1, 1),
    steps: &[(1, 1)],
    levels: 0,
    block: (6, 6),
    precincts: &[(15, 15)],
    order: PCRL,
    eph: false,
    psot: 0,
    sot: 75,
    length: 89,
};

#[test]
fn small_headers_are_read(rt: HostRuntime) -> Result<(), AllocError> {
    assert!(rt; says(&ONE_PIXEL, &ONE_PIXEL_VALUES));
    let mut longer = Vec::new(rt.alloc());
    longer.extend_from_slice(&ONE_PIXEL)?;
    longer.extend_from_slice(&[0xFF, 0x51, 0])?;
    assert!(rt; says(&longer, &ONE_PIXEL_VALUES));
    let values = Values {
        area: (0, 0, 3, 1),
        precincts: &[(0, 0)],
        sot: 76,
        length: 90,
        ..ONE_PIXEL_VALUES
    };
    assert!(rt; says(&THREE_PRECINCTS, &values));
    Ok(())
}

#[test]
fn the_order_and_eph_are_read_apart(rt: HostRuntime) -> Result<(), AllocError> {
    for (scod, order) in [(0u8, RPCL), (4, PCRL), (4, RPCL)] {
        let mut header = ONE_PIXEL;
        header[59] = scod;
        header[60] = order;
        let values = Values {
            order,
            eph: scod == 4,
            ..ONE_PIXEL_VALUES
        };
        assert!(rt;
            says(&header, &values),
            "with Scod {scod} and order {order}"
        );
    }
    Ok(())
}

#[test]
fn segments_are_passed_over(rt: HostRuntime) -> Result<(), AllocError> {
    let before = Change {
        from: 75,
        to: 75,
        put: &[
            0xFF, 0x64, 0, 8, 0, 1, 0x6D, 0x61, 0x64, 0x65, 0xFF, 0x5D, 0, 5, 0, 0x40, 0x48, 0xFF,
            0x55, 0, 8, 0, 0x40, 0, 0, 0, 0x12,
        ],
    };
    let values = Values {
        sot: 102,
        length: 116,
        ..ONE_PIXEL_VALUES
    };
    assert!(rt; says(&changed(rt.alloc(), &ONE_PIXEL, &before)?, &values));
    let behind = Change {
        from: 87,
        to: 87,
        put: &[0xFF, 0x58, 0, 3, 0, 0xFF, 0x64, 0, 2],
    };
    let values = Values {
        length: 98,
        ..ONE_PIXEL_VALUES
    };
    assert!(rt; says(&changed(rt.alloc(), &ONE_PIXEL, &behind)?, &values));
    Ok(())
}

#[test]
fn the_sums_of_tiles_are_exact(rt: HostRuntime) -> Result<(), AllocError> {
    let change = Change {
        from: 8,
        to: 40,
        put: &[
            0, 0, 0, 2, 0, 0, 0, 1, 0, 0, 0, 1, 0, 0, 0, 0, 0xFF, 0xFF, 0xFF, 0xFF, 0, 0, 0, 1, 0,
            0, 0, 1, 0, 0, 0, 0,
        ],
    };
    let values = Values {
        area: (1, 0, 2, 1),
        ..ONE_PIXEL_VALUES
    };
    assert!(rt; says(&changed(rt.alloc(), &ONE_PIXEL, &change)?, &values));
    Ok(())
}

/// The values of OpenJPH's header.
const OPENJPH_VALUES: Values = Values {
    area: (0, 0, 64, 48),
    steps: &[(1, 1), (1, 1), (1, 1)],
    levels: 5,
    block: (6, 6),
    precincts: &[(15, 15), (15, 15), (15, 15), (15, 15), (15, 15), (15, 15)],
    order: PCRL,
    eph: false,
    psot: 3061,
    sot: 136,
    length: 150,
};

#[test]
fn the_headers_of_two_encoders_are_read(rt: HostRuntime) {
    let grok = Values {
        area: (3, 5, 67, 53),
        levels: 3,
        block: (4, 4),
        precincts: &[(1, 1), (2, 2), (3, 3), (4, 4)],
        psot: 7084,
        sot: 130,
        length: 144,
        ..OPENJPH_VALUES
    };
    let openjph_rpcl = Values {
        order: RPCL,
        ..OPENJPH_VALUES
    };
    let grok_rpcl = Values {
        levels: 2,
        precincts: &[(15, 15), (15, 15), (15, 15)],
        order: RPCL,
        eph: true,
        psot: 4067,
        sot: 123,
        length: 137,
        ..OPENJPH_VALUES
    };
    let cases: [(&[u8], Values); 4] = [
        (&OPENJPH, OPENJPH_VALUES),
        (&GROK, grok),
        (&OPENJPH_RPCL, openjph_rpcl),
        (&GROK_RPCL, grok_rpcl),
    ];
    for (row, (header, values)) in cases.iter().enumerate() {
        assert!(rt; says(header, values), "in row {row}");
    }
}

/// The plan of the header of one pixel.
fn one_pixel(alloc: Global) -> HeadPlan
    ensures block_x { result.block.0 ≡ 6 }
    ensures block_y { result.block.1 ≡ 6 }
    ensures precincts { result.precincts.items ≡ [] }
    ensures extra { result.extra.items ≡ [] }
{
    let mut steps = ArrayVec::new();
    steps.push((1, 1));
    HeadPlan {
        area: (0, 0, 1, 1),
        steps,
        levels: 0,
        block: (6, 6),
        style: 0x40,
        precincts: ArrayVec::new(),
        psot: 0,
        extra: Vec::new(alloc),
        order: PCRL,
        eph: false,
    }
}

#[test]
fn a_plan_is_written_as_its_header(rt: HostRuntime) -> Result<(), PlanFault> {
    for (scod, order) in [(0u8, PCRL), (0, RPCL), (4, PCRL), (4, RPCL)] {
        let mut header = ONE_PIXEL;
        header[59] = scod;
        header[60] = order;
        let mut plan = one_pixel(rt.alloc());
        plan.order = order;
        plan.eph = scod == 4;
        let bytes = write_head(rt.alloc(), &plan)?;
        assert_eq!(rt; bytes.as_slice(), header.as_slice());
    }
    Ok(())
}

#[test]
fn a_plan_that_the_reader_refuses_is_refused_so(rt: HostRuntime) {
    // levels, order, components
    let cases = [
        (16, PCRL, 1, HeadWhy::Levels),
        (0, 1, 1, HeadWhy::Order),
        (0, 4, 1, HeadWhy::Order),
        (16, 0, 1, HeadWhy::Order),
        (0, 1, 0, HeadWhy::Length),
    ];
    for (levels, order, components, why) in cases {
        let mut plan = one_pixel(rt.alloc());
        plan.levels = levels;
        plan.order = order;
        if components == 0 {
            plan.steps.clear();
        }
        let answer = write_head(rt.alloc(), &plan);
        assert_eq!(rt; answer.err(), Some(PlanFault::Head(why)));
    }
}
