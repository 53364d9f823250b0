//! Packet orders that were worked out by hand.
use super::*;
use j2k_markers::{RPCL, read_head};
use precinct_geometry::{Geometry, Grid, Place};
use std::alloc::{AllocError, Global};
use std::process::Abort;
use std::test::Fail;

/// An image from (3, 5) to (19, 13) in two components, the second with half the columns; one decomposition level, and
/// precincts of 8 x 8.
const TWO_COMPONENTS: [u8; 97] = [
    0xFF, 0x4F, 0xFF, 0x51, 0x00, 0x2C, 0x40, 0x00, 0x00, 0x00, 0x00, 0x13, 0x00, 0x00, 0x00, 0x0D,
    0x00, 0x00, 0x00, 0x03, 0x00, 0x00, 0x00, 0x05, 0x00, 0x00, 0x00, 0x13, 0x00, 0x00, 0x00, 0x0D,
    0x00, 0x00, 0x00, 0x00, 0x00, 0x00, 0x00, 0x00, 0x00, 0x02, 0x07, 0x01, 0x01, 0x07, 0x02, 0x01,
    0xFF, 0x50, 0x00, 0x08, 0x00, 0x02, 0x00, 0x00, 0x00, 0x00, 0xFF, 0x52, 0x00, 0x0E, 0x01, 0x03,
    0x00, 0x01, 0x00, 0x01, 0x04, 0x04, 0x40, 0x01, 0x33, 0x33, 0xFF, 0x5C, 0x00, 0x07, 0x40, 0x48,
    0x48, 0x48, 0x48, 0xFF, 0x90, 0x00, 0x0A, 0x00, 0x00, 0x00, 0x00, 0x00, 0x00, 0x00, 0x01, 0xFF,
    0x93,
];

/// An image of the one sample at (1, 0), with one decomposition level.
const ODD_SAMPLE: [u8; 92] = [
    0xFF, 0x4F, 0xFF, 0x51, 0x00, 0x29, 0x40, 0x00, 0x00, 0x00, 0x00, 0x02, 0x00, 0x00, 0x00, 0x01,
    0x00, 0x00, 0x00, 0x01, 0x00, 0x00, 0x00, 0x00, 0x00, 0x00, 0x00, 0x02, 0x00, 0x00, 0x00, 0x01,
    0x00, 0x00, 0x00, 0x00, 0x00, 0x00, 0x00, 0x00, 0x00, 0x01, 0x07, 0x01, 0x01, 0xFF, 0x50, 0x00,
    0x08, 0x00, 0x02, 0x00, 0x00, 0x00, 0x00, 0xFF, 0x52, 0x00, 0x0C, 0x00, 0x03, 0x00, 0x01, 0x00,
    0x01, 0x04, 0x04, 0x40, 0x01, 0xFF, 0x5C, 0x00, 0x07, 0x40, 0x48, 0x48, 0x48, 0x48, 0xFF, 0x90,
    0x00, 0x0A, 0x00, 0x00, 0x00, 0x00, 0x00, 0x00, 0x00, 0x01, 0xFF, 0x93,
];

/// Grok 10.0.5: 64 x 48, three components, two decomposition levels, RPCL order, EPH markers.
const GROK_RPCL: [u8; 137] = [
    0xFF, 0x4F, 0xFF, 0x51, 0x00, 0x2F, 0x40, 0x00, 0x00, 0x00, 0x00, 0x40, 0x00, 0x00, 0x00, 0x30,
    0x00, 0x00, 0x00, 0x00, 0x00, 0x00, 0x00, 0x00, 0x00, 0x00, 0x00, 0x40, 0x00, 0x00, 0x00, 0x30,
    0x00, 0x00, 0x00, 0x00, 0x00, 0x00, 0x00, 0x00, 0x00, 0x03, 0x07, 0x01, 0x01, 0x07, 0x01, 0x01,
    0x07, 0x01, 0x01, 0xFF, 0x50, 0x00, 0x08, 0x00, 0x02, 0x00, 0x00, 0x00, 0x04, 0xFF, 0x52, 0x00,
    0x0C, 0x04, 0x02, 0x00, 0x01, 0x01, 0x02, 0x04, 0x04, 0x40, 0x01, 0xFF, 0x5C, 0x00, 0x0A, 0x20,
    0x58, 0x60, 0x60, 0x60, 0x58, 0x58, 0x60, 0xFF, 0x64, 0x00, 0x22, 0x00, 0x01, 0x43, 0x72, 0x65,
    0x61, 0x74, 0x65, 0x64, 0x20, 0x62, 0x79, 0x20, 0x47, 0x72, 0x6F, 0x6B, 0x20, 0x76, 0x65, 0x72,
    0x73, 0x69, 0x6F, 0x6E, 0x20, 0x31, 0x30, 0x2E, 0x30, 0x2E, 0x35, 0xFF, 0x90, 0x00, 0x0A, 0x00,
    0x00, 0x00, 0x00, 0x0F, 0xE3, 0x00, 0x01, 0xFF, 0x93,
];

/// The two components in RPCL order.
fn two_in_rpcl() -> [u8; 97] {
    let mut header = TWO_COMPONENTS;
    header[63] = RPCL;
    header
}

/// The geometry of the image that a header describes.
fn geometry_of(rt: &impl Abort, header: &[u8]) -> Geometry {
    let Ok(head) = read_head(header) else {
        panic!(rt; "the header is refused");
    };
    Geometry::new(head)
}

/// The grid of a band.
fn grid(band: u8, cols: u32, rows: u32) -> Grid {
    Grid { band, cols, rows }
}

/// A precinct: its number, its component, its resolution, its number there, and its anchor's y and x.
type Line = (u32, u8, u8, u32, u64, u64);

/// The lines of an image's precincts, in order.
fn lines_of(rt: &impl Abort, alloc: Global, geometry: &Geometry) -> Result<Vec<Line>, AllocError> {
    let list = OrderList::build(alloc, geometry)?;
    let mut lines = Vec::new(alloc);
    for place in list.places() {
        assert!(rt; geometry.holds(*place));
        let (y, x) = geometry.anchor(*place);
        lines.push((geometry.pid(*place), place.c, place.r, place.k, y, x))?;
    }
    Ok(lines)
}

/// The lines of the two components in PCRL order.
const TWO_BY_POSITION: [Line; 13] = [
    (0, 0, 0, 0, 5, 3),
    (4, 0, 1, 0, 5, 3),
    (1, 1, 0, 0, 5, 3),
    (3, 1, 1, 0, 5, 3),
    (6, 0, 1, 1, 5, 8),
    (2, 0, 0, 1, 5, 16),
    (8, 0, 1, 2, 5, 16),
    (5, 1, 1, 1, 5, 16),
    (10, 0, 1, 3, 8, 3),
    (7, 1, 1, 2, 8, 3),
    (12, 0, 1, 4, 8, 8),
    (14, 0, 1, 5, 8, 16),
    (9, 1, 1, 3, 8, 16),
];

/// The same lines in RPCL order.
const TWO_BY_RESOLUTION: [Line; 13] = [
    (0, 0, 0, 0, 5, 3),
    (1, 1, 0, 0, 5, 3),
    (2, 0, 0, 1, 5, 16),
    (4, 0, 1, 0, 5, 3),
    (3, 1, 1, 0, 5, 3),
    (6, 0, 1, 1, 5, 8),
    (8, 0, 1, 2, 5, 16),
    (5, 1, 1, 1, 5, 16),
    (10, 0, 1, 3, 8, 3),
    (7, 1, 1, 2, 8, 3),
    (12, 0, 1, 4, 8, 8),
    (14, 0, 1, 5, 8, 16),
    (9, 1, 1, 3, 8, 16),
];

/// The lines of Grok's codestream: one precinct of each resolution and component.
const GROK_LINES: [Line; 9] = [
    (0, 0, 0, 0, 0, 0),
    (1, 1, 0, 0, 0, 0),
    (2, 2, 0, 0, 0, 0),
    (3, 0, 1, 0, 0, 0),
    (4, 1, 1, 0, 0, 0),
    (5, 2, 1, 0, 0, 0),
    (6, 0, 2, 0, 0, 0),
    (7, 1, 2, 0, 0, 0),
    (8, 2, 2, 0, 0, 0),
];

#[test]
fn precincts_are_in_packet_order(rt: HostRuntime) -> Result<(), Fail> {
    let rpcl = two_in_rpcl();
    let cases: [(&[u8], &[Line]); 3] = [
        (&TWO_COMPONENTS, &TWO_BY_POSITION),
        (&rpcl, &TWO_BY_RESOLUTION),
        (&GROK_RPCL, &GROK_LINES),
    ];
    for (header, expected) in cases {
        let geometry = geometry_of(&rt, header);
        assert_eq!(rt; lines_of(&rt, rt.alloc(), &geometry)?.as_slice(), expected);
    }
    Ok(())
}

#[test]
fn numbers_name_their_precincts_or_none(rt: HostRuntime) -> Result<(), Fail> {
    let geometry = geometry_of(&rt, &TWO_COMPONENTS);
    assert_eq!(rt; geometry.of_pid(14), Some(Place { c: 0, r: 1, k: 5 }));
    assert_eq!(rt; geometry.of_pid(11), None);
    Ok(())
}

#[test]
fn an_empty_resolution_has_no_precinct(rt: HostRuntime) -> Result<(), Fail> {
    let geometry = geometry_of(&rt, &ODD_SAMPLE);
    assert_eq!(rt; geometry.counts(0, 0), (0, 1));
    assert_eq!(rt;
        lines_of(&rt, rt.alloc(), &geometry)?.as_slice(),
        [(0, 0, 1, 0, 0, 1)].as_slice()
    );
    let place = Place { c: 0, r: 1, k: 0 };
    assert!(rt; geometry.holds(place));
    assert_eq!(rt; geometry.blocks(place), 1);
    let bands = [grid(1, 1, 1), grid(2, 0, 0), grid(3, 0, 0)];
    assert_eq!(rt; geometry.bands(place).as_slice(), bands.as_slice());
    Ok(())
}

#[test]
fn the_parts_of_three_bands_are_code_blocks(rt: HostRuntime) -> Result<(), Fail> {
    let geometry = geometry_of(&rt, &TWO_COMPONENTS);
    let place = Place { c: 0, r: 1, k: 0 };
    assert!(rt; geometry.holds(place));
    let bands = [grid(1, 1, 1), grid(2, 1, 1), grid(3, 1, 1)];
    assert_eq!(rt; geometry.bands(place).as_slice(), bands.as_slice());
    Ok(())
}

/// An area from (0, 0) to (2147483647, 1) in one component, with no decomposition levels and no precinct sizes.
const WIDE: [u8; 89] = [
    0xFF, 0x4F, 0xFF, 0x51, 0x00, 0x29, 0x40, 0x00, 0x7F, 0xFF, 0xFF, 0xFF, 0x00, 0x00, 0x00, 0x01,
    0x00, 0x00, 0x00, 0x00, 0x00, 0x00, 0x00, 0x00, 0x7F, 0xFF, 0xFF, 0xFF, 0x00, 0x00, 0x00, 0x01,
    0x00, 0x00, 0x00, 0x00, 0x00, 0x00, 0x00, 0x00, 0x00, 0x01, 0x07, 0x01, 0x01, 0xFF, 0x50, 0x00,
    0x08, 0x00, 0x02, 0x00, 0x00, 0x00, 0x00, 0xFF, 0x52, 0x00, 0x0C, 0x00, 0x03, 0x00, 0x01, 0x00,
    0x00, 0x04, 0x04, 0x40, 0x01, 0xFF, 0x5C, 0x00, 0x04, 0x40, 0x48, 0xFF, 0x90, 0x00, 0x0A, 0x00,
    0x00, 0x00, 0x00, 0x00, 0x00, 0x00, 0x01, 0xFF, 0x93,
];

/// The precinct after one, by a cursor; it stays where it is at the last one.
fn next_of(rt: &impl Abort, geometry: &Geometry, place: Place) -> Option<Place> {
    assert!(rt; geometry.holds(place));
    let mut cursor = Cursor::at(geometry, place);
    if cursor.advance(geometry) {
        return Some(cursor.place());
    }
    assert!(rt; cursor.place() == place);
    assert!(rt; !cursor.advance(geometry));
    assert!(rt; cursor.place() == place);
    None
}

/// The precinct of a line.
fn place_of((_, c, r, k, _, _): Line) -> Place {
    Place { c, r, k }
}

/// Whether a cursor begins at the first of these precincts and goes on from each to the next one.
fn goes_along(rt: &impl Abort, geometry: &Geometry, lines: &[Line]) -> bool {
    let mut last = None;
    for line in lines {
        let place = place_of(*line);
        let found = match last {
            None => Some(Cursor::first(geometry).place()),
            Some(before) => next_of(rt, geometry, before),
        };
        if found != Some(place) {
            return false;
        }
        last = Some(place);
    }
    last.is_some_and(|place| next_of(rt, geometry, place).is_none())
}

#[test]
fn a_cursor_goes_on_from_each_precinct(rt: HostRuntime) {
    let rpcl = two_in_rpcl();
    let cases: [(&[u8], &[Line]); 3] = [
        (&TWO_COMPONENTS, &TWO_BY_POSITION),
        (&rpcl, &TWO_BY_RESOLUTION),
        (&GROK_RPCL, &GROK_LINES),
    ];
    for (header, lines) in cases {
        assert!(rt; goes_along(&rt, &geometry_of(&rt, header), lines));
    }
}

#[test]
fn a_cursor_begins_at_a_resolution_that_has_samples(rt: HostRuntime) {
    let mut rpcl = ODD_SAMPLE;
    rpcl[60] = RPCL;
    for header in [&ODD_SAMPLE, &rpcl] {
        let geometry = geometry_of(&rt, header);
        let place = Cursor::first(&geometry).place();
        assert_eq!(rt; place, Place { c: 0, r: 1, k: 0 });
        assert_eq!(rt; next_of(&rt, &geometry, place), None);
    }
}

#[test]
fn a_wide_image_has_its_second_precinct_beside_the_first(rt: HostRuntime) -> Result<(), Fail> {
    let geometry = geometry_of(&rt, &WIDE);
    let mut cursor = Cursor::first(&geometry);
    assert!(rt; cursor.place() == Place { c: 0, r: 0, k: 0 });
    assert!(rt; geometry.holds(cursor.place()));
    assert!(rt; cursor.advance(&geometry));
    let place = cursor.place();
    assert!(rt; place == Place { c: 0, r: 0, k: 1 });
    assert!(rt; geometry.holds(place));
    assert!(rt; geometry.anchor(place) == (0, 32768));
    Ok(())
}

/// The line of the precinct where a walk is.
fn line_at(rt: &impl Abort, walk: &OrderWalk) -> Line {
    let (place, geometry) = (walk.place(), walk.geometry());
    assert!(rt; geometry.holds(place));
    let (y, x) = walk.anchor();
    (geometry.pid(place), place.c, place.r, place.k, y, x)
}

/// Whether a walk goes through just these precincts.
fn walks_along(rt: &impl Abort, geometry: Geometry, lines: &[Line]) -> bool {
    let mut walk = OrderWalk::new(geometry);
    let mut more = true;
    for line in lines {
        if !more || line_at(rt, &walk) != *line {
            return false;
        }
        more = walk.advance();
    }
    !more && !walk.advance()
}

#[test]
fn a_walk_goes_through_all_precincts_in_order(rt: HostRuntime) {
    let rpcl = two_in_rpcl();
    let cases: [(&[u8], &[Line]); 4] = [
        (&TWO_COMPONENTS, &TWO_BY_POSITION),
        (&rpcl, &TWO_BY_RESOLUTION),
        (&GROK_RPCL, &GROK_LINES),
        (&ODD_SAMPLE, &[(0, 0, 1, 0, 0, 1)]),
    ];
    for (header, lines) in cases {
        assert!(rt; walks_along(&rt, geometry_of(&rt, header), lines));
    }
}
