//! Two faults in one header: the refusal is the one that comes first in the order of judging.
use super::headers::ONE_PIXEL;
use super::{Change, changed, million, refused, taken};
use crate::{HeadFault, HeadWhy, read_head};
use std::alloc::{AllocError, Global};

/// The header with both changes, which are to bytes apart from one another.
fn changed_twice(
    alloc: Global,
    header: &[u8],
    one: &Change,
    other: &Change,
) -> Result<Vec<u8>, AllocError> {
    let (low, high) = if one.from < other.from {
        (one, other)
    } else {
        (other, one)
    };
    let changed_behind = changed(alloc, header, high)?;
    changed(alloc, &changed_behind, low)
}

/// Counts the faults that can be beside this one and leave its refusal the answer; none where one doesn't.
fn kept_beside(
    alloc: Global,
    header: &[u8],
    (change, fault): &(Change, HeadFault),
    later: &[(Change, HeadFault)],
) -> Result<Option<u32>, AllocError> {
    let mut kept: u32 = 0;
    for (other, _) in later {
        if change.to <= other.from || other.to <= change.from {
            let bytes = changed_twice(alloc, header, change, other)?;
            if read_head(&bytes).err() != Some(*fault) {
                return Ok(None);
            }
            kept = kept.saturating_add(1);
        }
    }
    Ok(Some(kept))
}

/// Counts the pairs of faults, given in the order of judging, whose first is the answer; none where it isn't once.
fn pairs_kept(
    alloc: Global,
    header: &[u8],
    faults: &[(Change, HeadFault)],
) -> Result<Option<u32>, AllocError> {
    let mut kept: u32 = 0;
    for (row, fault) in faults.iter().enumerate() {
        match kept_beside(alloc, header, fault, &faults[row + 1..])? {
            Some(count) => kept = kept.saturating_add(count),
            None => return Ok(None),
        }
    }
    Ok(Some(kept))
}

#[test]
fn of_two_faults_in_siz_the_first_is_the_answer(rt: HostRuntime) -> Result<(), AllocError> {
    // the pixel is at y = 1, so that a step of 2 leaves its component empty
    let lower = taken(
        12,
        32,
        &[0, 0, 0, 2, 0, 0, 0, 0, 0, 0, 0, 1, 0, 0, 0, 1, 0, 0, 0, 2],
    );
    let header = changed(rt.alloc(), &ONE_PIXEL, &lower)?;
    assert!(rt; read_head(&header).is_ok());
    let faults = [
        refused(40, 42, &[0, 0], 2, HeadWhy::Components),
        refused(4, 6, &[0, 42], 2, HeadWhy::Length),
        refused(6, 8, &[0, 0], 2, HeadWhy::Rsiz),
        refused(8, 12, &[0x80, 0, 0, 0], 2, HeadWhy::Area),
        refused(32, 36, &[0, 0, 0, 1], 2, HeadWhy::Tiles),
        refused(43, 44, &[0], 2, HeadWhy::Step),
        refused(44, 45, &[2], 2, HeadWhy::Area),
    ];
    assert_eq!(rt; pairs_kept(rt.alloc(), &header, &faults)?, Some(21));
    Ok(())
}

#[test]
fn of_two_faults_in_cap_the_first_is_the_answer(rt: HostRuntime) -> Result<(), AllocError> {
    let faults = [
        refused(49, 53, &[0, 2, 0, 1], 45, HeadWhy::Cap),
        refused(47, 49, &[0, 9], 45, HeadWhy::Length),
        refused(53, 55, &[0x20, 0], 45, HeadWhy::Cap),
    ];
    assert_eq!(rt; pairs_kept(rt.alloc(), &ONE_PIXEL, &faults)?, Some(3));
    Ok(())
}

/// N_L 1, precincts of 2 by 2 at both resolutions, and as many step values as that takes.
const ONE_LEVEL: Change = Change {
    from: 57,
    to: 75,
    put: &[
        0, 14, 1, 3, 0, 1, 0, 1, 4, 4, 0x40, 1, 0x11, 0x11, 0xFF, 0x5C, 0, 7, 0x40, 0x48, 0x48,
        0x48, 0x48,
    ],
};

#[test]
fn of_two_faults_in_cod_the_first_is_the_answer(rt: HostRuntime) -> Result<(), AllocError> {
    let header = changed(rt.alloc(), &ONE_PIXEL, &ONE_LEVEL)?;
    assert!(rt; read_head(&header).is_ok());
    let faults = [
        refused(59, 60, &[9], 55, HeadWhy::Style),
        refused(59, 60, &[3], 55, HeadWhy::Sop),
        refused(60, 61, &[1], 55, HeadWhy::Order),
        refused(61, 63, &[0, 2], 55, HeadWhy::Layers),
        refused(64, 65, &[16], 55, HeadWhy::Levels),
        refused(57, 59, &[0, 15], 55, HeadWhy::Length),
        refused(65, 66, &[9], 55, HeadWhy::Blocks),
        refused(67, 68, &[0], 55, HeadWhy::Style),
        refused(70, 71, &[0x10], 55, HeadWhy::Precinct),
    ];
    // the first two are of one byte: their pair is the next table's
    assert_eq!(rt; pairs_kept(rt.alloc(), &header, &faults)?, Some(35));
    let in_one_byte = [
        (11, HeadWhy::Style),
        (13, HeadWhy::Style),
        (7, HeadWhy::Sop),
    ];
    for (style, why) in in_one_byte {
        let mut bytes = changed(rt.alloc(), &ONE_PIXEL, &ONE_LEVEL)?;
        if let Some(byte) = bytes.get_mut(59) {
            *byte = style;
        }
        assert_eq!(rt; read_head(&bytes).err(), Some(HeadFault { at: 55, why }));
    }
    Ok(())
}

#[test]
fn of_two_faults_at_sot_the_first_is_the_answer(rt: HostRuntime) -> Result<(), AllocError> {
    let faults = [
        refused(77, 79, &[0, 11], 75, HeadWhy::Length),
        refused(79, 81, &[0, 1], 75, HeadWhy::TileHeader),
        refused(85, 86, &[1], 75, HeadWhy::TileHeader),
        refused(86, 87, &[2], 75, HeadWhy::TileHeader),
        refused(73, 74, &[0x42], 69, HeadWhy::Quant),
    ];
    assert_eq!(rt; pairs_kept(rt.alloc(), &ONE_PIXEL, &faults)?, Some(10));
    // precincts of 1 by 1 in two components of 1,024 by 1,024: numbers of 2^20 and more
    let header = million(rt.alloc(), 2)?;
    let beside_ids = [
        refused(81, 83, &[0, 11], 79, HeadWhy::Length),
        refused(83, 85, &[0, 1], 79, HeadWhy::TileHeader),
        refused(77, 78, &[0x42], 73, HeadWhy::Quant),
    ];
    for (change, fault) in &beside_ids {
        let bytes = changed(rt.alloc(), &header, change)?;
        assert_eq!(rt; read_head(&bytes).err(), Some(*fault));
    }
    Ok(())
}

/// Bytes of the header of one pixel up to a place, others after them, and the refusal.
type Ending = (usize, &'static [u8], u32, HeadWhy);

#[test]
fn a_segment_is_judged_before_more_of_it_is_wanted(rt: HostRuntime) -> Result<(), AllocError> {
    let cases: [Ending; 25] = [
        (0, &[0, 0, 0, 0], 0, HeadWhy::NoSoc),
        (0, &[0xFF, 0x4E], 0, HeadWhy::NoSoc),
        (2, &[0xFF, 0x53], 2, HeadWhy::NoSiz),
        (2, &[0xFF, 0x53, 0, 1], 2, HeadWhy::NoSiz),
        (75, &[0xFF], 76, HeadWhy::Cut),
        (75, &[0xFF, 0x53], 75, HeadWhy::Marker(0xFF53)),
        (75, &[0xFF, 0x53, 0, 1], 75, HeadWhy::Marker(0xFF53)),
        (75, &[0xFF, 0x53, 0, 5], 75, HeadWhy::Marker(0xFF53)),
        (75, &[0xFF, 0x52], 75, HeadWhy::Twice(0xFF52)),
        (75, &[0xFF, 0x52, 0, 1], 75, HeadWhy::Twice(0xFF52)),
        (75, &[0xFF, 0x5C, 0, 4], 75, HeadWhy::Twice(0xFF5C)),
        (69, &[0xFF, 0x90], 69, HeadWhy::Missing(0xFF5C)),
        (69, &[0xFF, 0x90, 0, 9], 69, HeadWhy::Missing(0xFF5C)),
        (55, &[0xFF, 0x90, 0, 9], 55, HeadWhy::Missing(0xFF52)),
        (45, &[0xFF, 0x90, 0, 9], 45, HeadWhy::Missing(0xFF50)),
        (75, &[0xFF, 0x50], 75, HeadWhy::Twice(0xFF50)),
        (2, &[0xFF, 0x51, 0, 40], 2, HeadWhy::Length),
        (45, &[0xFF, 0x50, 0, 5], 45, HeadWhy::Length),
        (55, &[0xFF, 0x52, 0, 11], 55, HeadWhy::Length),
        (69, &[0xFF, 0x5C, 0, 3], 69, HeadWhy::Length),
        (75, &[0xFF, 0x64, 0, 1], 75, HeadWhy::Length),
        (75, &[0xFF, 0x90, 0, 11], 75, HeadWhy::Length),
        (75, &[0xFF, 0x90, 0, 9], 75, HeadWhy::Length),
        (87, &[0xFF, 0x55], 87, HeadWhy::Marker(0xFF55)),
        (87, &[0xFF, 0x64, 0, 1], 87, HeadWhy::Length),
    ];
    for (row, (place, put, at, why)) in cases.iter().enumerate() {
        let mut bytes = Vec::new(rt.alloc());
        if let Some(front) = ONE_PIXEL.get(..*place) {
            bytes.extend_from_slice(front)?;
        }
        bytes.extend_from_slice(put)?;
        let fault = HeadFault { at: *at, why: *why };
        assert_eq!(rt; read_head(&bytes).err(), Some(fault), "in row {row}");
    }
    Ok(())
}
