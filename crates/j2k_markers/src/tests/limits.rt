//! The least and the greatest values that are taken.
use super::headers::ONE_PIXEL;
use super::{ONE_PIXEL_VALUES, Values, changed, says, taken};
use std::alloc::AllocError;

#[test]
fn the_least_and_the_greatest_values_are_taken(rt: HostRuntime) -> Result<(), AllocError> {
    let cases = [
        (taken(6, 8, &[0xFF, 0xFF]), ONE_PIXEL_VALUES),
        (
            taken(
                8,
                32,
                &[
                    0x7F, 0xFF, 0xFF, 0xFF, 0, 0, 0, 1, 0, 0, 0, 0, 0, 0, 0, 0, 0x7F, 0xFF, 0xFF,
                    0xFF, 0, 0, 0, 1,
                ],
            ),
            Values {
                area: (0, 0, 2147483647, 1),
                ..ONE_PIXEL_VALUES
            },
        ),
        // the greatest height, and the last place of the greatest image alone
        (
            taken(
                12,
                32,
                &[
                    0x7F, 0xFF, 0xFF, 0xFF, 0, 0, 0, 0, 0, 0, 0, 0, 0, 0, 0, 1, 0x7F, 0xFF, 0xFF,
                    0xFF,
                ],
            ),
            Values {
                area: (0, 0, 1, 2147483647),
                ..ONE_PIXEL_VALUES
            },
        ),
        (
            taken(
                8,
                40,
                &[
                    0x7F, 0xFF, 0xFF, 0xFF, 0x7F, 0xFF, 0xFF, 0xFF, 0x7F, 0xFF, 0xFF, 0xFE, 0x7F,
                    0xFF, 0xFF, 0xFE, 0, 0, 0, 1, 0, 0, 0, 1, 0x7F, 0xFF, 0xFF, 0xFE, 0x7F, 0xFF,
                    0xFF, 0xFE,
                ],
            ),
            Values {
                area: (2147483646, 2147483646, 2147483647, 2147483647),
                ..ONE_PIXEL_VALUES
            },
        ),
        // the most components
        (
            taken(
                4,
                45,
                &[
                    0, 0x56, 0x40, 0, 0, 0, 0, 1, 0, 0, 0, 1, 0, 0, 0, 0, 0, 0, 0, 0, 0, 0, 0, 1,
                    0, 0, 0, 1, 0, 0, 0, 0, 0, 0, 0, 0, 0, 0x10, 7, 1, 1, 7, 1, 1, 7, 1, 1, 7, 1,
                    1, 7, 1, 1, 7, 1, 1, 7, 1, 1, 7, 1, 1, 7, 1, 1, 7, 1, 1, 7, 1, 1, 7, 1, 1, 7,
                    1, 1, 7, 1, 1, 7, 1, 1, 7, 1, 1,
                ],
            ),
            Values {
                steps: &[(1, 1); 16],
                sot: 120,
                length: 134,
                ..ONE_PIXEL_VALUES
            },
        ),
        (
            taken(43, 45, &[0xFF, 0xFF]),
            Values {
                steps: &[(255, 255)],
                ..ONE_PIXEL_VALUES
            },
        ),
        (taken(53, 55, &[0x1F, 0xFF]), ONE_PIXEL_VALUES),
        (taken(53, 55, &[0, 0]), ONE_PIXEL_VALUES),
        (
            taken(
                64,
                75,
                &[
                    0x0F, 4, 4, 0x40, 1, 0xFF, 0x5C, 0, 0x31, 0x40, 0x48, 0x48, 0x48, 0x48, 0x48,
                    0x48, 0x48, 0x48, 0x48, 0x48, 0x48, 0x48, 0x48, 0x48, 0x48, 0x48, 0x48, 0x48,
                    0x48, 0x48, 0x48, 0x48, 0x48, 0x48, 0x48, 0x48, 0x48, 0x48, 0x48, 0x48, 0x48,
                    0x48, 0x48, 0x48, 0x48, 0x48, 0x48, 0x48, 0x48, 0x48, 0x48, 0x48, 0x48, 0x48,
                    0x48, 0x48,
                ],
            ),
            Values {
                levels: 15,
                precincts: &[(15, 15); 16],
                sot: 120,
                length: 134,
                ..ONE_PIXEL_VALUES
            },
        ),
        // precincts of 1 by 1 and of 2^15 by 2^15 at resolution 0, and of 2 by 2 and of 2^15 by 2^15 above it
        (
            taken(
                57,
                75,
                &[
                    0, 0x0E, 1, 3, 0, 1, 0, 1, 4, 4, 0x40, 1, 0, 0x11, 0xFF, 0x5C, 0, 7, 0x40,
                    0x48, 0x48, 0x48, 0x48,
                ],
            ),
            Values {
                levels: 1,
                precincts: &[(0, 0), (1, 1)],
                sot: 80,
                length: 94,
                ..ONE_PIXEL_VALUES
            },
        ),
        (
            taken(
                57,
                75,
                &[
                    0, 0x0E, 1, 3, 0, 1, 0, 1, 4, 4, 0x40, 1, 0xFF, 0xFF, 0xFF, 0x5C, 0, 7, 0x40,
                    0x48, 0x48, 0x48, 0x48,
                ],
            ),
            Values {
                levels: 1,
                precincts: &[(15, 15), (15, 15)],
                sot: 80,
                length: 94,
                ..ONE_PIXEL_VALUES
            },
        ),
        (
            taken(65, 67, &[8, 0]),
            Values {
                block: (10, 2),
                ..ONE_PIXEL_VALUES
            },
        ),
        (
            taken(65, 67, &[0, 8]),
            Values {
                block: (2, 10),
                ..ONE_PIXEL_VALUES
            },
        ),
        (
            taken(65, 67, &[0, 0]),
            Values {
                block: (2, 2),
                ..ONE_PIXEL_VALUES
            },
        ),
        (taken(67, 68, &[0x48]), ONE_PIXEL_VALUES),
        (
            taken(71, 75, &[0, 5, 0x41, 0x48, 0x48]),
            Values {
                sot: 76,
                length: 90,
                ..ONE_PIXEL_VALUES
            },
        ),
        (
            taken(71, 75, &[0, 5, 0x42, 0x48, 0x48]),
            Values {
                sot: 76,
                length: 90,
                ..ONE_PIXEL_VALUES
            },
        ),
        (
            taken(81, 85, &[0xFF, 0xFF, 0xFF, 0xFF]),
            Values {
                psot: 4294967295,
                ..ONE_PIXEL_VALUES
            },
        ),
        (taken(86, 87, &[0]), ONE_PIXEL_VALUES),
    ];
    for (row, (change, values)) in cases.iter().enumerate() {
        let bytes = changed(rt.alloc(), &ONE_PIXEL, change)?;
        assert!(rt; says(&bytes, values), "in row {row}");
    }
    Ok(())
}
