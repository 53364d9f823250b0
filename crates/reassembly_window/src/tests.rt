//! Offers and what is handed on, worked out by hand from the rules of the window.
use super::*;
use std::alloc::Global;
use std::process::Abort;
use std::test::Fail;

/// A call of a window, and its answer.
#[derive(Clone, Copy, Debug)]
enum Call {
    Offer(u32, Offer),
    Next(Option<Slot>),
    Flush,
}

/// Makes the calls on a new window, and compares its base and the number that it holds at the end.
fn calls(
    rt: &impl Abort,
    size: u16,
    calls: &[Call],
    (base, held): (Option<u32>, u16),
    alloc: Global,
) -> Result<(), Fail> {
    assert!(rt; 1 <= size && size <= 16_384);
    let mut window = Window::new(alloc, size)?;
    for call in calls {
        match *call {
            Call::Offer(n, answer) => {
                assert!(rt; n < 0x100_0000);
                assert_eq!(rt; window.offer(n, &[]), answer, "at {call:?}");
            }
            Call::Next(answer) => assert_eq!(rt; window.next(), answer, "at {call:?}"),
            Call::Flush => window.flush(),
        }
    }
    assert_eq!(rt; window.base(), base);
    assert_eq!(rt; window.held(), held);
    Ok(())
}

#[test]
fn numbers_are_handed_on_in_order_over_the_wrap(rt: HostRuntime) -> Result<(), Fail> {
    let steps = [
        Call::Next(None),
        Call::Offer(0xFF_FFFE, Offer::Kept),
        Call::Offer(0x00_0001, Offer::Kept),
        Call::Offer(0x00_0001, Offer::Again),
        Call::Next(Some(Slot::Held(0xFF_FFFE))),
        Call::Next(None),
        Call::Offer(0xFF_FFFE, Offer::Behind),
        Call::Flush,
        Call::Next(Some(Slot::Gap(0xFF_FFFF, 2))),
        Call::Next(Some(Slot::Held(0x00_0001))),
        Call::Next(None),
    ];
    calls(&rt, 4, &steps, (Some(2), 0), rt.alloc())
}

#[test]
fn a_number_past_the_window_drains_it_first(rt: HostRuntime) -> Result<(), Fail> {
    let steps = [
        Call::Offer(0, Offer::Kept),
        Call::Next(Some(Slot::Held(0))),
        Call::Offer(1, Offer::Kept),
        Call::Next(Some(Slot::Held(1))),
        Call::Next(None),
        Call::Offer(4, Offer::Drain),
        Call::Next(Some(Slot::Gap(2, 1))),
        Call::Next(None),
        Call::Offer(4, Offer::Kept),
        Call::Next(None),
        Call::Offer(2, Offer::Behind),
        Call::Offer(3, Offer::Kept),
        Call::Next(Some(Slot::Held(3))),
        Call::Next(Some(Slot::Held(4))),
        Call::Next(None),
    ];
    calls(&rt, 2, &steps, (Some(5), 0), rt.alloc())
}

#[test]
fn half_of_all_numbers_are_ahead_of_the_base(rt: HostRuntime) -> Result<(), Fail> {
    let steps = [
        Call::Offer(4, Offer::Kept),
        Call::Next(Some(Slot::Held(4))),
        Call::Offer(8_388_613, Offer::Behind),
        Call::Offer(8_388_612, Offer::Drain),
        Call::Next(Some(Slot::Gap(5, 8_388_592))),
        Call::Next(None),
        Call::Offer(8_388_612, Offer::Kept),
        Call::Offer(5, Offer::Behind),
    ];
    calls(&rt, 16, &steps, (Some(8_388_597), 1), rt.alloc())
}

#[test]
fn a_gap_ends_before_the_first_number_that_is_held(rt: HostRuntime) -> Result<(), Fail> {
    let steps = [
        Call::Offer(10, Offer::Kept),
        Call::Next(Some(Slot::Held(10))),
        Call::Offer(13, Offer::Kept),
        Call::Offer(14, Offer::Kept),
        Call::Offer(16, Offer::Kept),
        Call::Offer(21, Offer::Drain),
        Call::Next(Some(Slot::Gap(11, 2))),
        Call::Next(Some(Slot::Held(13))),
        Call::Next(Some(Slot::Held(14))),
        Call::Next(None),
        Call::Offer(9, Offer::Behind),
        Call::Offer(21, Offer::Kept),
    ];
    calls(&rt, 8, &steps, (Some(15), 2), rt.alloc())
}

#[test]
fn the_greatest_window_holds_16384_datagrams(rt: HostRuntime) -> Result<(), Fail> {
    let mut window = Window::new(rt.alloc(), 16_384)?;
    assert_eq!(rt; window.base(), None);
    assert_eq!(rt; window.offer(0, &[7; 9_000]), Offer::Kept);
    assert_eq!(rt; window.offer(16_383, &[8]), Offer::Kept);
    assert_eq!(rt; window.offer(16_384, &[9]), Offer::Drain);
    assert_eq!(rt; window.held(), 2);
    assert_eq!(rt; window.next(), Some(Slot::Held(0)));
    Ok(())
}
