//! Objects in memory, call by call.
use super::*;
use std::test::Fail;

mod wires;

#[test]
fn a_duct_tells_until_a_record_passes_its_room(rt: HostRuntime) -> Result<(), Fail> {
    let mut duct = DuctMem::new(rt.alloc(), &[], &[], &[], &[], 2)?;
    assert_eq!(rt; duct.write(&[7, 8]), WriteOut::Done);
    assert!(rt; duct.told());
    assert_eq!(rt; duct.write(&[9]), WriteOut::Done);
    assert!(rt; !duct.told());
    assert_eq!(rt; duct.written(), [7, 8].as_slice());

    let mut duct = DuctMem::new(rt.alloc(), &[], &[], &[], &[], 2)?;
    duct.note(&[7]);
    assert!(rt; duct.told());
    duct.note(&[8, 9]);
    assert!(rt; !duct.told());
    assert_eq!(rt; duct.noted(), [7].as_slice());

    let mut duct = DuctMem::new(rt.alloc(), &[], &[], &[], &[], 2)?;
    for told in [true, true, false] {
        assert_eq!(rt; duct.read(&mut [0; 4]), ReadOut::End);
        assert_eq!(rt; duct.told(), told);
    }
    Ok(())
}

#[test]
fn reads_give_their_chunks_and_then_as_many_as_fit(rt: HostRuntime) -> Result<(), Fail> {
    let input = [1, 2, 3, 4, 5, 6, 7, 8, 9, 10];
    let mut duct = DuctMem::new(rt.alloc(), &input, &[1, 2], &[1], &[], 8)?;
    let wanted = [
        (ReadOut::Got(1), [1, 0, 0, 0]),
        (ReadOut::Failed, [0, 0, 0, 0]),
        (ReadOut::Got(4), [2, 3, 4, 5]),
        (ReadOut::Got(4), [6, 7, 8, 9]),
        (ReadOut::Got(1), [10, 0, 0, 0]),
        (ReadOut::End, [0, 0, 0, 0]),
        (ReadOut::End, [0, 0, 0, 0]),
    ];
    for (answer, bytes) in wanted {
        let mut buf = [0u8; 4];
        assert_eq!(rt; duct.read(&mut buf), answer);
        assert_eq!(rt; buf, bytes);
    }
    assert!(rt; duct.told());
    Ok(())
}

#[test]
fn a_listed_write_keeps_none_of_its_bytes(rt: HostRuntime) -> Result<(), Fail> {
    let mut duct = DuctMem::new(rt.alloc(), &[], &[], &[0], &[1], 8)?;
    assert_eq!(rt; duct.write(&[1, 2]), WriteOut::Done);
    assert_eq!(rt; duct.write(&[3]), WriteOut::Failed);
    assert_eq!(rt; duct.write(&[4]), WriteOut::Done);
    duct.note(&[5]);
    assert_eq!(rt; duct.written(), [1, 2, 4].as_slice());
    assert_eq!(rt; duct.noted(), [5].as_slice());
    assert!(rt; duct.told());
    Ok(())
}

#[test]
fn a_duct_that_never_fails_gives_and_keeps_the_same(rt: HostRuntime) -> Result<(), Fail> {
    let mut duct = NeverFails::new(rt.alloc(), &[1, 2, 3], &[2], 8)?;
    let wanted = [
        (ReadOut::Got(2), [1, 2, 0]),
        (ReadOut::Got(1), [3, 0, 0]),
        (ReadOut::End, [0, 0, 0]),
    ];
    for (answer, bytes) in wanted {
        let mut buf = [0u8; 3];
        assert_eq!(rt; duct.read(&mut buf), answer);
        assert_eq!(rt; buf, bytes);
    }
    assert_eq!(rt; duct.write(&[4, 5]), WriteOut::Done);
    duct.note(&[6]);
    assert_eq!(rt; duct.written(), [4, 5].as_slice());
    assert_eq!(rt; duct.noted(), [6].as_slice());
    assert!(rt; duct.told());
    Ok(())
}
