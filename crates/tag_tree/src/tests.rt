//! Labels that were worked out by hand from the bits.
ghost use Rattle.std.specs.Prelude.{◌≡◌, ◌≤◌, length};
ghost use Rattle.stuffed_bits.specs.BitInState.{IsFree};

use super::*;
use std::alloc::{AllocError, Global};
use stuffed_bits::{BitIn, BitWriter, Full, Source, Stop};

/// Reads the bit before the first leaf.
fn first_bit(source: &mut Source<'_>) -> Result<bool, Stop>
    requires inside { source.old.at ≤ length source.old.piece.now }
    requires free { IsFree source.old.bits }
    ensures inside { source.new.at ≤ length source.new.piece.now }
    ensures free { IsFree source.new.bits }
    ensures piece { source.new.piece.now ≡ source.old.piece.now }
{
    source.bits.bit(source.piece, &mut source.at)
}

/// A stop where a further piece is needed.
const NEED: Result<u8, LabelStop> = Err(LabelStop::Need);

#[test]
fn the_standards_example_is_read(rt: HostRuntime) -> Result<(), AllocError> {
    // T.800 B.10.2: of 6 columns and 3 rows the first three leaves are 1, 3 and 2, with the bits
    // 01111, 001 and 101.
    let mut tree = Tree::reserve(rt.alloc(), 18)?;
    tree.reset(6, 3);
    let mut source = Source::new(&[0x79, 0xA0], BitIn::new());
    assert_eq!(rt; tree.read_value(0, 0, &mut source), Ok(1));
    assert_eq!(rt; tree.read_value(1, 0, &mut source), Ok(3));
    assert_eq!(rt; source.at, 1);
    assert_eq!(rt; tree.read_value(2, 0, &mut source), Ok(2));
    assert_eq!(rt; tree.read_value(1, 0, &mut source), Ok(3));
    assert_eq!(rt; tree.read_value(5, 2, &mut source), NEED);
    Ok(())
}

#[test]
fn the_second_of_two_leaves_is_included(rt: HostRuntime) -> Result<(), AllocError> {
    // D620 has the bits 1; 1, 0, 1 for inclusion, with the value's 01, 1 after the second leaf's.
    let mut inclusion = Tree::reserve(rt.alloc(), 2)?;
    let mut planes = Tree::reserve(rt.alloc(), 2)?;
    inclusion.reset(2, 1);
    planes.reset(2, 1);
    let mut source = Source::new(&[0xD6, 0x20], BitIn::new());
    assert_eq!(rt; first_bit(&mut source), Ok(true));
    assert_eq!(rt; inclusion.read_inclusion(0, 0, &mut source), Ok(1));
    assert_eq!(rt; inclusion.read_inclusion(1, 0, &mut source), Ok(0));
    assert_eq!(rt; planes.read_value(1, 0, &mut source), Ok(1));
    Ok(())
}

#[test]
fn labels_end_at_74(rt: HostRuntime) -> Result<(), AllocError> {
    let mut tree = Tree::reserve(rt.alloc(), 1)?;
    tree.reset(1, 1);
    let mut source = Source::new(&[0, 0, 0, 0, 0, 0, 0, 0, 0, 0x20], BitIn::new());
    assert_eq!(rt; tree.read_value(0, 0, &mut source), Ok(74));
    tree.reset(1, 1);
    let mut greater = Source::new(&[0, 0, 0, 0, 0, 0, 0, 0, 0, 0x10], BitIn::new());
    assert_eq!(rt;
        tree.read_value(0, 0, &mut greater),
        Err(LabelStop::TooGreat)
    );
    Ok(())
}

/// What is read of a tree of one leaf of these bytes, which are cut into two pieces, and how many
/// bytes of the second piece are taken; `None` where the first piece doesn't end before the label.
fn read_in_two(alloc: Global, bytes: &[u8], cut: usize) -> Result<Option<(u8, usize)>, AllocError>
    requires { cut ≤ length bytes.now }
{
    let mut tree = Tree::reserve(alloc, 1)?;
    tree.reset(1, 1);
    let mut first = Source::new(&bytes[..cut], BitIn::new());
    let Err(LabelStop::Need) = tree.read_value(0, 0, &mut first) else {
        return Ok(None);
    };
    let mut second = Source::new(&bytes[cut..], first.bits);
    Ok(match tree.read_value(0, 0, &mut second) {
        Ok(label) => Some((label, second.at)),
        Err(_) => None,
    })
}

#[test]
fn a_label_is_cut_at_each_byte(rt: HostRuntime) -> Result<(), AllocError> {
    // 74 zeros and a one, in ten bytes.
    let bytes = [0u8, 0, 0, 0, 0, 0, 0, 0, 0, 0x20, 0xFF];
    for cut in 0..10 {
        assert_eq!(rt;
            read_in_two(rt.alloc(), &bytes, cut)?,
            Some((74, 10 - cut)),
            "at {cut}"
        );
    }
    Ok(())
}

#[test]
fn an_inclusion_is_read_piece_by_piece(rt: HostRuntime) -> Result<(), AllocError> {
    // After a bit 1: 1110, 1, 0, none, and 110, of which the second piece has the last two.
    let mut tree = Tree::reserve(rt.alloc(), 15)?;
    tree.reset(5, 3);
    let mut source = Source::new(&[0xF5], BitIn::new());
    assert_eq!(rt; first_bit(&mut source), Ok(true));
    assert_eq!(rt; tree.read_inclusion(0, 0, &mut source), Ok(1));
    assert_eq!(rt; tree.read_inclusion(1, 0, &mut source), Ok(0));
    assert_eq!(rt; tree.read_inclusion(2, 0, &mut source), Ok(1));
    assert_eq!(rt; tree.read_inclusion(4, 0, &mut source), NEED);
    assert_eq!(rt; source.at, 1);
    let mut further = Source::new(&[0x8E], source.bits);
    assert_eq!(rt; tree.read_inclusion(4, 0, &mut further), Ok(1));
    assert_eq!(rt; further.at, 1);
    Ok(())
}

#[test]
fn a_stuffed_byte_gives_no_label(rt: HostRuntime) -> Result<(), AllocError> {
    let mut tree = Tree::reserve(rt.alloc(), 65536)?;
    tree.reset(256, 256);
    let mut source = Source::new(&[0xFF, 0x80], BitIn::new());
    let stuffed = Err(LabelStop::Stuffed);
    assert_eq!(rt; tree.read_inclusion(255, 255, &mut source), stuffed);
    assert_eq!(rt; source.at, 1);
    Ok(())
}

/// The leaf values of the standard's example (T.800 B.10.2), row by row.
const EXAMPLE: [u8; 18] = [1, 3, 2, 3, 2, 3, 2, 2, 1, 4, 3, 2, 2, 2, 2, 2, 1, 2];

#[test]
fn the_standards_example_is_written(rt: HostRuntime) -> Result<(), AllocError> {
    // The first three leaves have the bits 01111, 001 and 101.
    let mut tree = Tree::reserve(rt.alloc(), 18)?;
    tree.reset(6, 3);
    tree.fill(&EXAMPLE);
    let mut bits = BitWriter::new();
    let mut buf = [0x55u8; 3];
    assert_eq!(rt; tree.write_value(0, 0, &mut bits, &mut buf), Ok(()));
    assert_eq!(rt; tree.write_value(1, 0, &mut bits, &mut buf), Ok(()));
    assert_eq!(rt; buf, [0x79, 0x55, 0x55]);
    assert_eq!(rt; tree.write_value(1, 0, &mut bits, &mut buf), Ok(()));
    assert_eq!(rt; tree.write_value(2, 0, &mut bits, &mut buf), Ok(()));
    assert_eq!(rt; buf, [0x79, 0xA0, 0x55]);
    Ok(())
}

#[test]
fn a_leaf_that_reaches_past_the_buffer_is_full(rt: HostRuntime) -> Result<(), AllocError> {
    let mut tree = Tree::reserve(rt.alloc(), 18)?;
    tree.reset(6, 3);
    tree.fill(&EXAMPLE);
    let mut bits = BitWriter::new();
    let mut buf = [0x55u8];
    assert_eq!(rt; tree.write_value(0, 0, &mut bits, &mut buf), Ok(()));
    assert_eq!(rt; tree.write_value(1, 0, &mut bits, &mut buf), Ok(()));
    assert_eq!(rt; tree.write_value(2, 0, &mut bits, &mut buf), Err(Full));
    Ok(())
}

/// The leaves of an inclusion tree of 5 columns and 3 rows, row by row: three code-blocks are included.
const INCLUDED: [u8; 15] = [1, 0, 1, 1, 1, 1, 1, 1, 1, 0, 0, 1, 1, 1, 1];

#[test]
fn an_inclusion_tree_is_written_and_read_back(rt: HostRuntime) -> Result<(), AllocError> {
    // After a bit 1, leaf by leaf: 1110, 1, 0, none, 110; 0, 0, none, none, 1; 11, 0, 0, none, 0.
    let mut tree = Tree::reserve(rt.alloc(), 15)?;
    tree.reset(5, 3);
    tree.fill(&INCLUDED);
    let mut bits = BitWriter::new();
    let mut buf = [0x55u8; 4];
    assert_eq!(rt; bits.put(true, &mut buf), Ok(()));
    for leaf in 0..15u32 {
        assert_eq!(rt;
            tree.write_inclusion(leaf % 5, leaf / 5, &mut bits, &mut buf),
            Ok(())
        );
    }
    assert_eq!(rt; buf, [0xF5, 0x8E, 0x00, 0x55]);
    tree.reset(5, 3);
    let mut source = Source::new(&buf, BitIn::new());
    assert_eq!(rt; first_bit(&mut source), Ok(true));
    for (leaf, label) in INCLUDED.iter().enumerate() {
        let leaf = leaf as u32;
        assert_eq!(rt;
            tree.read_inclusion(leaf % 5, leaf / 5, &mut source),
            Ok(*label)
        );
    }
    assert_eq!(rt; source.at, 3);
    Ok(())
}
