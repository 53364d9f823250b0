//! The lines that show the values of a main header.
ghost use Rattle.std.specs.Prelude.{◌≡◌, ◌≤◌, ◌+◌, ◌*◌, ◌++◌, length};
ghost use Rattle.std.specs.List.{flat_map, range_with_len};
ghost use Rattle.scl_cli.specs.HeadLines.{line, area_line, component_line, precinct_line, order_line, head_lines};

use arrayvec::ArrayString;
use j2k_markers::{Head, RPCL};
use scl_run::push_number;

/// Lines of a main header: one of its area, five with two numbers at most each, and two times sixteen with three.
type Lines = ArrayString<4096>;

/// Puts a line after the lines: a word, and numbers with a blank before each.
fn push_line(lines: &mut Lines, word: &str, numbers: &[u32])
    requires { length lines.old.bytes + length word.now + 21 * length numbers.now + 1 ≤ 4096 }
    ensures text { lines.new.bytes ≡ lines.old.bytes ++ line word.now numbers.now }
    ensures size { length lines.new.bytes ≤ length lines.old.bytes + length word.now + 21 * length numbers.now + 1 }
{
    lines.push_str(word);
    for n in numbers {
        push_number(lines, " ", u64::from(*n));
    }
    lines.push_str("\n");
}

/// Puts the line of the image's area after the lines.
fn push_area(lines: &mut Lines, head: &Head)
    requires { length lines.old.bytes ≤ 100 }
    ensures text { lines.new.bytes ≡ lines.old.bytes ++ area_line head.now }
    ensures size { length lines.new.bytes ≤ length lines.old.bytes + 110 }
{
    let (x0, y0, x1, y1) = head.area();
    push_number(lines, "AREA x0=", u64::from(x0));
    push_number(lines, " y0=", u64::from(y0));
    push_number(lines, " x1=", u64::from(x1));
    push_number(lines, " y1=", u64::from(y1));
    lines.push_str("\n");
}

/// Puts the line of the packet order after the lines, where it is RPCL.
fn push_order(lines: &mut Lines, head: &Head)
    requires { length lines.old.bytes ≤ 200 }
    ensures text { lines.new.bytes ≡ lines.old.bytes ++ order_line head.now }
    ensures size { length lines.new.bytes ≤ length lines.old.bytes + 27 }
{
    if head.order() == RPCL {
        push_line(lines, "ORDER", &[u32::from(RPCL)]);
    }
}

/// Puts the lines of the components after the lines.
fn push_components(lines: &mut Lines, head: &Head)
    requires { length lines.old.bytes ≤ 300 }
    ensures text { lines.new.bytes ≡ lines.old.bytes ++ flat_map (component_line head.now) (range_with_len 0 (length head.now.steps)) }
    ensures size { length lines.new.bytes ≤ length lines.old.bytes + 1088 }
{
    for c in 0..head.components() {
        let (x, y) = head.step(c);
        push_line(lines, "COMP", &[u32::from(c), u32::from(x), u32::from(y)]);
    }
}

/// Puts the lines of the resolutions after the lines.
fn push_precincts(lines: &mut Lines, head: &Head)
    requires { length lines.old.bytes ≤ 1500 }
    ensures text { lines.new.bytes ≡ lines.old.bytes ++ flat_map (precinct_line head.now) (range_with_len 0 (head.now.levels + 1)) }
    ensures size { length lines.new.bytes ≤ length lines.old.bytes + 1088 }
{
    for r in 0..head.levels() + 1 {
        let (x, y) = head.precinct(r);
        push_line(lines, "PREC", &[u32::from(r), u32::from(x), u32::from(y)]);
    }
}

/// The lines of a main header.
pub fn lines_of(head: &Head) -> Lines
    ensures { result.bytes ≡ head_lines head.now }
{
    let mut lines = Lines::new();
    push_area(&mut lines, head);
    push_line(&mut lines, "LEVELS", &[u32::from(head.levels())]);
    push_order(&mut lines, head);
    let (x, y) = head.block();
    push_line(&mut lines, "BLOCK", &[u32::from(x), u32::from(y)]);
    push_components(&mut lines, head);
    push_precincts(&mut lines, head);
    push_line(&mut lines, "PSOT", &[head.psot()]);
    push_line(&mut lines, "LENGTH", &[head.length()]);
    lines
}
