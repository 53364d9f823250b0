//! The line that shows a precinct of the packet order.
ghost use Rattle.std.specs.Prelude.{◌≡◌};
ghost use Rattle.codestream_model.specs.Precincts.{IsPrecinct};
ghost use Rattle.scl_cli.specs.OrderLines.{place_line};

use arrayvec::ArrayString;
use pcrl_order::OrderWalk;
use scl_run::push_number;

/// A line of a precinct: its six numbers have at most twenty digits each.
type Line = ArrayString<160>;

/// The line of the precinct where a walk is.
pub fn line_of(walk: &OrderWalk) -> Line
    requires { IsPrecinct walk.now.head walk.now.place }
    ensures { result.bytes ≡ place_line walk.now.head walk.now.place }
{
    let place = walk.place();
    let (y, x) = walk.anchor();
    let mut line = Line::new();
    push_number(&mut line, "O pid=", u64::from(walk.geometry().pid(place)));
    push_number(&mut line, " c=", u64::from(place.c));
    push_number(&mut line, " r=", u64::from(place.r));
    push_number(&mut line, " k=", u64::from(place.k));
    push_number(&mut line, " y=", y);
    push_number(&mut line, " x=", x);
    line.push_str("\n");
    line
}
