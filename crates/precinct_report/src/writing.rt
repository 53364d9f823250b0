//! Text that is gathered on a page and written where the page is full.
ghost use Rattle.std.specs.Prelude.{◌≡◌, ◌≤◌, ◌<◌, ◌+◌, ◌*◌, List, [], length};
ghost use Rattle.stream_model.specs.Report as report;
ghost use Rattle.scl_outside.specs.Events.{Event};
ghost use Rattle.scl_outside.specs.Writing.{Puts};
ghost use Rattle.precinct_report.specs.Gathering.{Gathers, HasRoomAfter};

use crate::page::Page;
use scl_outside::{Duct, PutOut, WriteOut};

/// The greatest number of bytes that are spelled at once.
const PART: usize = 1024;

/// Writes the bytes by one write.
pub fn put<D: Duct>(duct: &mut D, bytes: &[u8]) -> PutOut
    ensures { (es : List Event) × Puts bytes.now (D.meaning duct.old) (D.meaning duct.new) result es }
{
    match duct.write(bytes) {
        WriteOut::Done => PutOut::Done,
        WriteOut::Failed => PutOut::WriteFault,
    }
}

/// Makes room for this number of bytes: writes the page where they don't fit.
pub fn make_room<D: Duct>(duct: &mut D, page: &mut Page, bytes: usize) -> PutOut
    requires { bytes ≤ 4096 }
    ensures gathers { (es : List Event)
        × Gathers [] (D.meaning duct.old) (D.meaning duct.new) page.old page.new result es }
    ensures room { HasRoomAfter bytes page.new result }
{
    if page.has_room(bytes) {
        return PutOut::Done;
    }
    match put(duct, page.text()) {
        PutOut::Done => {}
        PutOut::WriteFault => return PutOut::WriteFault,
    }
    page.clear();
    PutOut::Done
}

/// Gathers bytes in hexadecimal, two lower-case digits each.
pub fn gather_hex<D: Duct>(duct: &mut D, page: &mut Page, bytes: &[u8]) -> PutOut
    ensures { (es : List Event)
        × Gathers (report.hex bytes.now) (D.meaning duct.old) (D.meaning duct.new) page.old page.new
        result es }
{
    let mut rest = bytes;
    while !rest.is_empty() {
        let (part, after) = rest.split_at(rest.len().min(PART));
        match gather_part(duct, page, part) {
            PutOut::Done => {}
            PutOut::WriteFault => return PutOut::WriteFault,
        }
        rest = after;
    }
    PutOut::Done
}

/// Gathers at most `PART` bytes in hexadecimal.
fn gather_part<D: Duct>(duct: &mut D, page: &mut Page, bytes: &[u8]) -> PutOut
    requires { length bytes.now ≤ 1024 }
    ensures { (es : List Event)
        × Gathers (report.hex bytes.now) (D.meaning duct.old) (D.meaning duct.new) page.old page.new
        result es }
{
    match make_room(duct, page, 2 * bytes.len()) {
        PutOut::Done => {}
        PutOut::WriteFault => return PutOut::WriteFault,
    }
    page.push_hex(bytes);
    PutOut::Done
}
