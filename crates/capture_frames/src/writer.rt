//! A frame out.
ghost use Rattle.std.specs.Prelude.{◌≡◌, ◌≤◌, ◌<◌, ◌^◌, List, length};
ghost use Rattle.wire_model.specs.Bytes.{two_bytes};
ghost use Rattle.scl_outside.specs.Events.{Event};
ghost use Rattle.capture_frames.specs.Writing.{WritesFrame};

use scl_outside::{Duct, PutOut, WriteOut};

/// A length as two bytes, the high one first.
fn head_bytes(len: usize) -> [u8; 2]
    requires { len < 2 ^ 16 }
    ensures { result ≡ two_bytes len }
{
    [(len / 256) as u8, (len % 256) as u8]
}

/// Writes one frame by two writes, its length and its bytes, which are 1 to 9,000. `WriteFault` where one failed.
pub fn put_frame<D: Duct>(duct: &mut D, bytes: &[u8]) -> PutOut
    requires some { 1 ≤ length bytes.now }
    requires short { length bytes.now ≤ 9000 }
    ensures { (es : List Event) × WritesFrame (D.meaning duct.old) (D.meaning duct.new) result bytes.now es }
{
    let head = head_bytes(bytes.len());
    match duct.write(&head) {
        WriteOut::Done => {}
        WriteOut::Failed => return PutOut::WriteFault,
    }
    match duct.write(bytes) {
        WriteOut::Done => PutOut::Done,
        WriteOut::Failed => PutOut::WriteFault,
    }
}
