//! Bytes written as they are.
ghost use Rattle.std.specs.Prelude.{List};
ghost use Rattle.codestream_model.specs.MainHeader.{SpellsHead};
ghost use Rattle.codestream_model.specs.Values as values;
ghost use Rattle.rebuild_model.specs.Stripping as stripping;
ghost use Rattle.scl_outside.specs.Events.{Event};
ghost use Rattle.scl_outside.specs.Writing.{Puts};

use crate::stripping::stripped;
use scl_outside::{Duct, PutOut, WriteOut};

/// Writes the bytes by one write.
pub fn put<D: Duct>(duct: &mut D, bytes: &[u8]) -> PutOut
    ensures { (es : List Event) × Puts bytes.now (D.meaning duct.old) (D.meaning duct.new) result es }
{
    match duct.write(bytes) {
        WriteOut::Done => PutOut::Done,
        WriteOut::Failed => PutOut::WriteFault,
    }
}

/// Writes a main header by one write, stripped of the lengths that it tells.
pub fn put_stripped<D: Duct>(duct: &mut D, head: &[u8]) -> PutOut
    requires { (h : values.Head) × SpellsHead h head.now }
    ensures { (es : List Event)
        × Puts (stripping.stripped head.now) (D.meaning duct.old) (D.meaning duct.new) result es }
{
    let mut out = [0u8; 8192];
    let len = stripped(head, &mut out);
    put(duct, &out[..len])
}
