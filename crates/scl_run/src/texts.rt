//! Text of fixed room.
ghost use Rattle.std.specs.Prelude.{◌≡◌, ◌≤◌, ◌+◌, ◌++◌, length, decimal};

use arrayvec::ArrayString;
use itoa::Buffer;

/// Puts a text and a number after the text so far.
pub fn push_number<const ROOM: usize>(text: &mut ArrayString<ROOM>, before: &str, n: u64)
    requires { length text.old.bytes + length before.now + 20 ≤ ROOM }
    ensures text { text.new.bytes ≡ text.old.bytes ++ before.now ++ decimal n }
    ensures size { length text.new.bytes ≤ length text.old.bytes + length before.now + 20 }
{
    let mut digits = Buffer::new();
    text.push_str(before);
    text.push_str(digits.format(n));
}
