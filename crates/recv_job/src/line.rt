//! The last line of a receiver.
ghost use Rattle.std.specs.Prelude.{◌≡◌, ◌≤◌, length};
ghost use Rattle.recv_job.specs.Turns.{last_line, word_of};

use crate::link::End;
use arrayvec::ArrayString;
use itoa::Buffer;

/// The line of a receiver that ended so, after this number of datagrams.
pub fn line_of(end: End, came: u32) -> ArrayString<64>
    ensures { result.bytes ≡ last_line end came }
{
    let mut line = ArrayString::new();
    let mut digits = Buffer::new();
    line.push_str("RECV end=");
    line.push_str(word(end));
    line.push_str(" in=");
    line.push_str(digits.format(came));
    line.push_str("\n");
    line
}

/// The word for an end.
fn word(end: End) -> &'static str
    ensures word { result.now ≡ word_of end }
    ensures short { length result.now ≤ 6 }
{
    match end {
        End::Closed => "closed",
        End::Max => "max",
        End::Idle => "idle",
    }
}
