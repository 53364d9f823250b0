//! The lines that a relay writes at its end.
ghost use Rattle.std.specs.Prelude.{◌≡◌, ◌≤◌, ◌<◌, ◌+◌, ◌++◌, length, decimal, slice_get, Some};
ghost use Rattle.thinning_relay.specs.Relaying.{receivers_of};
ghost use Rattle.thinning_relay.specs.declared.receiver.Receiver.{Receiver};
ghost use Rattle.relay_job.specs.Serving.{word_of};
ghost use Rattle.relay_job.specs.Lines.{end_line, count_line, count_lines};

use crate::serving::End;
use arrayvec::ArrayString;
use scl_run::push_number;
use thinning_relay::Relay;

/// The lines of a relay: its own, of at most 70 bytes, and one of at most 132 bytes of each of at most 64 receivers.
pub type Lines = ArrayString<8704>;

/// The lines of a relay with this number of receivers, whose turns had this end.
pub fn lines_of(relay: &Relay, count: usize, end: End) -> Lines
    requires count { count ≡ length (receivers_of relay.now) }
    requires few { count ≤ 64 }
    ensures { result.bytes
        ≡ end_line (word_of end) relay.now.received relay.now.refused ++ count_lines 0 (receivers_of relay.now) }
{
    let mut lines = Lines::new();
    push_end(&mut lines, relay, end);
    for j in 0..count {
        push_peer(&mut lines, relay, j);
    }
    lines
}

/// Appends the line of the way in.
fn push_end(lines: &mut Lines, relay: &Relay, end: End)
    requires { length lines.old.bytes ≤ 100 }
    ensures text { lines.new.bytes
        ≡ lines.old.bytes ++ end_line (word_of end) relay.now.received relay.now.refused }
    ensures size { length lines.new.bytes ≤ length lines.old.bytes + 70 }
{
    lines.push_str("RELAY end=");
    lines.push_str(word(end));
    push_number(lines, " in=", relay.received());
    push_number(lines, " refused=", relay.refused());
    lines.push_str("\n");
}

/// The word for an end.
fn word(end: End) -> &'static str
    ensures word { result.now ≡ word_of end }
    ensures short { length result.now ≤ 6 }
{
    match end {
        End::Closed => "closed",
        End::Max => "max",
        End::Idle => "idle",
    }
}

/// Appends the line of receiver `j`.
fn push_peer(lines: &mut Lines, relay: &Relay, j: usize)
    requires number { j < length (receivers_of relay.now) }
    requires room { length lines.old.bytes ≤ 8500 }
    ensures text { (r : Receiver) → slice_get (receivers_of relay.now) j ≡ Some r
        → lines.new.bytes ≡ lines.old.bytes ++ count_line j r }
    ensures size { length lines.new.bytes ≤ length lines.old.bytes + 132 }
{
    push_number(lines, "PEER ", j as u64);
    push_number(lines, " sent=", relay.sent(j));
    push_number(lines, " lost=", relay.lost(j));
    push_number(lines, " failed=", relay.failed(j));
    push_number(lines, " left=", relay.queued(j));
    lines.push_str("\n");
}
