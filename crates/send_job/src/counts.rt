//! The numbers of datagrams by what became of them, and the line that says them.
ghost use Rattle.std.specs.Prelude.{◌≡◌, ◌≤◌, ◌<◌, ◌+◌, ◌++◌, length, decimal};
ghost use Rattle.send_job.specs.Offering.{with_fate, total, count_line};

use crate::offering::Fate;
use arrayvec::ArrayString;
use scl_run::push_number;

/// The line of a sender has at most 116 bytes.
pub type Line = ArrayString<128>;

/// How many datagrams went out, were lost and failed.
#[derive(Clone, Copy, Debug, PartialEq, Eq)]
pub struct Counts {
    pub sent: u32,
    pub lost: u32,
    pub failed: u32,
}

impl Counts {
    /// No datagram is counted.
    pub fn new() -> Counts
        ensures { result ≡ record { sent = 0; lost = 0; failed = 0 } }
    {
        Counts {
            sent: 0,
            lost: 0,
            failed: 0,
        }
    }

    /// Counts one more datagram; together there are fewer than 8,388,607.
    pub fn count(&mut self, fate: Fate)
        requires { total self.old < 8388607 }
        ensures { self.new ≡ with_fate self.old fate }
    {
        match fate {
            Fate::Sent => self.sent += 1,
            Fate::Lost => self.lost += 1,
            Fate::Failed => self.failed += 1,
        }
    }
}

/// The line of a sender with these counts.
pub fn line_of(counts: &Counts) -> Line
    requires { total counts.now ≤ 8388607 }
    ensures { result.bytes ≡ count_line counts.now }
{
    let mut line = Line::new();
    let all = counts.sent + counts.lost + counts.failed;
    push_number(&mut line, "SEND datagrams=", u64::from(all));
    push_number(&mut line, " sent=", u64::from(counts.sent));
    push_number(&mut line, " lost=", u64::from(counts.lost));
    push_number(&mut line, " failed=", u64::from(counts.failed));
    line.push_str("\n");
    line
}
