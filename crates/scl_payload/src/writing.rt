//! The writers: payload headers with the fields that this sender sets, all others 0; and the numbers in these headers.
ghost use Rattle.std.specs.Prelude.{◌≡◌, ◌≤◌, ◌<◌, ◌+◌, ◌-◌, ◌*◌};
ghost use Rattle.scl_payload.specs.Heads.{values_of};
ghost use Rattle.scl_payload.specs.Writing.{main_header, body_header, ahead};

use crate::head::BodyHead;

/// Writes a Main header with MH 3, this ESEQ and this ORDH (0 to 7).
pub fn write_main(eseq: u8, ordh: u8, buf: &mut [u8; 8])
    requires { ordh ≤ 7 }
    ensures { buf.new ≡ main_header eseq ordh }
{
    *buf = [192 + ordh, 0, 0, eseq, 0, 0, 0, 0];
}

/// Writes a Body header: RES 0 to 7, ORDB, ESEQ, POS below 4,096 and PID below 2^20.
pub fn write_body(head: &BodyHead, buf: &mut [u8; 8])
    requires res { head.now.res ≤ 7 }
    requires pos { head.now.pos ≤ 4095 }
    requires pid { head.now.pid < 1048576 }
    ensures { buf.new ≡ body_header (values_of head.now) }
{
    *buf = [
        head.res,
        u8::from(head.ordb) * 128,
        0,
        head.eseq,
        (head.pos / 16) as u8,
        (head.pos % 16 * 16) as u8 + (head.pid / 65_536) as u8,
        (head.pid / 256 % 256) as u8,
        (head.pid % 256) as u8,
    ];
}

/// RES of the resolution level `r` of 0 to `levels`: 7 for the highest, one less for each lower one, and at least 0.
pub fn resolution_code(r: u8, levels: u8) -> u8
    requires { r ≤ levels }
    ensures value { result ≡ r + 7 - levels }
    ensures within { result ≤ 7 }
{
    7u8.saturating_sub(levels - r)
}

/// The extended number of a datagram, of 24 bits: ESEQ and then the sequence number.
pub fn extended(eseq: u8, number: u16) -> u32
    ensures { result ≡ eseq * 65536 + number }
{
    u32::from(eseq) * 65_536 + u32::from(number)
}

/// How far `n` is ahead of `base` modulo 2^24; `None` where that is 2^23 or more.
pub fn ahead_of(base: u32, n: u32) -> Option<u32>
    requires base { base < 16777216 }
    requires n { n < 16777216 }
    ensures { result ≡ ahead base n }
{
    let ahead = (n + 16_777_216 - base) % 16_777_216;
    if ahead < 8_388_608 { Some(ahead) } else { None }
}
