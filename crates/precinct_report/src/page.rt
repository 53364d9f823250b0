//! Text that is gathered on a page, so that it goes out by few writes.
ghost use Rattle.std.specs.Prelude.{◌≡◌, ◌≤◌, ◌<◌, ◌+◌, ◌*◌, ◌++◌, [], length, take, decimal, nat_le};
ghost use Rattle.stream_model.specs.Report as report;

use hex::encode_to_slice;
use itoa::Buffer;
use std::marker::Model;

/// The number of bytes that a page has room for.
pub const ROOM: usize = 4096;

/// Text of at most `ROOM` bytes.
#[derive(Drop)]
pub struct Page {
    bytes: [u8; ROOM],
    /// How many of them were filled.
    len: usize,
}

impl Model for Page {
    ghost use Rattle.std.specs.Prelude.{◌≡◌, ◌≤◌, ℕ, List, length, take};

    ghost Value = { List ℕ };

    ghost view = { λ p. take p.len p.bytes };

    ghost invariant = { λ p. (p.len ≤ 4096) × (length p.bytes ≡ 4096) };
}

/// Copies bytes after the first `end` bytes of `out`. The result is the new `end`.
#[inline(always)]
fn append(out: &mut [u8], end: usize, bytes: &[u8]) -> usize
    requires room { end + length bytes.now ≤ length out.old }
    ensures bytes { take result out.new ≡ take end out.old ++ bytes.now }
    ensures size { result ≡ end + length bytes.now }
    ensures same { length out.new ≡ length out.old }
{
    let after = end + bytes.len();
    out[end..after].copy_from_slice(bytes);
    after
}

/// Spells bytes in two lower-case digits each after the first `end` bytes of `out`. The result is
/// the new `end`.
fn append_hex(out: &mut [u8], end: usize, bytes: &[u8]) -> usize
    requires room { end + 2 * length bytes.now ≤ length out.old }
    ensures bytes { take result out.new ≡ take end out.old ++ report.hex bytes.now }
    ensures size { result ≡ end + 2 * length bytes.now }
    ensures same { length out.new ≡ length out.old }
{
    let after = end + 2 * bytes.len();
    spell(bytes, &mut out[end..after]);
    after
}

/// Spells the bytes in two digits each.
fn spell(bytes: &[u8], digits: &mut [u8])
    requires { length digits.old ≡ 2 * length bytes.now }
    ensures { digits.new ≡ report.hex bytes.now }
{
    // the digits have just the room that is needed
    let _ = encode_to_slice(bytes, digits);
}

impl Page {
    /// An empty page.
    pub fn new() -> Page
        ensures { result ≡ [] }
    {
        Page {
            bytes: [0; ROOM],
            len: 0,
        }
    }

    /// The text.
    pub fn text(&self) -> &[u8]
        ensures { result.now ≡ self.now }
    {
        &self.bytes[..self.len]
    }

    /// Whether this number of bytes more fits.
    pub fn has_room(&self, bytes: usize) -> bool
        requires { bytes ≤ 4096 }
        ensures { result ≡ nat_le (length self.now + bytes) 4096 }
    {
        self.len + bytes <= ROOM
    }

    /// Makes the page empty.
    pub fn clear(&mut self)
        ensures { self.new ≡ [] }
    {
        self.len = 0;
    }

    /// Appends bytes.
    #[inline(always)]
    pub fn push(&mut self, bytes: &[u8])
        requires { length self.old + length bytes.now ≤ 4096 }
        ensures text { self.new ≡ self.old ++ bytes.now }
        ensures size { length self.new ≡ length self.old + length bytes.now }
    {
        self.len = append(&mut self.bytes, self.len, bytes);
    }

    /// Appends a number in decimal, at most 20 digits.
    #[inline(never)]
    fn push_digits(&mut self, n: u64)
        requires { length self.old + 20 ≤ 4096 }
        ensures text { self.new ≡ self.old ++ decimal n }
        ensures size { length self.new ≤ length self.old + 20 }
    {
        let mut digits = Buffer::new();
        self.push(digits.format(n).as_bytes());
    }

    /// Appends a text and then a number in decimal, at most 20 digits.
    ///
    /// Most numbers of a line have one digit, which takes no call.
    #[inline(always)]
    pub fn push_number(&mut self, before: &[u8], n: u64)
        requires { length self.old + length before.now + 20 ≤ 4096 }
        ensures text { self.new ≡ self.old ++ before.now ++ decimal n }
        ensures size { length self.new ≤ length self.old + length before.now + 20 }
    {
        self.push(before);
        if n < 10 {
            self.push(&[b'0' + n as u8]);
        } else {
            self.push_digits(n);
        }
    }

    /// Appends bytes in hexadecimal, two lower-case digits each.
    pub fn push_hex(&mut self, bytes: &[u8])
        requires { length self.old + 2 * length bytes.now ≤ 4096 }
        ensures { self.new ≡ self.old ++ report.hex bytes.now }
    {
        self.len = append_hex(&mut self.bytes, self.len, bytes);
    }
}
