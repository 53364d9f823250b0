//! The fixed header of an RTP datagram with its optional parts: the CSRC list, the extension and
//! the padding (RFC 3550 section 5.1).
ghost use Rattle.std.specs.Prelude.{◌≡◌, ◌≤◌, ◌<◌, ◌+◌, ◌↔◌, false, ℕ, List, length, take, slice_range, nat_le, if◌then◌else◌, IfOk, Ok, Err};
ghost use Rattle.wire_model.specs.Bytes.{two_at, four_at};
ghost use Rattle.wire_model.specs.Rtp.{RtpFields, fixed_header, IsRtp, IsShortOfRtp, IsOtherVersion, IsBadlyPadded, header_length};
ghost use Rattle.wire_model.specs.RtpReading.{is_padding_sound, payload_end};
ghost use Rattle.rtp_header.specs.Reading.{fields_of, read_as, judged};

use byteorder::{BigEndian, ByteOrder};
use thiserror::Error;

/// Why bytes aren't an RTP datagram. Where more than one fault holds, the first in this order is
/// the answer: fewer than 12 bytes, another version, a header past the end, wrong padding.
#[derive(Clone, Copy, Debug, PartialEq, Eq, Error)]
pub enum RtpFault {
    /// The datagram ends within its header.
    #[error("the datagram ends within its RTP header")]
    Short,
    /// V isn't 2.
    #[error("the RTP version isn't 2")]
    Version,
    /// P is set, and the last byte counts no byte or more than follow the header.
    #[error("the RTP padding isn't within the datagram")]
    Padding,
}

/// The values of an RTP header, and the range of the datagram that is the payload.
#[derive(Clone, Copy, Debug, PartialEq, Eq)]
pub struct Rtp {
    /// M, the marker bit.
    pub marker: bool,
    /// PT, the payload type, below 128.
    pub kind: u8,
    /// The sequence number.
    pub number: u16,
    /// The timestamp, in the units of the payload's clock.
    pub stamp: u32,
    /// SSRC, the synchronization source.
    pub source: u32,
    /// Where the header ends and the payload starts.
    pub body_from: usize,
    /// Where the payload ends and the padding starts.
    pub body_to: usize,
}

/// The bytes of the fixed header, as far as SSRC (section 5.1).
const FIXED: usize = 12;

/// The version of RTP (section 5.1).
const VERSION: u8 = 2;

/// Reads the header of a datagram, and says which of its bytes are the payload.
///
/// `Short` comes where there are fewer than 12 bytes, or where the version is 2 and the CSRC list
/// or the extension would pass the end; `Version` where there are 12 bytes and V isn't 2;
/// `Padding` where the header is whole, P is set, and the last byte is 0 or more than the number
/// of bytes after the header (RFC 3550 section 5.1).
pub fn read_rtp(bytes: &[u8]) -> Result<Rtp, RtpFault>
    ensures found { IfOk result (λ r. IsRtp (fields_of r) (take r.body_from bytes.now) (slice_range bytes.now r.body_from r.body_to) bytes.now) }
    ensures within { IfOk result (λ r. (r.body_from ≤ r.body_to) × (r.body_to ≤ length bytes.now)) }
    ensures only { (h : RtpFields) (header payload : List ℕ) → IsRtp h header payload bytes.now → result ≡ Ok (read_as h (length header) (length header + length payload)) }
    ensures short { (result ≡ Err RtpFault.Short) ↔ IsShortOfRtp bytes.now }
    ensures version { (result ≡ Err RtpFault.Version) ↔ IsOtherVersion bytes.now }
    ensures padding { (result ≡ Err RtpFault.Padding) ↔ IsBadlyPadded bytes.now }
{
    judge(bytes)
}

/// Writes the fixed header of a datagram without CSRC list, extension and padding (RFC 3550 section 5.1). `kind` is
/// below 128; the range of the payload isn't looked at.
pub fn write_rtp(rtp: &Rtp, buf: &mut [u8; 12])
    requires { rtp.now.kind < 128 }
    ensures { buf.new ≡ fixed_header (fields_of rtp.now) false false 0 }
{
    *buf = [
        VERSION * 64,
        u8::from(rtp.marker) * 128 + rtp.kind,
        (rtp.number / 256) as u8,
        (rtp.number % 256) as u8,
        (rtp.stamp / 16_777_216) as u8,
        (rtp.stamp / 65_536 % 256) as u8,
        (rtp.stamp / 256 % 256) as u8,
        (rtp.stamp % 256) as u8,
        (rtp.source / 16_777_216) as u8,
        (rtp.source / 65_536 % 256) as u8,
        (rtp.source / 256 % 256) as u8,
        (rtp.source % 256) as u8,
    ];
}

/// The first fault in the order of judging, or the values at their places.
fn judge(bytes: &[u8]) -> Result<Rtp, RtpFault>
    ensures { result ≡ judged bytes.now }
{
    if bytes.len() < FIXED {
        return Err(RtpFault::Short);
    }
    // V is in the two highest bits
    if bytes[0] / 64 != VERSION {
        return Err(RtpFault::Version);
    }
    let body_from = header_end(bytes)?;
    let body_to = body_end(bytes, body_from)?;
    Ok(Rtp {
        marker: bytes[1] >= 128,
        kind: bytes[1] % 128,
        number: two_from(bytes, 2),
        stamp: four_from(bytes, 4),
        source: four_from(bytes, 8),
        body_from,
        body_to,
    })
}

/// Where the header ends, by CC, X and the extension's own length.
fn header_end(bytes: &[u8]) -> Result<usize, RtpFault>
    requires { 12 ≤ length bytes.now }
    ensures { result ≡ (if nat_le (header_length bytes.now) (length bytes.now) then Ok (header_length bytes.now) else Err RtpFault.Short) }
{
    // CC counts the sources, of 32 bits each
    let csrc_end = FIXED + 4 * usize::from(bytes[0] % 16);
    // X
    if bytes[0] / 16 % 2 == 0 {
        return within(csrc_end, bytes);
    }
    if bytes.len() < csrc_end + 4 {
        return Err(RtpFault::Short);
    }
    // 16 bits of the profile's own, and then the number of 32-bit words that follow
    let words = usize::from(two_from(bytes, csrc_end + 2));
    within(csrc_end + 4 + 4 * words, bytes)
}

/// A place in the bytes, or `Short` where it is past their end.
fn within(place: usize, bytes: &[u8]) -> Result<usize, RtpFault>
    ensures { result ≡ (if nat_le place (length bytes.now) then Ok place else Err RtpFault.Short) }
{
    if place <= bytes.len() {
        Ok(place)
    } else {
        Err(RtpFault::Short)
    }
}

/// Where the payload ends, by P and the last byte.
fn body_end(bytes: &[u8], body_from: usize) -> Result<usize, RtpFault>
    requires whole { 12 ≤ length bytes.now }
    requires from { body_from ≡ header_length bytes.now }
    requires inside { body_from ≤ length bytes.now }
    ensures { result ≡ (if is_padding_sound bytes.now then Ok (payload_end bytes.now) else Err RtpFault.Padding) }
{
    let len = bytes.len();
    // P
    if bytes[0] / 32 % 2 == 0 {
        return Ok(len);
    }
    let padding = usize::from(bytes[len - 1]);
    if padding == 0 || padding > len - body_from {
        return Err(RtpFault::Padding);
    }
    Ok(len - padding)
}

/// The number in two bytes from a place on.
fn two_from(bytes: &[u8], place: usize) -> u16
    requires { place + 2 ≤ length bytes.now }
    ensures { result ≡ two_at bytes.now place }
{
    BigEndian::read_u16(&bytes[place..])
}

/// The number in four bytes from a place on.
fn four_from(bytes: &[u8], place: usize) -> u32
    requires { place + 4 ≤ length bytes.now }
    ensures { result ≡ four_at bytes.now place }
{
    BigEndian::read_u32(&bytes[place..])
}

#[cfg(test)]
mod tests {
    use super::*;
    use std::test::Fail;

    /// V = 2, M, PT = 97, and the three numbers.
    const HEADER: [u8; 12] = [0x80, 0xe1, 0x12, 0x34, 0xde, 0xad, 0xbe, 0xef, 1, 2, 3, 4];

    /// What `HEADER` says, with this range.
    fn found(body_from: usize, body_to: usize) -> Result<Rtp, RtpFault> {
        Ok(Rtp {
            marker: true,
            kind: 97,
            number: 0x1234,
            stamp: 0xdeadbeef,
            source: 0x01020304,
            body_from,
            body_to,
        })
    }

    #[test]
    fn twelve_bytes_are_the_least(rt: HostRuntime) {
        let unmarked = Rtp {
            marker: false,
            kind: 127,
            number: 0xffff,
            stamp: 1,
            source: 0xffffffff,
            body_from: 12,
            body_to: 13,
        };
        let wholes: [(&[u8], Result<Rtp, RtpFault>); 5] = [
            (&[], Err(RtpFault::Short)),
            (&[0, 0, 0], Err(RtpFault::Short)),
            (&HEADER[..11], Err(RtpFault::Short)),
            (&HEADER, found(12, 12)),
            (
                &[0x80, 0x7f, 255, 255, 0, 0, 0, 1, 255, 255, 255, 255, 9],
                Ok(unmarked),
            ),
        ];
        for (bytes, wanted) in wholes {
            assert_eq!(rt; read_rtp(bytes), wanted, "at {bytes:?}");
        }
    }

    #[test]
    fn the_optional_parts_are_read_as_rfc_3550_lays_them_out(rt: HostRuntime) -> Result<(), Fail> {
        // the first byte in place of the header's own, and what follows the header
        let cases: [(u8, &[u8], Result<Rtp, RtpFault>); 19] = [
            // versions; the CSRC list of the third would pass the end
            (0x40, &[], Err(RtpFault::Version)),
            (0xc0, &[], Err(RtpFault::Version)),
            (0x4f, &[], Err(RtpFault::Version)),
            // no option, one source and fifteen
            (0x80, &[5, 6], found(12, 14)),
            (0x81, &[5, 5, 5, 5, 6], found(16, 17)),
            (0x8f, &[5; 60], found(72, 72)),
            (0x8f, &[5; 59], Err(RtpFault::Short)),
            // an extension of no word, of one and of 256
            (0x90, &[0xbe, 0xde, 0, 0], found(16, 16)),
            (0x90, &[0xbe, 0xde, 0], Err(RtpFault::Short)),
            (0x90, &[0xbe, 0xde, 0, 1, 5, 5, 5, 5], found(20, 20)),
            (0x90, &[0xbe, 0xde, 0, 1, 5, 5, 5], Err(RtpFault::Short)),
            (0x90, &[0xbe, 0xde, 1, 0, 5, 5, 5, 5], Err(RtpFault::Short)),
            // padding of one byte, of all, of none and of too many; without it the last byte is SSRC's
            (0xa0, &[7, 1], found(12, 13)),
            (0xa0, &[7, 2], found(12, 12)),
            (0xa0, &[7, 0], Err(RtpFault::Padding)),
            (0xa0, &[7, 3], Err(RtpFault::Padding)),
            (0xa0, &[], Err(RtpFault::Padding)),
            // a source, an extension and padding; a source that isn't there, and padding of none
            (
                0xb1,
                &[5, 5, 5, 5, 0xbe, 0xde, 0, 0, 7, 0, 2],
                found(20, 21),
            ),
            (0xa1, &[0], Err(RtpFault::Short)),
        ];
        for (first, behind, wanted) in cases {
            let mut bytes = Vec::new(rt.alloc());
            bytes.push(first)?;
            bytes.extend_from_slice(&HEADER[1..])?;
            bytes.extend_from_slice(behind)?;
            assert_eq!(rt; read_rtp(&bytes), wanted, "at {first} and {behind:?}");
        }
        Ok(())
    }
}
