//! The reader: from a payload's bytes to its header's values and the place where the codestream starts.
//! Bytes are refused at the first fault, in the order Short, Extension, Pos.
ghost use Rattle.std.specs.Prelude.{◌≡◌, ◌≤◌, ◌-◌, ◌↔◌, ℕ, List, length, drop, IfOk};
ghost use Rattle.wire_model.specs.Payload.{PayloadFields, IsPayload, IsShortOfPayload, IsPastExtension, IsPastPos};
ghost use Rattle.wire_model.specs.PayloadReading.{main_fields, body_fields};
ghost use Rattle.scl_payload.specs.Heads.{main_head_of, body_head_of, IsReadAs, read_as};
ghost use Rattle.scl_payload.specs.Judged.{judged, judged_main, judged_body};

use crate::head::{BodyHead, MainHead, Payload, PayloadFault};
use byteorder::{BigEndian, ByteOrder};

/// The bytes of either header, without those that XTRAC counts.
const HEADER_LEN: usize = 8;

/// The least first byte of a Main: MH is in the two top bits, and isn't 0.
const LEAST_MAIN: u8 = 64;

/// One more than the greatest PID, which is in the last 20 bits of a Body header.
const PID_LIMIT: u32 = 1_048_576;

/// The values of a Main header.
fn main_head(bytes: &[u8]) -> MainHead
    requires { 8 ≤ length bytes.now }
    ensures { result ≡ main_head_of (main_fields bytes.now) }
{
    MainHead {
        eseq: bytes[3],
        xtrac: bytes[1] / 16 % 8,
    }
}

/// The values of a Body header.
fn body_head(bytes: &[u8]) -> BodyHead
    requires { 8 ≤ length bytes.now }
    ensures { result ≡ body_head_of (body_fields bytes.now) }
{
    BodyHead {
        res: bytes[0] % 8,
        eseq: bytes[3],
        ordb: bytes[1] >= 128,
        pos: BigEndian::read_u16(&bytes[4..]) / 16,
        pid: BigEndian::read_u32(&bytes[4..]) % PID_LIMIT,
    }
}

/// A Main with the bytes that it skips.
fn read_main(bytes: &[u8]) -> Result<(Payload, usize), PayloadFault>
    requires { 8 ≤ length bytes.now }
    ensures { result ≡ judged_main bytes.now }
{
    let head = main_head(bytes);
    let start = HEADER_LEN + 4 * usize::from(head.xtrac);
    if bytes.len() < start {
        return Err(PayloadFault::Extension);
    }
    Ok((Payload::Main(head), start))
}

/// A Body whose POS, where ORDB is 1, is within the codestream bytes.
fn read_body(bytes: &[u8]) -> Result<(Payload, usize), PayloadFault>
    requires { 8 ≤ length bytes.now }
    ensures { result ≡ judged_body bytes.now }
{
    let head = body_head(bytes);
    if head.ordb && bytes.len() - HEADER_LEN <= usize::from(head.pos) {
        return Err(PayloadFault::Pos);
    }
    Ok((Payload::Body(head), HEADER_LEN))
}

/// Either kind, by MH.
fn judge(bytes: &[u8]) -> Result<(Payload, usize), PayloadFault>
    ensures { result ≡ judged bytes.now }
{
    if bytes.len() < HEADER_LEN {
        return Err(PayloadFault::Short);
    }
    if bytes[0] >= LEAST_MAIN {
        read_main(bytes)
    } else {
        read_body(bytes)
    }
}

/// Reads the header at the front of a payload (this project's profile after RFC 9828).
///
/// `bytes` are all of a datagram's bytes after RTP's header and before its padding. What comes out is
/// the header's values and the number of bytes before the codestream bytes: 8 for a Body, 8 to 36 for a
/// Main. It takes no memory.
///
/// # Errors
///
/// The first of these that holds: `Short` at fewer than 8 bytes; `Extension` at a Main whose 8 + 4 x XTRAC
/// bytes pass the end; `Pos` at a Body with ORDB = 1 whose POS isn't below the number of codestream bytes.
pub fn read_payload(bytes: &[u8]) -> Result<(Payload, usize), PayloadFault>
    ensures found { IfOk result (λ r. IsReadAs r.0 (drop r.1 bytes.now) bytes.now) }
    ensures within { IfOk result (λ r. r.1 ≤ length bytes.now) }
    ensures only { (h : PayloadFields) (codestream : List ℕ) → IsPayload h codestream bytes.now → result ≡ Ok (read_as h (length bytes.now - length codestream)) }
    ensures short { (result ≡ Err PayloadFault.Short) ↔ IsShortOfPayload bytes.now }
    ensures extension { (result ≡ Err PayloadFault.Extension) ↔ IsPastExtension bytes.now }
    ensures pos { (result ≡ Err PayloadFault.Pos) ↔ IsPastPos bytes.now }
{
    judge(bytes)
}
