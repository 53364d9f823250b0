//! Main headers without what they tell of the lengths of tile-parts and packets.
ghost use Rattle.std.specs.Prelude.{◌≡◌, ◌≤◌, ◌+◌, ◌++◌, ◌∷◌, length, take, drop};
ghost use Rattle.codestream_model.specs.Bytes.{two_at};
ghost use Rattle.codestream_model.specs.Segments.{Segment, segment_bytes, segments_bytes};
ghost use Rattle.codestream_model.specs.MainHeader.{SpellsHead};
ghost use Rattle.codestream_model.specs.Values as values;
ghost use Rattle.rebuild_model.specs.Stripping as stripping;
ghost use Rattle.codestream_rebuild.specs.Segments.{HasPsot};

use byteorder::{BigEndian, ByteOrder};

/// Tile-part lengths (T.800 A.7.1).
const TLM: u16 = 0xFF55;
/// Packet lengths, main header (T.800 A.7.2).
const PLM: u16 = 0xFF57;
/// Packet lengths, tile-part header (T.800 A.7.3).
const PLT: u16 = 0xFF58;
/// Start of tile-part (T.800 A.4.2).
const SOT: u16 = 0xFF90;
/// Start of data (T.800 A.4.3).
const SOD: u16 = 0xFF93;

/// Puts a main header at the front of `out` without its TLM, PLM and PLT segments and with Psot 0, which says that the
/// packets go on up to EOC (T.800 A.4.2, A.7): a codestream with other packets has other lengths. `bytes` is exactly one
/// main header that `read_head` accepts. The result is the number of bytes put there.
pub fn stripped(bytes: &[u8], out: &mut [u8; 8192]) -> usize
    requires { (h : values.Head) × SpellsHead h bytes.now }
    ensures stripped { take result out.new ≡ stripping.stripped bytes.now }
    ensures fits { result ≤ length bytes.now }
{
    let mut end = append(out, 0, &bytes[..2]);
    let mut rest = &bytes[2..];
    while number_16(rest, 0) != SOD {
        let (segment, after) = rest.split_at(2 + usize::from(number_16(rest, 2)));
        end = append_kept(out, end, segment);
        rest = after;
    }
    append(out, end, &[0xFF, 0x93])
}

/// Appends what a stripped header has of a segment to the first `end` bytes of `out`. The result is the new `end`.
fn append_kept(out: &mut [u8], end: usize, segment: &[u8]) -> usize
    requires room { end + length segment.now ≤ length out.old }
    requires whole { (s : Segment) × (segment.now ≡ segment_bytes s) × HasPsot s }
    ensures kept { (s : Segment) → segment.now ≡ segment_bytes s
        → take result out.new ≡ take end out.old ++ segments_bytes (stripping.kept_segment s) }
    ensures size { result ≤ end + length segment.now }
    ensures same { length out.new ≡ length out.old }
{
    match number_16(segment, 0) {
        TLM | PLM | PLT => end,
        SOT => append_sot(out, end, segment),
        _ => append(out, end, segment),
    }
}

/// Appends an SOT segment with Psot 0: Psot is its bytes 6 to 9.
fn append_sot(out: &mut [u8], end: usize, segment: &[u8]) -> usize
    requires room { end + length segment.now ≤ length out.old }
    requires psot { 10 ≤ length segment.now }
    ensures kept { take result out.new
        ≡ take end out.old ++ (take 6 segment.now ++ (0 ∷ 0 ∷ 0 ∷ 0 ∷ drop 10 segment.now)) }
    ensures size { result ≡ end + length segment.now }
    ensures same { length out.new ≡ length out.old }
{
    let psot = append(out, end, &segment[..6]);
    let after = append(out, psot, &[0; 4]);
    append(out, after, &segment[10..])
}

/// Appends bytes to the first `end` bytes of `out`. The result is the new `end`.
fn append(out: &mut [u8], end: usize, bytes: &[u8]) -> usize
    requires room { end + length bytes.now ≤ length out.old }
    ensures bytes { take result out.new ≡ take end out.old ++ bytes.now }
    ensures size { result ≡ end + length bytes.now }
    ensures same { length out.new ≡ length out.old }
{
    let after = end + bytes.len();
    out[end..after].copy_from_slice(bytes);
    after
}

/// The number in the two bytes from an offset on.
fn number_16(bytes: &[u8], at: usize) -> u16
    requires { at + 2 ≤ length bytes.now }
    ensures { result ≡ two_at bytes.now at }
{
    BigEndian::read_u16(&bytes[at..])
}
