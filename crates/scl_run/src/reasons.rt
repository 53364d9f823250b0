//! The words for each reason to refuse an input.
ghost use Rattle.std.specs.Prelude.{◌≡◌, ◌≤◌, ◌<◌, ◌+◌, ◌++◌, ◌∷◌, [], length};
ghost use Rattle.std.specs.Char.{digit_char};
ghost use Rattle.scl_run.specs.Reasons.{marker_digits, header_name, named_marker, reason_text};

use crate::Reason;
use arrayvec::ArrayString;
use j2k_markers::HeadWhy;

/// Why a main header is refused, without the marker that is named.
fn name_of(why: HeadWhy) -> &'static str
    ensures name { result.now ≡ header_name why }
    ensures short { length result.now ≤ 16 }
{
    match why {
        HeadWhy::Cut => "cut",
        HeadWhy::NoSoc => "no soc",
        HeadWhy::NoSiz => "no siz",
        HeadWhy::Marker(_) => "marker ",
        HeadWhy::Length => "length",
        HeadWhy::Twice(_) => "twice ",
        HeadWhy::Missing(_) => "missing ",
        HeadWhy::Tiles => "tiles",
        HeadWhy::Components => "components",
        HeadWhy::Step => "step",
        HeadWhy::Area => "area",
        HeadWhy::Rsiz => "rsiz",
        HeadWhy::Cap => "cap",
        HeadWhy::Order => "order",
        HeadWhy::Layers => "layers",
        HeadWhy::Levels => "levels",
        HeadWhy::Blocks => "blocks",
        HeadWhy::Style => "style",
        HeadWhy::Precinct => "precinct",
        HeadWhy::Quant => "quant",
        HeadWhy::Sop => "sop",
        HeadWhy::TileHeader => "tile header",
        HeadWhy::Ids => "ids",
        HeadWhy::TooLong => "header past 8192",
    }
}

/// Appends a lower-case hexadecimal digit to the line.
fn push_digit(line: &mut ArrayString<64>, digit: u16)
    requires digit { digit < 16 }
    requires room { length line.old.bytes + 1 ≤ 64 }
    ensures { line.new.bytes ≡ line.old.bytes ++ digit_char digit ∷ [] }
{
    if let Some(c) = char::from_digit(u32::from(digit), 16) {
        line.push(c);
    }
}

/// Appends a marker to the line, in four hexadecimal digits.
fn push_marker(line: &mut ArrayString<64>, marker: u16)
    requires { length line.old.bytes + 4 ≤ 64 }
    ensures { line.new.bytes ≡ line.old.bytes ++ marker_digits marker }
{
    push_digit(line, marker / 4096);
    push_digit(line, marker / 256 % 16);
    push_digit(line, marker / 16 % 16);
    push_digit(line, marker % 16);
}

/// Appends to the line why a main header is refused.
fn push_why(line: &mut ArrayString<64>, why: HeadWhy)
    requires { length line.old.bytes + 20 ≤ 64 }
    ensures text { line.new.bytes ≡ line.old.bytes ++ (header_name why ++ named_marker why) }
    ensures size { length line.new.bytes ≤ length line.old.bytes + 20 }
{
    line.push_str(name_of(why));
    if let HeadWhy::Marker(marker) | HeadWhy::Twice(marker) | HeadWhy::Missing(marker) = why {
        push_marker(line, marker);
    }
}

/// Appends the words for a reason to the line: at most 24 bytes.
pub fn push_reason(line: &mut ArrayString<64>, reason: Reason)
    requires { length line.old.bytes + 24 ≤ 64 }
    ensures text { line.new.bytes ≡ line.old.bytes ++ reason_text reason }
    ensures size { length line.new.bytes ≤ length line.old.bytes + 24 }
{
    match reason {
        Reason::CutFrame => line.push_str("cut frame"),
        Reason::InputTooLong => line.push_str("input too long"),
        Reason::Header(why) => push_why(line, why),
        Reason::Cut => line.push_str("cut"),
        Reason::TooManyBlocks => line.push_str("too many blocks"),
        Reason::PacketTooLong => line.push_str("packet too long"),
        Reason::Psot => line.push_str("psot"),
        Reason::NoEoc => line.push_str("no eoc"),
        Reason::TooManyCodestreams => line.push_str("too many codestreams"),
        Reason::Stuffed => line.push_str("stuffed"),
        Reason::Passes => line.push_str("passes"),
        Reason::LengthBits => line.push_str("length bits"),
        Reason::CleanupShort => line.push_str("cleanup short"),
        Reason::CleanupLong => line.push_str("cleanup long"),
        Reason::RefineLong => line.push_str("refine long"),
        Reason::ZeroPlanes => line.push_str("zero planes"),
        Reason::PacketHeaderTooLong => line.push_str("packet header too long"),
        Reason::NoEph => line.push_str("no eph"),
        Reason::CaptureTooLong => line.push_str("capture too long"),
        Reason::NoSuchDatagram => line.push_str("no such datagram"),
        Reason::HeaderTooLong => line.push_str("header too long"),
        Reason::TooManyDatagrams => line.push_str("too many datagrams"),
    }
}
