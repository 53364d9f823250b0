//! How a run ends: its status, and the line that tells the user why.
ghost use Rattle.std.specs.Prelude.{◌≡◌, ◌++◌, codes, decimal};
ghost use Rattle.scl_outside.specs.Events.{Noted};
ghost use Rattle.scl_outside.specs.Steps.{Step};
ghost use Rattle.scl_run.specs.Endings.{refusal_line, status_of, line_of, Notes};

use crate::reasons::push_reason;
use arrayvec::ArrayString;
use itoa::Buffer;
use j2k_markers::HeadWhy;
use scl_outside::Duct;

/// Why an input is refused.
#[derive(Clone, Copy, Debug, PartialEq, Eq)]
pub enum Reason {
    /// It ends inside a frame.
    CutFrame,
    /// It has more than 1,099,511,627,776 bytes.
    InputTooLong,
    /// A main header is refused.
    Header(HeadWhy),
    /// It ends inside a codestream.
    Cut,
    /// A precinct has more than 65,536 code-blocks.
    TooManyBlocks,
    /// A packet's header and segments have more than 16,777,216 bytes.
    PacketTooLong,
    /// Psot isn't the distance from SOT to the end of the packets.
    Psot,
    /// EOC doesn't follow the last packet.
    NoEoc,
    /// More than 65,536 codestreams follow one another.
    TooManyCodestreams,
    /// A byte of a packet header after FF has its top bit set.
    Stuffed,
    /// A packet header has more than three coding passes.
    Passes,
    /// A packet header has a Lblock above 24.
    LengthBits,
    /// A cleanup segment has fewer than 2 bytes.
    CleanupShort,
    /// A cleanup segment has more than 65,534 bytes.
    CleanupLong,
    /// A refinement segment has more than 2,046 bytes.
    RefineLong,
    /// A code-block has more than 74 zero bit-planes.
    ZeroPlanes,
    /// A packet header has more than 65,536 bytes.
    PacketHeaderTooLong,
    /// EPH doesn't follow a packet header, and the main header says that it does.
    NoEph,
    /// A capture that is to be delivered has more than 268,435,456 bytes.
    CaptureTooLong,
    /// A capture has no datagram at a listed position.
    NoSuchDatagram,
    /// A main header has no room in a datagram.
    HeaderTooLong,
    /// More than 8,388,607 datagrams are due.
    TooManyDatagrams,
}

/// Why an input is refused, and where: an offset from its start, in bytes, or the position of a
/// datagram that isn't there.
#[derive(Clone, Copy, Debug, PartialEq, Eq)]
pub struct Refusal {
    pub at: u64,
    pub reason: Reason,
}

/// How a run ends whose words are in the grammar.
#[derive(Clone, Copy, Debug, PartialEq, Eq)]
pub enum Ending {
    /// The job was done to its end.
    Done,
    /// A read failed.
    ReadFault,
    /// A write failed.
    WriteFault,
    /// An address couldn't be bound or joined, or no datagram could be received.
    WireFault,
    /// The input is refused.
    Refused(Refusal),
    /// It was out of memory.
    NoMemory,
}

/// The line for an input that is refused: `scl: refused at N: REASON` and a line feed.
fn line_for(refusal: Refusal) -> ArrayString<64>
    ensures { result.bytes ≡ refusal_line refusal }
{
    let mut line = ArrayString::new();
    let mut digits = Buffer::new();
    line.push_str("scl: refused at ");
    line.push_str(digits.format(refusal.at));
    line.push_str(": ");
    push_reason(&mut line, refusal.reason);
    line.push_str("\n");
    line
}

/// Notes the line of an ending, if it has one, and answers its status: 0, 3, 4, 5, 6 or 7.
pub fn finish<D: Duct>(ending: Ending, out: &mut D) -> u8
    ensures status { result ≡ status_of ending }
    ensures note { Notes (line_of ending) (D.meaning out.old) (D.meaning out.new) }
{
    match ending {
        Ending::Done => 0,
        Ending::ReadFault => {
            out.note(b"scl: read fault\n");
            3
        }
        Ending::WriteFault => {
            out.note(b"scl: write fault\n");
            4
        }
        Ending::WireFault => {
            out.note(b"scl: wire fault\n");
            5
        }
        Ending::Refused(refusal) => {
            out.note(line_for(refusal).as_bytes());
            6
        }
        Ending::NoMemory => {
            out.note(b"scl: memory\n");
            7
        }
    }
}
