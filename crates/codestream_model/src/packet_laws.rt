//! The laws of the definitions, each on a function that does nothing.

ghost use Rattle.codestream_model.specs.MarkedLaws.{MarkedHeadersAreRead, MarkedHeadersAreSound, MarkedRefusalsAreRead, MarkedRefusalsAreSound, MarkedNeedsAreRead, MarkedNeedsAreSound, MarkedRefusalsStay, MarkedHeadersAreJudged, MarkedHeadersHaveOneVerdict, MarkedHeadersAreReadOneWay, MarkedFrontsNeedBytes};
ghost use Rattle.codestream_model.specs.PacketLaws.{PackingPacks, PackedBitsAreCarried, PackedBitsAgree, ExponentIsLeast, EmptyPacketIsRead, HeadersAreRead, HeadersAreSound, RefusalsAreRead, RefusalsAreSound, NeedsAreRead, NeedsAreSound, PacketHeadersAreJudged, PacketHeadersHaveOneVerdict, RefusalsStay, HeaderFrontsNeedBytes, LongHeadersAreRefused, HeadersAreReadOneWay, WrittenIsHeader, PacketsAreReadOneWay, PacketRunsAreReadOneWay};

/// `packing` produces bytes that `Packs` accepts; `packing_pads_with_zeros` speaks of the pad bits.
pub fn bits_that_are_packed_by_computing_are_packed()
    ensures { PackingPacks }
{}

/// The bits that are packed in bytes are the first that the bytes carry.
pub fn packed_bits_are_carried()
    ensures { PackedBitsAreCarried }
{}

/// Of two runs of bits that are packed in the same bytes one is a prefix of the other.
pub fn packed_bits_agree()
    ensures { PackedBitsAgree }
{}

/// The exponent of a number is the least whose power of two isn't below it.
pub fn exponent_is_least()
    ensures { ExponentIsLeast }
{}

/// A byte whose first bit is 0 is an empty packet, whatever follows it, and is read so.
pub fn empty_packet_is_read()
    ensures { EmptyPacketIsRead }
{}

/// A header is read as it is spelled, whatever follows it.
pub fn headers_are_read()
    ensures { HeadersAreRead }
{}

/// What is read of bytes is a header at their front.
pub fn headers_are_sound()
    ensures { HeadersAreSound }
{}

/// Bytes that are refused are read as refused, for the same reason.
pub fn refusals_are_read()
    ensures { RefusalsAreRead }
{}

/// What is read as refused is refused.
pub fn refusals_are_sound()
    ensures { RefusalsAreSound }
{}

/// Bytes that end before a header does, and before it is refused, are read so.
pub fn needs_are_read()
    ensures { NeedsAreRead }
{}

/// What is read so ends before a header does, and before it is refused.
pub fn needs_are_sound()
    ensures { NeedsAreSound }
{}

/// Bytes begin with a header, or are refused, or end before a header does.
pub fn packet_headers_are_judged()
    ensures { PacketHeadersAreJudged }
{}

/// One of these three alone holds of bytes, and a refusal has one reason.
pub fn packet_headers_have_one_verdict()
    ensures { PacketHeadersHaveOneVerdict }
{}

/// A refusal stays, whatever follows.
pub fn refusals_stay()
    ensures { RefusalsStay }
{}

/// A header without its last bytes is unfinished.
pub fn header_fronts_need_bytes()
    ensures { HeaderFrontsNeedBytes }
{}

/// A header of more than 65,536 bytes is refused for its length.
pub fn long_headers_are_refused()
    ensures { LongHeadersAreRefused }
{}

/// Bytes begin with one header at most, and it says one thing.
pub fn headers_are_read_one_way()
    ensures { HeadersAreReadOneWay }
{}

/// The header that our writer gives code-blocks says them.
pub fn written_is_header()
    ensures { WrittenIsHeader }
{}

/// Bytes begin with one packet of a precinct at most, and it says one thing.
pub fn packets_are_read_one_way()
    ensures { PacketsAreReadOneWay }
{}

/// Bytes begin with one run of packets of these precincts at most, and it says one thing.
pub fn packet_runs_are_read_one_way()
    ensures { PacketRunsAreReadOneWay }
{}

/// A header with its EPH is read as it is spelled, whatever follows it.
pub fn marked_headers_are_read()
    ensures { MarkedHeadersAreRead }
{}

/// What is read of bytes is a header with its EPH at their start.
pub fn marked_headers_are_sound()
    ensures { MarkedHeadersAreSound }
{}

/// Bytes that are refused as a header with its EPH are read as refused, for the same reason.
pub fn marked_refusals_are_read()
    ensures { MarkedRefusalsAreRead }
{}

/// What is read as refused is refused.
pub fn marked_refusals_are_sound()
    ensures { MarkedRefusalsAreSound }
{}

/// Bytes that end before a header with its EPH does, and that nothing refuses, are read so.
pub fn marked_needs_are_read()
    ensures { MarkedNeedsAreRead }
{}

/// What is read so ends before a header with its EPH does, and nothing refuses it.
pub fn marked_needs_are_sound()
    ensures { MarkedNeedsAreSound }
{}

/// A refusal of a header with its EPH stays, whatever follows.
pub fn marked_refusals_stay()
    ensures { MarkedRefusalsStay }
{}

/// Bytes begin with a header and its EPH, or are refused, or end before them.
pub fn marked_headers_are_judged()
    ensures { MarkedHeadersAreJudged }
{}

/// Of these three only one holds of bytes, and a refusal has one reason.
pub fn marked_headers_have_one_verdict()
    ensures { MarkedHeadersHaveOneVerdict }
{}

/// Bytes begin with one header and its EPH at most, and it says one thing.
pub fn marked_headers_are_read_one_way()
    ensures { MarkedHeadersAreReadOneWay }
{}

/// A header with its EPH that lacks its last bytes is unfinished.
pub fn marked_fronts_need_bytes()
    ensures { MarkedFrontsNeedBytes }
{}
