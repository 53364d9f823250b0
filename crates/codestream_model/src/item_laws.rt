//! The laws of the items of a codestream, packets and EOC, each on a function that does nothing.

ghost use Rattle.codestream_model.specs.ItemLaws.{CutHeadsAreShort, HeadFrontsNeedBytes, FaultsStay, OneFrameMoreIsAFault, OneByteMoreIsAFault, PacketsAreJudged, PacketsHaveOneVerdict, PacketRefusalsStay, UnfinishedHeadersAreShort, EocIsJudged, EocHasOneVerdict, EocRefusalsStay};

/// Bytes begin with a packet, or are refused where one should begin, or end inside one.
pub fn packets_are_judged()
    ensures { PacketsAreJudged }
{}

/// One of these three alone holds of bytes, and a refusal of a packet has one reason.
pub fn packets_have_one_verdict()
    ensures { PacketsHaveOneVerdict }
{}

/// A refusal of a packet stays, whatever follows.
pub fn packet_refusals_stay()
    ensures { PacketRefusalsStay }
{}

/// Bytes that end inside a packet header or its EPH are fewer than 65,538.
pub fn unfinished_headers_are_short()
    ensures { UnfinishedHeadersAreShort }
{}

/// Bytes begin with EOC, or are refused where it should be, or end before it does.
pub fn eoc_is_judged()
    ensures { EocIsJudged }
{}

/// One of these three alone holds of bytes, and a refusal of EOC has one reason.
pub fn eoc_has_one_verdict()
    ensures { EocHasOneVerdict }
{}

/// A refusal of EOC stays, whatever follows.
pub fn eoc_refusals_stay()
    ensures { EocRefusalsStay }
{}

/// A main header without its last bytes is unfinished.
pub fn head_fronts_need_bytes()
    ensures { HeadFrontsNeedBytes }
{}

/// A fault stays whatever follows, unless the input only ended too early.
pub fn faults_stay()
    ensures { FaultsStay }
{}

/// A byte after 65,536 whole codestreams is a fault.
pub fn one_frame_more_is_a_fault()
    ensures { OneFrameMoreIsAFault }
{}

/// So is a byte after fewer codestreams that take 1,099,511,627,776 bytes.
pub fn one_byte_more_is_a_fault()
    ensures { OneByteMoreIsAFault }
{}

/// Bytes that end inside a main header are fewer than 8,192.
pub fn cut_heads_are_short()
    ensures { CutHeadsAreShort }
{}
