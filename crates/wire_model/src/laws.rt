//! The laws of the definitions, each on a function that does nothing.
ghost use Rattle.wire_model.specs.Laws.{FramesAreComputed, BytesSplit, RtpIsReadOneWay, RtpReadsAsLaidOut, PayloadIsReadOneWay, PayloadReadsAsLaidOut, DatagramIsComputed, WellFormedIsDatagram, KeptIsWithin};
ghost use Rattle.wire_model.specs.Verdicts.{RtpHasOneVerdict, PayloadHasOneVerdict};

/// The frames of bytes are the ones that are computed, and what is left is what follows them.
pub fn frames_are_computed()
    ensures { FramesAreComputed }
{}

/// Bytes split into whole frames and less than a whole one.
pub fn bytes_split()
    ensures { BytesSplit }
{}

/// A datagram that is laid out as RTP is read so, and in no other way.
pub fn rtp_is_read_one_way()
    ensures { RtpIsReadOneWay }
{}

/// Bytes that are read as RTP are laid out so.
pub fn rtp_reads_as_laid_out()
    ensures { RtpReadsAsLaidOut }
{}

/// A payload that is laid out as a Main or a Body is read so, and in no other way.
pub fn payload_is_read_one_way()
    ensures { PayloadIsReadOneWay }
{}

/// Bytes that are read as a Main or a Body are laid out so.
pub fn payload_reads_as_laid_out()
    ensures { PayloadReadsAsLaidOut }
{}

/// A datagram is the one that is computed of its bytes.
pub fn datagram_is_computed()
    ensures { DatagramIsComputed }
{}

/// Bytes that pass for a well-formed datagram are one.
pub fn well_formed_is_datagram()
    ensures { WellFormedIsDatagram }
{}

/// What thinning keeps is what serves the receiver.
pub fn kept_is_within()
    ensures { KeptIsWithin }
{}

/// Of any bytes just one is true: they are an RTP datagram, or they have one of its faults.
pub fn rtp_has_one_verdict()
    ensures { RtpHasOneVerdict }
{}

/// Of any bytes just one is true: they are a payload, or they have one of its faults.
pub fn payload_has_one_verdict()
    ensures { PayloadHasOneVerdict }
{}
