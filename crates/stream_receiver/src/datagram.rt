//! A frame read as a datagram, and the decoder's part of it.
ghost use Rattle.std.specs.Prelude.{◌≡◌, true};
ghost use Rattle.stream_model.specs.Arrivals.{is_of_kind};
ghost use Rattle.stream_model.specs.Receiver.{decoded};
ghost use Rattle.stream_model.specs.Stream.{eseq_of};
ghost use Rattle.wire_model.specs.Datagram.{datagram_of};
ghost use Rattle.scl_payload.specs.Heads.{fields_of};
ghost use Rattle.stream_receiver.specs.Datagrams.{Reads};

use resync_decoder::Decoder;
use rtp_header::{RtpFault, read_rtp};
use scl_payload::{Payload, PayloadFault, extended, read_payload};

/// Why a frame is refused, in the order in which it is judged.
#[derive(Clone, Copy, Debug, PartialEq, Eq)]
pub enum DatagramFault {
    /// It has more than 9,000 bytes.
    Oversize,
    /// It isn't an RTP packet (RFC 3550 section 5.1).
    Rtp(RtpFault),
    /// Its payload type isn't the one that is picked.
    Kind,
    /// Its payload isn't a Main or Body packet.
    Payload(PayloadFault),
    /// Its SSRC isn't the one that is picked.
    Source,
}

/// The greatest number of bytes of a datagram.
const MOST_BYTES: usize = 9_000;

/// What a receiver needs of a datagram.
#[derive(Clone, Copy)]
pub struct Read<'a> {
    pub stamp: u32,
    pub source: u32,
    /// The extended number: ESEQ and the RTP sequence number.
    pub number: u32,
    pub payload: Payload,
    pub codestream: &'a [u8],
}

/// Reads a frame as a datagram of this payload type; the first fault in the order of
/// [`DatagramFault`], but for `Source`.
pub fn read_datagram(kind: u8, bytes: &[u8]) -> Result<Read<'_>, DatagramFault>
    ensures { Reads kind bytes.now result }
{
    if bytes.len() > MOST_BYTES {
        return Err(DatagramFault::Oversize);
    }
    let rtp = match read_rtp(bytes) {
        Ok(rtp) => rtp,
        Err(fault) => return Err(DatagramFault::Rtp(fault)),
    };
    if rtp.kind != kind {
        return Err(DatagramFault::Kind);
    }
    let body = &bytes[rtp.body_from..rtp.body_to];
    match read_payload(body) {
        Ok((payload, start)) => Ok(Read {
            stamp: rtp.stamp,
            source: rtp.source,
            number: extended(eseq(&payload), rtp.number),
            payload,
            codestream: &body[start..],
        }),
        Err(fault) => Err(DatagramFault::Payload(fault)),
    }
}

/// Gives the decoder a datagram of this payload type.
pub fn decode(kind: u8, bytes: &[u8], decoder: &mut Decoder)
    requires kind { is_of_kind kind bytes.now ≡ true }
    requires waits { decoder.old.waits ≡ true }
    ensures { decoder.new.rules
        ≡ decoded decoder.old.rules (datagram_of bytes.now) (datagram_of bytes.now).payload }
{
    let Ok(read) = read_datagram(kind, bytes) else {
        unreachable!()
    };
    match read.payload {
        Payload::Main(_) => {
            let _ = decoder.main(read.stamp, read.number, read.codestream);
        }
        Payload::Body(head) => decoder.body(read.stamp, read.number, &head, read.codestream),
    }
}

/// ESEQ, the high part of the extended number.
fn eseq(payload: &Payload) -> u8
    ensures { result ≡ eseq_of (fields_of payload.now) }
{
    match payload {
        Payload::Main(head) => head.eseq,
        Payload::Body(head) => head.eseq,
    }
}
