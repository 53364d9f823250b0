//! Forged captures: for each the precincts and the counts that the rules of window, decoder and
//! receiver give, worked out by hand.
//!
//! A capture is written as its frames. A frame is the index of a packet of the codestreams as they
//! were sent, after `n` where it has the next number, or the parts of a datagram, with `,` between
//! them; `@` and a place change the byte there. The first codestream has three precincts with the PIDs
//! 0, 1 and 2. Each packet is EF64 and 100 bytes of 11, 22 or 33, so that the packets start at 0, 102
//! and 204, and EOC at 306. The Body packets 1 to 4 have the bytes from 0, 90, 180 and 270 on, the
//! first three with a mark at the packet that starts there. In a datagram RTP takes the bytes 0 to 11,
//! a payload header 12 to 19: ORDB is in 13, ESEQ is 15, POS is in 16 and 17, PID in 17 to 19.
//!
//! A packet whose first bit is 0 is empty and has one byte, so each byte 00, 11, 22 or 64 that is read
//! as one gives a precinct without code-blocks.
use super::*;

/// A case: the window, the frames, the precincts that are wanted, and the six counts of the END line.
/// A precinct is its PID; with `-` where it has no code-block, with `/` and a PID where it has the one
/// that was sent for that PID, and after `3600:` where that is its stamp.
type Case = (u16, &'static str, &'static str, [u8; 6]);

/// The precincts as they were sent.
const ALL: &str = "0 1 2";

/// Each fault of RTP and of a payload, then another payload type and other sources, between the packets
/// 1 and 2. The number is that of packet 2, which would be old if one of these were kept.
const FAULTS: [Case; 19] = [
    // fewer than 12 bytes
    (16, "0 1 , 2 3 4", ALL, [5, 0, 1, 0, 0, 0]),
    (
        16,
        "0 1 8060000200000000000000 2 3 4",
        ALL,
        [5, 0, 1, 0, 0, 0],
    ),
    // version 1
    (16, "0 1 2@0=40 2 3 4", ALL, [5, 0, 1, 0, 0, 0]),
    // 15 CSRC take 60 bytes, and 59 follow
    (16, "0 1 r2,11*59@0=8F 2 3 4", ALL, [5, 0, 1, 0, 0, 0]),
    // an extension of 25 words, of which a byte is missing; one without its length
    (
        16,
        "0 1 r2,00000019,11*99@0=90 2 3 4",
        ALL,
        [5, 0, 1, 0, 0, 0],
    ),
    (16, "0 1 r2,000000@0=90 2 3 4", ALL, [5, 0, 1, 0, 0, 0]),
    // padding of no byte, of 10 where 9 follow the header, and where none does
    (16, "0 1 r2,07,00*8@0=A0 2 3 4", ALL, [5, 0, 1, 0, 0, 0]),
    (16, "0 1 r2,07,00*7,0A@0=A0 2 3 4", ALL, [5, 0, 1, 0, 0, 0]),
    (16, "0 1 r2@0=A0 2 3 4", ALL, [5, 0, 1, 0, 0, 0]),
    // 9,001 bytes
    (16, "0 1 r2,07,00*8988 2 3 4", ALL, [5, 0, 1, 0, 0, 0]),
    // a Body header of 7 bytes, and one of which padding takes all 8
    (16, "0 1 r2,07,00*6 2 3 4", ALL, [5, 0, 1, 0, 0, 0]),
    (16, "0 1 r2,07,00*7,09@0=A0 2 3 4", ALL, [5, 0, 1, 0, 0, 0]),
    // a Main with a word to skip, of 3 bytes
    (16, "0 1 r2,C410,00*9 2 3 4", ALL, [5, 0, 1, 0, 0, 0]),
    // a mark at the end of the codestream bytes, in the padding, and where there are none
    (16, "0 1 2@16=05@17=A0 2 3 4", ALL, [5, 0, 1, 0, 0, 0]),
    (
        16,
        "0 1 r2,0780000000C00001,11*12,000003@0=A0 2 3 4",
        ALL,
        [5, 0, 1, 0, 0, 0],
    ),
    (16, "0 1 r2,0780,00*6 2 3 4", ALL, [5, 0, 1, 0, 0, 0]),
    // payload type 97, SSRC 2, and a Main of SSRC 2
    (16, "0 1 2@1=61 2 3 4", ALL, [5, 0, 1, 0, 0, 0]),
    (16, "0 1 2@11=02 2 3 4", ALL, [5, 0, 1, 0, 0, 0]),
    (16, "0 1 0@3=02@11=02 2 3 4", ALL, [5, 0, 1, 0, 0, 0]),
];

/// What a header may have besides: nothing changes.
const OPTIONAL_PARTS: [Case; 5] = [
    // padding, which isn't payload
    (
        16,
        "0 1 r2,0780000000C00001,11*12,EF64,22*76,000003@0=A0 3 4",
        ALL,
        [5, 0, 0, 0, 0, 0],
    ),
    // two CSRC, and an extension of one word
    (
        16,
        "0 1 r2,09*8,00000001,09*4,0780000000C00001,11*12,EF64,22*76@0=92 3 4",
        ALL,
        [5, 0, 0, 0, 0, 0],
    ),
    // the marker bit of RTP
    (16, "0 1 2@1=E0 3 4", ALL, [5, 0, 0, 0, 0, 0]),
    // TP, QUAL and PTSTAMP, which aren't read
    (16, "0 1 2@12=3F@13=FF@14=FF 3 4", ALL, [5, 0, 0, 0, 0, 0]),
    // a Main with MH 1 and a word to skip
    (16, "r0,4410,00*6,09*4,t90 1 2 3 4", ALL, [5, 0, 0, 0, 0, 0]),
];

/// Both sides of each edge of a window.
const WINDOW_EDGES: [Case; 10] = [
    // 4 is 2 ahead of 2, the number that comes next: inside a window of 3, and past one of 2, where 2 is
    // given up and is old when it comes; the run ends there, and packet 3 begins one
    (3, "0 1 4 2 3", ALL, [5, 0, 0, 0, 0, 0]),
    (2, "0 1 4 2 3", "2", [4, 1, 0, 0, 0, 0]),
    // 2 is 1 ahead of 1: past a window of 1
    (1, "0 2 1 3 4", "1 2", [4, 1, 0, 0, 0, 0]),
    // 5 is 4 ahead of 1: inside a window of 5, and past one of 4, where 1 is given up and what is held
    // after it is given without a gap
    (5, "0 2 3 4 r5,07,00*7 1", ALL, [6, 0, 0, 0, 0, 0]),
    (4, "0 2 3 4 r5,07,00*7 1", "1 2", [5, 1, 0, 0, 0, 0]),
    // a repeat is old, both where the first is still held and where it was passed
    (16, "0 2 2 1 3 4", ALL, [5, 1, 0, 0, 0, 0]),
    (16, "0 1 1 2 3 4", ALL, [5, 1, 0, 0, 0, 0]),
    // what is below the first arrival is old, here the Main
    (16, "1 0 2 3 4", "", [4, 1, 0, 0, 0, 0]),
    // 2^23 + 4 is 2^23 - 1 ahead of 5; 2^23 + 5 is half of all numbers ahead, which is after
    (16, "0 1 2 3 4 r4,07,00*7@15=80", ALL, [6, 0, 0, 0, 0, 0]),
    (16, "0 1 2 3 4 r5,07,00*7@15=80", ALL, [5, 1, 0, 0, 0, 0]),
];

/// The first datagram that is well formed and of the payload type fixes the source.
const SOURCES: [Case; 2] = [
    // neither one of another payload type nor a malformed one does
    (
        16,
        "r0,07,00*7@1=61@11=02 r0,07,00*6@11=02 0 1 2 3 4",
        ALL,
        [5, 0, 2, 0, 0, 0],
    ),
    // a Body of SSRC 2 does
    (16, "r0,07,00*7@11=02 0 1 2 3 4", "", [1, 0, 5, 0, 0, 0]),
];

/// Two Mains of one stamp, Mains that aren't exactly one accepted header, and a Main without the Body
/// after it.
const MAINS: [Case; 7] = [
    // the second begins anew at the first precinct, which is written again
    (
        16,
        "0 r1,0780,00*6,EF64,11*100 0@3=02 r3,07,00*7,EF64,11*100,EF64,22*100,EF64,33*100",
        "0 0 1 2",
        [4, 0, 0, 0, 0, 0],
    ),
    // the second has two precincts: what follows them is dropped, and PID 2 is unknown
    (
        16,
        "0 r1,0780,00*6,EF64,11*100 0@3=02@31=02@47=02 \
         r3,07,00*7,EF64,11*100,EF64,22*100,EF64,33*100 r4,0780000000000002,00",
        "0 0 1",
        [5, 0, 0, 0, 1, 0],
    ),
    // the second has a byte too many: no header is in force from then on, the first one neither
    (
        16,
        "0 r1,0780,00*6,EF64,11*100 r2,C4,00*7,t90,00 \
         r3,07,00*7,EF64,11*100,EF64,22*100,EF64,33*100 r4,0780000000000002,00",
        "0",
        [5, 0, 0, 1, 0, 0],
    ),
    // a byte less, a byte more, and the progression order 4, which is refused
    (16, "r0,C4,00*7,t89 1 2 3 4", "", [5, 0, 0, 1, 0, 0]),
    (16, "r0,C4,00*7,t90,00 1 2 3 4", "", [5, 0, 0, 1, 0, 0]),
    (16, "0@80=04 1 2 3 4", "", [5, 0, 0, 1, 0, 0]),
    // number 1 is missing, so that the Main's run ends, and the Body after the gap has no mark
    (16, "0 r2,07,00*7,EF64,11*100", "", [2, 0, 0, 0, 0, 0]),
];

/// Bodies of another stamp, and one before any Main.
const STAMPS: [Case; 4] = [
    // a stray stamp drops the header and the run, so that no later mark has a header; its unknown PID isn't
    // counted
    (
        16,
        "0 1 r2,0780000000000003,00@7=09 n2 n3 n4",
        "",
        [6, 0, 0, 0, 0, 0],
    ),
    // an older stamp does so too, where its number is the next one
    (
        16,
        "0 r1,07,00*7,EF64,11*100,EF64,22*100,EF64,33*100 0@3=02@6=0E@7=10 \
         r3,0780,00*6,EF64,11*100 r4,0780,00*6,EF64,11*100@6=0E@7=10",
        ALL,
        [5, 0, 0, 0, 0, 0],
    ),
    // but not where its number was passed: then it is old
    (
        16,
        "0 r1,07,00*7,EF64,11*100,EF64,22*100,EF64,33*100 0@3=02@6=0E@7=10 \
         r1,07,00*7,EF64,11*100,EF64,22*100,EF64,33*100 r3,07,00*7,EF64,11*100@6=0E@7=10",
        "0 1 2 3600:0",
        [4, 1, 0, 0, 0, 0],
    ),
    // before any Main nothing happens, and an unknown PID isn't counted
    (
        16,
        "r0,0780000000000003,00 n0 n1 n2 n3 n4",
        ALL,
        [6, 0, 0, 0, 0, 0],
    ),
];

/// Marks at wrong places and with wrong PIDs in packet 2, whose right one is PID 1 at 12, and elsewhere.
const MARKS: [Case; 17] = [
    // 13: the packet of PID 0 ends before it. The one after isn't whole by then, so that a run begins at
    // 13, where 64 and 22 are the empty packets of PID 1 and 2, which end it; packet 3's mark begins one
    (16, "0 1 2@17=D0 3 4", "0 1- 2- 2", [5, 0, 0, 0, 1, 0]),
    // 11: the packet of PID 0 ends past it, so it isn't given. At 11 there is an empty packet of PID 1, and
    // that of the second precinct after it is read as PID 2
    (16, "0 1 2@17=B0 3 4", "1- 2/1 2", [5, 0, 0, 0, 1, 0]),
    // 0: it ends past it as well
    (16, "0 1 2@17=00 3 4", "1- 2- 2", [5, 0, 0, 0, 1, 0]),
    // 89, the last byte: the second packet isn't whole by then; PID 1 is there, and PID 2 is the first byte
    // of packet 3
    (16, "0 1 2@16=05@17=90 3 4", "0 1- 2- 2", [5, 0, 0, 0, 1, 0]),
    // PID 2: the second packet is read as its, and the run ends there
    (16, "0 1 2@19=02 3 4", "0 2/1 2", [5, 0, 0, 0, 1, 0]),
    // PID 0: the second packet is read as its, and packet 3's mark names another precinct than the next
    (16, "0 1 2@19=00 3 4", "0 0/1 2", [5, 0, 0, 0, 2, 0]),
    // unknown PIDs set no mark, and the run goes on, also that of the Main
    (16, "0 1 2@19=03 3 4", ALL, [5, 0, 0, 0, 1, 0]),
    (16, "0 1 2@17=CF@18=FF@19=FF 3 4", ALL, [5, 0, 0, 0, 1, 0]),
    (16, "0 1@19=03 2 3 4", ALL, [5, 0, 0, 0, 1, 0]),
    // with ORDB 0 neither POS nor PID is read
    (
        16,
        "0 1 2 3 4@16=FF@17=FF@18=FF@19=FF",
        ALL,
        [5, 0, 0, 0, 0, 0],
    ),
    // a Body without codestream bytes is no gap
    (16, "0 1 r2,07,00*7 n2 n3 n4", ALL, [6, 0, 0, 0, 0, 0]),
    // a mark after the last precinct begins a run, with which nothing disagrees
    (
        16,
        "0 r1,0780000000500001,000000FFD90000",
        "0- 1- 2- 1- 2-",
        [2, 0, 0, 0, 0, 0],
    ),
    // two empty packets up to a mark that names the third precinct
    (
        16,
        "0 r1,0780000000200002,000000",
        "0- 1- 2-",
        [2, 0, 0, 0, 0, 0],
    ),
    // the packet C880 and 2 bytes ends past a mark at 3
    (
        16,
        "0 r1,0780000000300001,C880,00*4",
        "1- 2-",
        [2, 0, 0, 0, 1, 0],
    ),
    // it isn't whole, and at the mark at 1 the packet 80 has no code-block
    (16, "0 r1,0780000000100001,C880", "1-", [2, 0, 0, 0, 1, 0]),
    // a byte after FF has its top bit set: that these are no packet counts before the mark at 1 does, and
    // there FF begins with a wrong code of passes
    (
        16,
        "0 r1,0780000000100001,EFFF800000",
        "",
        [2, 0, 0, 0, 0, 2],
    ),
    // a cleanup length of 0: the same, and at the mark there are two empty packets
    (
        16,
        "0 r1,0780000000100001,EE0000",
        "1- 2-",
        [2, 0, 0, 0, 0, 1],
    ),
];

/// Bytes after the Main that can't be a packet, each beside the nearest that may become one.
const PACKETS: [Case; 14] = [
    // passes 1101, and 1100
    (16, "0 r1,07,00*7,FA", "", [2, 0, 0, 0, 0, 1]),
    (16, "0 r1,07,00*7,F9", "", [2, 0, 0, 0, 0, 0]),
    // after FF a byte with its top bit set, and without it
    (16, "0 r1,07,00*7,EFFF80", "", [2, 0, 0, 0, 0, 1]),
    (16, "0 r1,07,00*7,EFFF00", "", [2, 0, 0, 0, 0, 0]),
    // the 75th zero before the one of the missing bit-planes, and the 70th
    (16, "0 r1,07,00*7,C0,00*9", "", [2, 0, 0, 0, 0, 1]),
    (16, "0 r1,07,00*7,C0,00*8", "", [2, 0, 0, 0, 0, 0]),
    // 22 ones of Lblock: 4, 8, 7 and 3 of them; and 21
    (16, "0 r1,07,00*7,EFFF7FE0", "", [2, 0, 0, 0, 0, 1]),
    (16, "0 r1,07,00*7,EFFF7FC0", "", [2, 0, 0, 0, 0, 0]),
    // a cleanup length of 1 in 3 bits, and of 2
    (16, "0 r1,07,00*7,E1", "", [2, 0, 0, 0, 0, 1]),
    (16, "0 r1,07,00*7,E2", "", [2, 0, 0, 0, 0, 0]),
    // 13 ones of Lblock, then a cleanup length of 65,535 in 16 bits, and of 65,534
    (16, "0 r1,07,00*7,EFFF5FFF70", "", [2, 0, 0, 0, 0, 1]),
    (16, "0 r1,07,00*7,EFFF5FFF60", "", [2, 0, 0, 0, 0, 0]),
    // two passes, 8 ones of Lblock, a cleanup length of 2 in 11 bits, then a refinement length of 2,047 in
    // as many, and of 2,046
    (16, "0 r1,07,00*7,F7F8017FF0", "", [2, 0, 0, 0, 0, 1]),
    (16, "0 r1,07,00*7,F7F8017FE0", "", [2, 0, 0, 0, 0, 0]),
];

/// A packet in the middle that can't be one, a gap inside one, and a precinct of too many code-blocks.
const RUNS: [Case; 5] = [
    // the second packet begins with a wrong code of passes, and packet 3 begins a new run
    (16, "0 1 2@32=FA 3 4", "0 2", [5, 0, 0, 0, 0, 1]),
    // number 2 is missing between the parts of the first packet, and the later one has no mark
    (16, "0 1 2@3=03@13=00", "", [3, 0, 0, 0, 0, 0]),
    // 257 by 256 code-blocks are too many, once a byte is there; 256 by 256 are not
    (
        16,
        "r0,C4,00*7,o@30=04@31=04@34=04@35=00@46=04@47=04@50=04@51=00@85=00@86=00",
        "",
        [1, 0, 0, 0, 0, 0],
    ),
    (
        16,
        "r0,C4,00*7,o@30=04@31=04@34=04@35=00@46=04@47=04@50=04@51=00@85=00@86=00 r1,07,00*8",
        "",
        [2, 0, 0, 0, 0, 1],
    ),
    (
        16,
        "r0,C4,00*7,o@30=04@31=00@34=04@35=00@46=04@47=00@50=04@51=00@85=00@86=00 r1,07,00*8",
        "0-",
        [2, 0, 0, 0, 0, 0],
    ),
];

/// Appends bytes in hexadecimal digits, as often as the number after `*` says.
fn push_hex(datagram: &mut Vec<u8>, text: &str) -> Result<(), Fail> {
    let (digits, times) = text.split_once('*').unwrap_or((text, "1"));
    for _ in 0..times.parse::<u16>()? {
        let mut rest = digits;
        for _ in 0..digits.len() / 2 {
            let (byte, more) = rest.split_at_checked(2).ok_or("half a byte")?;
            datagram.push(u8::from_str_radix(byte, 16)?)?;
            rest = more;
        }
    }
    Ok(())
}

/// Appends a part of a datagram: RTP's header with the number after `r`, n bytes of the main
/// header of three samples as are after `t`, `o` for that of one sample, or bytes.
fn push_part(datagram: &mut Vec<u8>, part: &str) -> Result<(), Fail> {
    if let Some(number) = part.strip_prefix('r') {
        let number: u8 = number.parse()?;
        datagram.extend_from_slice(&[0x80, 0x60, 0, number, 0, 0, 0, 0, 0, 0, 0, 1])?;
    } else if let Some(size) = part.strip_prefix('t') {
        let size: usize = size.parse()?;
        datagram.extend_from_slice(THREE_SAMPLES.get(..size).ok_or("too long")?)?;
    } else if part == "o" {
        datagram.extend_from_slice(&ONE_SAMPLE[22..111])?;
    } else {
        push_hex(datagram, part)?;
    }
    Ok(())
}

/// Appends a frame without its changes.
fn push_base(alloc: Global, capture: &mut Vec<u8>, base: &str) -> Result<(), Fail> {
    if let Ok(index) = base.parse() {
        push_frame(capture, 0, index)?;
        return Ok(());
    }
    if let Some(index) = base.strip_prefix('n') {
        push_frame(capture, 1, index.parse()?)?;
        return Ok(());
    }
    let mut datagram = Vec::new(alloc);
    for part in base.split(',') {
        push_part(&mut datagram, part)?;
    }
    let len = (datagram.len() % 65_536) as u16;
    capture.extend_from_slice(&len.to_be_bytes())?;
    capture.extend_from_slice(&datagram)?;
    Ok(())
}

/// Appends a frame.
fn push(alloc: Global, capture: &mut Vec<u8>, frame: &str) -> Result<(), Fail> {
    let start = capture.len();
    let mut pieces = frame.split('@');
    push_base(alloc, capture, pieces.next().ok_or("no frame")?)?;
    for piece in pieces {
        let (at, byte) = piece.split_once('=').ok_or("no byte")?;
        let place = start.checked_add(usize::from(at.parse::<u16>()?) + 2);
        let place = capture
            .get_mut(place.ok_or("too far")?)
            .ok_or("past the end")?;
        *place = u8::from_str_radix(byte, 16)?;
    }
    Ok(())
}

/// The line of a precinct.
fn line_in(text: &str) -> Result<Line, Fail> {
    if let Some(pid) = text.strip_prefix("3600:") {
        return Ok(Line::Sent(3600, pid.parse()?));
    }
    if let Some(pid) = text.strip_suffix('-') {
        return Ok(Line::Empty(0, pid.parse()?));
    }
    if let Some((pid, other)) = text.split_once('/') {
        return Ok(Line::Other(0, pid.parse()?, other.parse()?));
    }
    Ok(Line::Sent(0, text.parse()?))
}

/// Appends the END line with these counts, each below 10.
fn push_end(text: &mut Vec<u8>, counts: [u8; 6]) -> Result<(), AllocError> {
    let names: [&[u8]; 6] = [
        b"END kept=",
        b" old=",
        b" refused=",
        b" unsupported=",
        b" disagreed=",
        b" broken=",
    ];
    for i in 0..6 {
        text.extend_from_slice(names[i])?;
        text.extend_from_slice(&[b'0' + counts[i] % 10])?;
    }
    text.extend_from_slice(b"\n")
}

/// Reports each capture.
fn reports_cases(rt: &impl Abort, alloc: Global, cases: &[Case]) -> Result<(), Fail> {
    for (window, frames, lines, counts) in cases {
        let mut capture = Vec::new(alloc);
        for frame in frames.split_whitespace() {
            push(alloc, &mut capture, frame)?;
        }
        let mut wanted = Vec::new(alloc);
        for line in lines.split_whitespace() {
            push_line(&mut wanted, line_in(line)?)?;
        }
        push_end(&mut wanted, *counts)?;
        writes(rt, alloc, *window, &capture, &wanted)?;
    }
    Ok(())
}

#[test]
fn forged_captures_are_read_by_the_rules(rt: HostRuntime) -> Result<(), Fail> {
    let alloc = rt.alloc();
    reports_cases(&rt, alloc, &FAULTS)?;
    reports_cases(&rt, alloc, &OPTIONAL_PARTS)?;
    reports_cases(&rt, alloc, &WINDOW_EDGES)?;
    reports_cases(&rt, alloc, &SOURCES)?;
    reports_cases(&rt, alloc, &MAINS)?;
    reports_cases(&rt, alloc, &STAMPS)?;
    reports_cases(&rt, alloc, &MARKS)?;
    reports_cases(&rt, alloc, &PACKETS)?;
    reports_cases(&rt, alloc, &RUNS)?;
    Ok(())
}
