//! Which stream a receiver picks, and what it counts.

/// The stream that is picked, and the size of the window.
#[derive(Clone, Copy, Debug, PartialEq, Eq)]
pub struct Pick {
    /// The RTP payload type, at most 127.
    pub kind: u8,
    /// The SSRC; None picks that of the first datagram that passes all other checks.
    pub source: Option<u32>,
    /// The size of the reassembly window, 1 to 16,384.
    pub window: u16,
}

/// What a receiver has counted. Each count stays at 2^64 - 1 once it is there.
#[derive(Clone, Copy, Debug, PartialEq, Eq)]
pub struct Tally {
    /// The datagrams that the window kept.
    pub kept: u64,
    /// The datagrams that came again or too late.
    pub old: u64,
    /// The frames that aren't datagrams of the stream.
    pub refused: u64,
    /// The Main packets whose bytes aren't one accepted main header.
    pub unsupported: u64,
    /// The marks that the packets before them don't meet, and the PIDs that no precinct has.
    pub disagreed: u64,
    /// The runs that ended at bytes which are no packet.
    pub broken: u64,
}
