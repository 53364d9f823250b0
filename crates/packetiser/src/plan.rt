//! What a sender is asked for.
ghost use Rattle.std.specs.Prelude.{◌≡◌, ◌≤◌, ◌<◌, ◌+◌, ◌-◌, ◌%◌, ◌^◌, IsNone, IfSome};
ghost use Rattle.stream_model.specs.Cut.{IsPlan, room, number_at};
ghost use Rattle.packetiser.specs.Plans.{plan_with};

use std::marker::Model;

/// How datagrams are cut, and the values of their headers.
#[derive(Drop)]
pub struct PackPlan {
    mtu: u16,
    split: bool,
    kind: u8,
    source: u32,
    number: u32,
    stamp: u32,
    step: u16,
}

impl Model for PackPlan {
    ghost use Rattle.stream_model.specs.Cut.{Plan, IsPlan};
    ghost use Rattle.packetiser.specs.Plans.{plan_with};

    ghost Value = { Plan };

    ghost view = { λ p. plan_with p.mtu p.split p.kind p.source p.number p.stamp p.step };

    ghost invariant = { λ p. IsPlan (plan_with p.mtu p.split p.kind p.source p.number p.stamp p.step) };
}

/// The bytes before the codestream bytes of a datagram: 12 of RTP (RFC 3550 section 5.1) and 8 of the payload header.
const HEADERS: u16 = 20;

/// The extended numbers have 24 bits.
const NUMBERS: u32 = 16_777_216;

impl PackPlan {
    /// A plan: `mtu`, the size in bytes of the greatest datagram, 64 to 4,116; `split`, whether a change of resolution
    /// ends a payload; `kind`, the payload type, at most 127; `source`, the SSRC; `number`, the extended number of the
    /// first datagram, below 2^24; `stamp`, the timestamp of the first codestream; and `step`, at least 1, how much
    /// greater the timestamp of each further one is. `None` exactly where a value is outside its range.
    pub fn new(
        mtu: u16,
        split: bool,
        kind: u8,
        source: u32,
        number: u32,
        stamp: u32,
        step: u16,
    ) -> Option<PackPlan>
        ensures some { IfSome result (λ p. p ≡ plan_with mtu split kind source number stamp step) }
        ensures is_plan { IfSome result (λ p. IsPlan p) }
        ensures none { IsNone result → IsPlan (plan_with mtu split kind source number stamp step) → ⊥ }
    {
        if mtu < 64 || mtu > 4116 || kind > 127 || number >= NUMBERS || step == 0 {
            return None;
        }
        Some(PackPlan {
            mtu,
            split,
            kind,
            source,
            number,
            stamp,
            step,
        })
    }

    /// Proof only: gives the caller `IsPlan`.
    pub fn is_plan(&self)
        ensures { IsPlan self.now }
    {
        let _ = &self.mtu;
    }

    /// How many codestream bytes a datagram has room for.
    pub(crate) fn room(&self) -> usize
        ensures room { result ≡ room self.now }
        ensures some { 44 ≤ result }
        ensures few { result ≤ 4096 }
    {
        usize::from(self.mtu - HEADERS)
    }

    /// Whether a change of resolution ends a payload.
    pub(crate) fn split(&self) -> bool
        ensures { result ≡ self.now.split }
    {
        self.split
    }

    /// The payload type.
    pub(crate) fn kind(&self) -> u8
        ensures kind { result ≡ self.now.kind }
        ensures few { result < 128 }
    {
        self.kind
    }

    /// The SSRC.
    pub(crate) fn source(&self) -> u32
        ensures { result ≡ self.now.source }
    {
        self.source
    }

    /// The extended number of the datagram at a position of the stream.
    pub(crate) fn number_at(&self, position: u32) -> u32
        requires { position < 8388608 }
        ensures number { result ≡ number_at self.now position }
        ensures few { result < 16777216 }
    {
        (self.number + position) % NUMBERS
    }

    /// The timestamp of the first codestream.
    pub(crate) fn stamp(&self) -> u32
        ensures { result ≡ self.now.stamp }
    {
        self.stamp
    }

    /// The timestamp after this one.
    pub(crate) fn next_stamp(&self, stamp: u32) -> u32
        ensures { result ≡ (stamp + self.now.step) % 2 ^ 32 }
    {
        stamp.wrapping_add(u32::from(self.step))
    }
}
