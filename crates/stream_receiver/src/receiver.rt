//! The receiver: each datagram is offered to the window, and steps decode what the window hands on.
ghost use Rattle.std.specs.Prelude.{◌≡◌, ◌≤◌, ◌<◌, ◌+◌, ◌-◌, ◌^◌, IfOk, IsSome, Some, None, true, [], length, option_map};
ghost use Rattle.std.specs.Option.{ForSome};
ghost use Rattle.stream_model.specs.Decoder.{one_more};
ghost use Rattle.stream_model.specs.Receiver.{flushed, counts_of, is_source};
ghost use Rattle.stream_model.specs.Window.{next as handed_on, make_all_due};
ghost use Rattle.stream_model.specs.DrainLaws.{IsWindow};
ghost use Rattle.resync_decoder.specs.States.{precinct_of, header_in};
ghost use Rattle.stream_receiver.specs.States.{new_state, pick_of, counted, followed_by, rest, tally_of};
ghost use Rattle.stream_receiver.specs.States.{Answers, after_offer, Offers, StepsTo, Settles, Advances};

use crate::datagram::{DatagramFault, decode, read_datagram};
use crate::pick::{Pick, Tally};
use packet_header::Precinct;
use reassembly_window::{Offer, Slot, Window};
use resync_decoder::Decoder;
use std::alloc::{AllocError, Global};
use std::marker::Model;

/// What became of an offered frame.
#[derive(Clone, Copy, Debug, PartialEq, Eq)]
pub enum Taken {
    /// The window holds it.
    Kept,
    /// A datagram of its number is held already, or it came too late.
    Old,
    /// It is too far ahead of the window. Where nothing was due before, it is kept when it is
    /// offered again after `step` has answered `Idle`, before any other.
    Drain,
    /// It isn't a datagram of the stream that is picked.
    Refused(DatagramFault),
}

/// What a step did.
#[derive(Clone, Copy, Debug, PartialEq, Eq)]
pub enum Stepped {
    /// A precinct is complete, and `released` lends it.
    Ready,
    /// The decoder has no whole packet, and the window hands nothing on.
    Idle,
}

/// A receiver of one stream.
#[derive(Drop)]
pub struct Receiver {
    pick: Pick,
    /// The SSRC that is picked by now.
    source: Option<u32>,
    window: Window,
    decoder: Decoder,
    /// Whether the decoder's rules were followed since the window handed on the last datagram.
    settled: bool,
    kept: u64,
    late: u64,
    refused: u64,
}

impl Model for Receiver {
    ghost use Rattle.stream_receiver.specs.States.{ReceiverState};

    ghost Value = { ReceiverState };

    ghost use Rattle.stream_receiver.specs.Views.{state_of, IsSound};

    ghost view = { λ r. state_of r };

    ghost invariant = { λ r. IsSound r };
}

impl Receiver {
    /// A receiver of the stream that is picked. All its memory is taken here.
    pub fn new(alloc: Global, pick: Pick) -> Result<Receiver, AllocError>
        requires some { 1 ≤ pick.window }
        requires few { pick.window ≤ 16384 }
        ensures { IfOk result (λ r. r ≡ new_state (pick_of pick)) }
    {
        let window = Window::new(alloc, pick.window)?;
        let decoder = Decoder::new(alloc)?;
        Ok(Receiver {
            pick,
            source: pick.source,
            window,
            decoder,
            settled: true,
            kept: 0,
            late: 0,
            refused: 0,
        })
    }

    /// Offers a frame of any bytes. `Refused`, by the first of the faults in their order, and `Old`
    /// change the tally alone. With no SSRC picked, the first datagram that passes the four checks
    /// before it fixes it.
    pub fn offer(&mut self, bytes: &[u8]) -> Taken
        ensures answer { Answers self.old.pick self.old.rules bytes.now result }
        ensures state { self.new ≡ after_offer self.old bytes.now result }
        ensures takes { counted self.old.rules < 2 ^ 64 - 1 → Offers self.old bytes.now result self.new }
    {
        let read = match read_datagram(self.pick.kind, bytes) {
            Ok(read) => read,
            Err(fault) => {
                self.refuse();
                return Taken::Refused(fault);
            }
        };
        if !self.is_source(read.source) {
            self.refuse();
            return Taken::Refused(DatagramFault::Source);
        }
        self.source = Some(read.source);
        match self.window.offer(read.number, bytes) {
            Offer::Kept => {
                self.kept = self.kept.saturating_add(1);
                Taken::Kept
            }
            Offer::Again => {
                self.late = self.late.saturating_add(1);
                Taken::Old
            }
            Offer::Behind => {
                self.late = self.late.saturating_add(1);
                Taken::Old
            }
            Offer::Drain => Taken::Drain,
        }
    }

    /// Counts one refused frame.
    pub fn refuse(&mut self)
        ensures { self.new ≡ record self.old {
          rules = record self.old.rules { refused = one_more self.old.rules.refused };
        } }
    {
        self.refused = self.refused.saturating_add(1);
    }

    /// Goes on to the next precinct that is due.
    pub fn step(&mut self) -> Stepped
        ensures rules { StepsTo self.old result self.new }
        ensures fresh { self.new.rules.releases ≡ [] }
        ensures pick { self.new.pick ≡ self.old.pick }
    {
        loop {
            if self.settle() {
                self.is_near();
                return Stepped::Ready;
            }
            self.is_near();
            if !self.advance() {
                self.is_near();
                return Stepped::Idle;
            }
        }
    }

    /// The precinct that the last `step` gave, until the next call. That `step` answered `Ready`.
    pub fn released(&self) -> Precinct<'_>
        requires { IsSome self.now.given }
        ensures { option_map (λ x. x.precinct) self.now.given ≡ Some (precinct_of result) }
    {
        let Some(stamp) = self.decoder.stamp() else {
            unreachable!()
        };
        self.decoder.released(stamp)
    }

    /// All bytes of the packet of the precinct that the last `step` gave, those of its header and
    /// then of its segments, until the next call. That `step` answered `Ready`.
    pub fn raw(&self) -> &[u8]
        requires { IsSome self.now.given }
        ensures { option_map (λ x. x.raw) self.now.given ≡ Some result.now }
    {
        self.decoder.raw()
    }

    /// The bytes of the main header in force, under which a precinct is given; None where there is
    /// none.
    pub fn head(&self) -> Option<&[u8]>
        ensures head { option_map (λ b. b.now) result ≡ header_in self.now.rules.decoder.current }
        ensures given { ForSome self.now.given
            (λ x. header_in self.now.rules.decoder.current ≡ Some x.header) }
    {
        self.decoder.head()
    }

    /// The number of Main packets whose bytes were exactly one accepted main header. It stays at
    /// 2^64 - 1.
    pub fn heads(&self) -> u64
        ensures heads { result ≡ self.now.rules.decoder.heads }
        ensures given { ForSome self.now.given (λ x. x.heads ≡ result) }
    {
        self.decoder.heads()
    }

    /// Makes all numbers due up to the highest that is held. The steps that follow give what is
    /// left.
    pub fn flush(&mut self)
        ensures state { self.new ≡ record self.old {
          rules = record self.old.rules {
            window = make_all_due self.old.rules.window self.old.rules.window.base;
          };
        } }
        ensures rest { rest self.new ≡ flushed (followed_by self.old.settled self.old.rules) }
    {
        self.window.flush();
    }

    /// What was counted.
    pub fn tally(&self) -> Tally
        ensures { result ≡ tally_of (counts_of self.now.rules) }
    {
        Tally {
            kept: self.kept,
            old: self.late,
            refused: self.refused,
            unsupported: self.decoder.unsupported(),
            disagreed: self.decoder.disagreed(),
            broken: self.decoder.broken(),
        }
    }

    /// Proof only: what the window holds is near its base.
    fn is_near(&self)
        ensures near { IsWindow self.now.pick.window self.now.rules.window self.now.rules.window.base }
        ensures fresh { self.now.rules.releases ≡ [] }
    {
        let _ = &self.pick;
    }

    /// Whether an SSRC is the one that is picked, or none is picked yet.
    fn is_source(&self, source: u32) -> bool
        ensures { result ≡ is_source self.now.rules.source source }
    {
        match self.source {
            None => true,
            Some(picked) => picked == source,
        }
    }

    /// Follows the decoder's rules up to a precinct, which is true, or until they wait.
    fn settle(&mut self) -> bool
        ensures rules { Settles self.old result self.new }
        ensures pick { self.new.pick ≡ self.old.pick }
    {
        if self.settled {
            return false;
        }
        if self.decoder.step() {
            return true;
        }
        self.settled = true;
        false
    }

    /// Gives the decoder what the window hands on; false where it hands nothing on.
    fn advance(&mut self) -> bool
        requires { self.old.settled ≡ true }
        ensures rules { Advances (handed_on self.old.rules.window self.old.rules.window.base) self.old result self.new }
        ensures pick { self.new.pick ≡ self.old.pick }
    {
        match self.window.next() {
            None => return false,
            Some(Slot::Gap(_, _)) => self.decoder.gap(),
            Some(Slot::Held(_)) => {
                self.settled = false;
                decode(self.pick.kind, self.window.bytes(), &mut self.decoder);
            }
        }
        true
    }
}
