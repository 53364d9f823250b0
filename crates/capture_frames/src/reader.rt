//! A frame at a time.
ghost use Rattle.std.specs.Prelude.{◌≡◌, ◌≤◌, ◌<◌, ◌+◌, ◌-◌, ◌*◌, ◌^◌, List, length, slice_index, true};
ghost use Rattle.scl_outside.specs.Events.{Event};
ghost use Rattle.capture_frames.specs.Reading.{ReadsFrame, answer_for, state_after, body_length, start, left_at};

use crate::filling::{Fetched, fetch};
use scl_outside::Duct;
use std::marker::Model;

/// The most bytes of a capture that are read.
const INPUT_LIMIT: u64 = 1_099_511_627_776;

/// The longest datagram that is kept.
const DATAGRAM_LIMIT: usize = 9000;

/// What came of reading a frame.
#[derive(Clone, Copy, Debug, PartialEq, Eq)]
pub enum FrameOut {
    /// A frame of n bytes, 1 to 9,000, is at the front of the buffer.
    Whole(usize),
    /// A frame of no bytes.
    Empty,
    /// A frame of n bytes, more than 9,000, was read and dropped.
    Oversize(u16),
    /// The input ended at a frame's start.
    End,
    /// The input ended inside the frame that starts at this offset.
    Cut(u64),
    /// 1,099,511,627,776 bytes were read and one more came.
    TooLong,
    /// A read failed in this call.
    ReadFault,
}

/// The reader of a capture's frames, which knows how far it has come.
#[derive(Drop)]
pub struct Frames {
    offset: u64,
    live: bool,
}

impl Model for Frames {
    ghost use Rattle.std.specs.Prelude.{◌≤◌};
    ghost use Rattle.capture_frames.specs.FramesState.{FramesState};

    ghost Value = { FramesState };

    ghost view = { λ f. record { offset = f.offset; live = f.live } };

    ghost invariant = { λ f. f.offset ≤ 1099511627776 };
}

impl Frames {
    /// A reader at the start of a capture.
    pub fn new() -> Frames
        ensures { result ≡ start }
    {
        Frames {
            offset: 0,
            live: true,
        }
    }

    /// Whether another frame may be asked for: no call before has met the capture's end, a refusal or a fault.
    pub fn live(&self) -> bool
        ensures { result ≡ self.now.live }
    {
        self.live
    }

    /// Reads the next frame, and no byte past it. After `End`, `Cut`, `TooLong` and `ReadFault` nothing more may be
    /// asked for.
    pub fn next<D: Duct>(&mut self, duct: &mut D, buf: &mut [u8; 9000]) -> FrameOut
        requires { self.old.live ≡ true }
        ensures frame { (es : List Event) × ReadsFrame self.old.offset (D.meaning duct.old) (D.meaning duct.new) result buf.new es }
        ensures state { self.new ≡ state_after self.old result }
        ensures within { self.new.offset ≤ 1099511627776 }
    {
        let out = read_frame(duct, self.offset, buf);
        match out {
            FrameOut::Whole(len) => self.offset += 2 + len as u64,
            FrameOut::Empty => self.offset += 2,
            FrameOut::Oversize(len) => self.offset += 2 + u64::from(len),
            FrameOut::End | FrameOut::Cut(_) | FrameOut::TooLong | FrameOut::ReadFault => {
                self.live = false;
            }
        }
        out
    }
}

/// The answer for a whole frame of this length.
fn answer(len: u16) -> FrameOut
    ensures { result ≡ answer_for len }
{
    if len == 0 {
        FrameOut::Empty
    } else if usize::from(len) <= DATAGRAM_LIMIT {
        FrameOut::Whole(usize::from(len))
    } else {
        FrameOut::Oversize(len)
    }
}

/// The length that two bytes spell.
fn length_of(head: [u8; 2]) -> u16
    ensures length { result ≡ body_length head }
    ensures low { slice_index head 1 < 256 }
{
    u16::from(head[0]) * 256 + u16::from(head[1])
}

/// Reads the frame that starts at this offset.
fn read_frame<D: Duct>(duct: &mut D, offset: u64, buf: &mut [u8; 9000]) -> FrameOut
    requires { offset ≤ 1099511627776 }
    ensures { (es : List Event) × ReadsFrame offset (D.meaning duct.old) (D.meaning duct.new) result buf.new es }
{
    let left = INPUT_LIMIT - offset;
    let mut head = [0u8; 2];
    match fetch(duct, 2, left, &mut head) {
        Fetched::All => {}
        Fetched::Short(0) => return FrameOut::End,
        Fetched::Short(_) => return FrameOut::Cut(offset),
        Fetched::Past => return FrameOut::TooLong,
        Fetched::Failed => return FrameOut::ReadFault,
    }
    let len = length_of(head);
    match fetch(duct, usize::from(len), left - 2, buf) {
        Fetched::All => answer(len),
        Fetched::Short(_) => FrameOut::Cut(offset),
        Fetched::Past => FrameOut::TooLong,
        Fetched::Failed => FrameOut::ReadFault,
    }
}
