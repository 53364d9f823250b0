//! The bytes of an input that were read and not given yet, in one buffer.
ghost use Rattle.std.specs.Prelude.{◌≡◌, ◌≤◌, ◌<◌, IfOk, ◌+◌, ◌-◌, [], length, vec_len, slice_range};
ghost use Rattle.codestream_model.specs.Bytes.{IsBytes};
ghost use Rattle.scl_outside.specs.Answers.{FitsBuffer, read_event};
ghost use Rattle.scl_outside.specs.Steps.{Step};
ghost use Rattle.codestream_walk.specs.InHand.{Widens, Probes, giving, end_of, input_limit};

use scl_outside::{Duct, ReadOut};
use std::alloc::{AllocError, Global};
use std::marker::Model;

/// The greatest number of bytes that are read of an input.
pub(crate) const INPUT_LIMIT: u64 = 1_099_511_627_776;

/// No item that is waited for has this many bytes: a main header has at most 8,192, a packet header with its EPH at most 65,538.
const LONGEST: usize = 65_538;

/// The buffer has room for the bytes of an item and as many more.
const ROOM: usize = 131_072;

/// The result of asking for more bytes.
#[derive(Clone, Copy, Debug, PartialEq, Eq)]
pub enum Wider {
    /// More bytes are in hand.
    Grown,
    /// The input is over.
    Ended,
    /// All bytes that may be read were, and one more came.
    Past,
    /// The read failed.
    Failed,
}

/// The bytes in hand are `from..to` of the buffer.
#[derive(Drop)]
pub struct Input {
    buf: Vec<u8>,
    /// How many bytes before `from` were given last.
    given: usize,
    from: usize,
    to: usize,
    /// How many bytes were read.
    read: u64,
}

impl Model for Input {
    ghost use Rattle.std.specs.Prelude.{◌≡◌, ◌≤◌, ◌-◌, vec_len};
    ghost use Rattle.codestream_walk.specs.InHand.{InHand, in_buffer};

    ghost Value = { InHand };

    ghost view = { λ i. in_buffer i.buf.items i.given i.from i.to i.read };

    ghost invariant = { λ i.
        (i.given ≤ i.from) × (i.from ≤ i.to) × (i.to ≤ 131072) × (vec_len i.buf ≡ 131072)
        × (i.to - i.from ≤ i.read) × (i.read ≤ 1099511627776) };
}

impl Input {
    /// At the start of an input. `AllocError` where there is no memory for the buffer.
    pub fn new(alloc: Global) -> Result<Input, AllocError>
        ensures { IfOk result (λ i. (i.given ≡ []) × (i.bytes ≡ []) × (i.offset ≡ 0)) }
    {
        Ok(Input {
            buf: vec![in alloc; 0u8; ROOM]?,
            given: 0,
            from: 0,
            to: 0,
            read: 0,
        })
    }

    /// The bytes in hand.
    pub fn bytes(&self) -> &[u8]
        ensures { result.now ≡ self.now.bytes }
    {
        &self.buf[self.from..self.to]
    }

    /// The bytes given last.
    pub fn given(&self) -> &[u8]
        ensures { result.now ≡ self.now.given }
    {
        &self.buf[self.from - self.given..self.from]
    }

    /// How many bytes are in hand.
    pub fn len(&self) -> usize
        ensures { result ≡ length self.now.bytes }
    {
        self.to - self.from
    }

    /// Proof only: no more bytes than the limit were read.
    pub fn within(&self)
        ensures { end_of self.now ≤ input_limit }
    {
        let _ = &self.buf;
    }

    /// The offset in the input of the first byte in hand.
    pub fn offset(&self) -> u64
        ensures offset { result ≡ self.now.offset }
        ensures within { end_of self.now ≤ input_limit }
    {
        self.read - (self.to - self.from) as u64
    }

    /// Gives the first `count` bytes in hand.
    pub fn give(&mut self, count: usize)
        requires { count ≤ length self.old.bytes }
        ensures { self.new ≡ giving count self.old }
    {
        self.given = count;
        self.from += count;
    }

    /// Asks for more bytes, by one read. The bytes given last are gone.
    pub fn more<D: Duct>(&mut self, duct: &mut D) -> Wider
        requires { length self.old.bytes < 65538 }
        ensures { Widens self.old (D.meaning duct.old) result self.new (D.meaning duct.new) }
    {
        let (from, to) = settled(&mut self.buf, self.from, self.to);
        self.given = 0;
        self.from = from;
        self.to = to;
        let left = INPUT_LIMIT - self.read;
        if left == 0 {
            return probe(duct);
        }
        let end = to + (ROOM - to).min(left as usize);
        match read_bytes(duct, &mut self.buf[to..end]) {
            ReadOut::Got(count) => {
                self.to = to + count;
                self.read += count as u64;
                Wider::Grown
            }
            ReadOut::End => Wider::Ended,
            ReadOut::Failed => Wider::Failed,
        }
    }
}

/// Moves the bytes of a range to the start of the buffer where they are far from it, so that there is room after
/// them. Returns the range that has them then.
fn settled(buf: &mut Vec<u8>, from: usize, to: usize) -> (usize, usize)
    requires range { from ≤ to }
    requires within { to ≤ 131072 }
    requires size { vec_len buf.old ≡ 131072 }
    requires few { to < from + 65538 }
    ensures same { slice_range buf.new.items result.0 result.1 ≡ slice_range buf.old.items from to }
    ensures range { result.1 ≡ result.0 + (to - from) }
    ensures room { result.1 < 131072 }
    ensures size { vec_len buf.new ≡ 131072 }
{
    if from == to {
        return (0, 0);
    }
    if from < ROOM - LONGEST {
        return (from, to);
    }
    buf.copy_within(from..to, 0);
    (0, to - from)
}

/// Asks for one byte, which isn't kept.
fn probe<D: Duct>(duct: &mut D) -> Wider
    ensures { Probes (D.meaning duct.old) result (D.meaning duct.new) }
{
    let mut byte = [0u8; 1];
    match read_bytes(duct, &mut byte) {
        ReadOut::Got(_) => Wider::Past,
        ReadOut::End => Wider::Ended,
        ReadOut::Failed => Wider::Failed,
    }
}

/// Reads into the buffer.
fn read_bytes<D: Duct>(duct: &mut D, buf: &mut [u8]) -> ReadOut
    requires { 0 < length buf.old }
    ensures fits { FitsBuffer result (length buf.old) }
    ensures step { Step (D.meaning duct.old) (read_event result buf.new) (D.meaning duct.new) }
    ensures are_bytes { IsBytes buf.new }
{
    let out = duct.read(buf);
    are_bytes(buf);
    out
}

/// Proof only: gives the caller `IsBytes`.
fn are_bytes(bytes: &[u8])
    ensures { IsBytes bytes.now }
{
    let _ = bytes;
}
