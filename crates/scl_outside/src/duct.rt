//! A way in, a way out and a line to the user.
ghost use Rattle.std.specs.Prelude.{◌<◌, length};
ghost use Rattle.wire_model.specs.Bytes.{IsBytes};
ghost use Rattle.scl_outside.specs.Meaning.{Meaning};
ghost use Rattle.scl_outside.specs.Events.{Noted};
ghost use Rattle.scl_outside.specs.Steps.{Step};
ghost use Rattle.scl_outside.specs.Answers.{FitsBuffer, Writes, read_event};

/// How far an object was before a call that asks for input: the numbers of bytes read, datagrams received,
/// bytes written and datagrams sent by then.
#[derive(Clone, Copy, Debug, PartialEq, Eq)]
pub struct Mark {
    pub read: u64,
    pub received: u64,
    pub written: u64,
    pub sent: u64,
}

/// The answer of a read.
#[derive(Clone, Copy, Debug, PartialEq, Eq)]
pub enum ReadOut {
    /// This number of bytes, at least one, are at the front of the buffer: the next of the input.
    Got(usize),
    /// The input is over.
    End,
    /// The read failed and took nothing.
    Failed,
}

/// The answer of a write.
#[derive(Clone, Copy, Debug, PartialEq, Eq)]
pub enum WriteOut {
    /// All bytes went out, in order.
    Done,
    /// The write failed, after some prefix of the bytes went out.
    Failed,
}

/// The answer of a call that puts something out by one or more writes.
#[derive(Clone, Copy, Debug, PartialEq, Eq)]
pub enum PutOut {
    /// All of it went out.
    Done,
    /// A write failed in this call.
    WriteFault,
}

/// The outside of a program that reads one input and writes one output.
pub trait Duct {
    /// What the object tells of itself.
    ghost meaning: { Self → Meaning };

    /// Takes the next bytes of the input into the front of `buf`, which isn't empty, at most as many as it
    /// holds. `End` where none is left, `Failed` where the read failed, which takes nothing.
    fn read(&mut self, buf: &mut [u8]) -> ReadOut
        requires { 0 < length buf.old }
        ensures fits { FitsBuffer result (length buf.old) }
        ensures step { Step (meaning self.old) (read_event result buf.new) (meaning self.new) };

    /// Writes all the bytes. `Failed` where a prefix of them went out and then the write failed.
    fn write(&mut self, bytes: &[u8]) -> WriteOut
        ensures step { Writes (meaning self.old) result bytes.now (meaning self.new) };

    /// Gives the user a line beside the output. It can't fail.
    fn note(&mut self, line: &[u8])
        ensures step { Step (meaning self.old) (Noted line.now) (meaning self.new) };
}

/// Proof only: gives the caller `IsBytes`.
pub fn are_bytes(bytes: &[u8])
    ensures { IsBytes bytes.now }
{
    let _ = bytes;
}
