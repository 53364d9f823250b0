//! A duct over bytes in memory, which tells all it does as long as that fits the room of its records.
ghost use Rattle.std.specs.Prelude.{◌≡◌, ◌≤◌, ◌<◌, ◌+◌, ◌-◌, ◌^◌, ◌++◌, ◌↔◌, ◌∷◌, [], Contains, All, length, take, drop, IfOk, IfSome, IsTrue, IsSome, Some, min};
ghost use Rattle.scl_outside.specs.Answers.{FitsBuffer, Writes, read_event};
ghost use Rattle.scl_outside.specs.Events.{Noted};
ghost use Rattle.scl_outside.specs.Steps.{Step};
ghost use Rattle.scl_outside.specs.Chunks.{chunk_for};

use crate::record::Record;
use crate::{Duct, Mark, ReadOut, WriteOut, are_bytes};
use std::alloc::{AllocError, Global};

/// Copies the next bytes of the input, at most `chunk`, and answers how many it copied: none at the end
/// alone.
fn copy_next(input: &[u8], at: usize, chunk: usize, buf: &mut [u8]) -> usize
    requires within { at ≤ length input.now }
    requires chunk { 1 ≤ chunk }
    requires room { 0 < length buf.old }
    ensures count { result ≡ min (min chunk (length buf.old)) (length input.now - at) }
    ensures few { result ≤ length buf.new }
    ensures there { at + result ≤ length input.now }
    ensures end { result ≡ 0 → at ≡ length input.now }
    ensures read { take (at + result) input.now ≡ take at input.now ++ take result buf.new }
    ensures left { drop at input.now ≡ take result buf.new ++ drop (at + result) input.now }
{
    let count = chunk.min(buf.len()).min(input.len() - at);
    buf[..count].copy_from_slice(&input[at..at + count]);
    count
}

/// How many bytes this read may give: all that fit, where the list of chunks is at its end.
fn chunk_at(chunks: &[usize], read: usize) -> usize
    ensures { result ≡ chunk_for chunks.now read }
{
    match chunks.get(read) {
        Some(chunk) => (*chunk).max(1),
        None => usize::MAX,
    }
}

/// A duct over bytes in memory, whose reads and writes fail where they are told to.
#[derive(Drop)]
pub struct DuctMem {
    input: Vec<u8>,
    at: usize,
    chunks: Vec<usize>,
    bad_reads: Vec<u64>,
    bad_writes: Vec<u64>,
    reads: u64,
    writes: u64,
    written: Record<u8>,
    noted: Record<u8>,
    marks: Record<Mark>,
    read_faults: u64,
    write_faults: u64,
    ghost within: { at ≤ length input.items },
}

impl DuctMem {
    ghost use Rattle.scl_outside.specs.Memory.{meaning_of, new_meaning, kept_written, kept_noted, HasDuctRoom, reads_to_fail, writes_to_fail, chunks_of, next_read, next_write, TellsDuct, AddsMark, TakesInMemory};

    /// A duct over a copy of `input`. Reads and writes are each numbered from 0. Read `i` gives at most
    /// `chunks[i]` bytes, each at least 1, and as many as fit where the list is shorter; a read or a write
    /// whose number is in its bad list fails, and such a write keeps nothing. Each record has room for
    /// `room` bytes or marks, at most 16,777,216. `AllocError` where memory ran out; no later call takes
    /// any.
    pub fn new(
        alloc: Global,
        input: &[u8],
        chunks: &[usize],
        bad_reads: &[u64],
        bad_writes: &[u64],
        room: usize,
    ) -> Result<DuctMem, AllocError>
        requires chunks { All (λ chunk. 1 ≤ chunk) chunks.now }
        requires room { room ≤ 16777216 }
        ensures meaning { IfOk result (λ d. meaning_of d ≡ new_meaning input.now) }
        ensures rooms { IfOk result (λ d. HasDuctRoom d room) }
        ensures bad_reads { IfOk result (λ d. reads_to_fail d ≡ bad_reads.now) }
        ensures bad_writes { IfOk result (λ d. writes_to_fail d ≡ bad_writes.now) }
        ensures chunks { IfOk result (λ d. chunks_of d ≡ chunks.now) }
        ensures numbers { IfOk result (λ d. (next_read d ≡ 0) × (next_write d ≡ 0)) }
    {
        Ok(DuctMem {
            input: input.to_vec(alloc)?,
            at: 0,
            chunks: chunks.to_vec(alloc)?,
            bad_reads: bad_reads.to_vec(alloc)?,
            bad_writes: bad_writes.to_vec(alloc)?,
            reads: 0,
            writes: 0,
            written: Record::new(alloc, room)?,
            noted: Record::new(alloc, room)?,
            marks: Record::new(alloc, room)?,
            read_faults: 0,
            write_faults: 0,
        })
    }

    /// Whether all that was written, noted and marked fitted its record.
    pub fn told(&self) -> bool
        ensures { IsTrue result ↔ TellsDuct (meaning_of self.now) }
    {
        self.written.told() && self.noted.told() && self.marks.told()
    }

    /// What was written, as far as it was kept.
    pub fn written(&self) -> &[u8]
        ensures kept { result.now ≡ kept_written self.now }
        ensures told { IfSome (meaning_of self.now).written (λ bytes. result.now ≡ bytes) }
    {
        self.written.items()
    }

    /// What was noted, as far as it was kept.
    pub fn noted(&self) -> &[u8]
        ensures kept { result.now ≡ kept_noted self.now }
        ensures told { IfSome (meaning_of self.now).noted (λ bytes. result.now ≡ bytes) }
    {
        self.noted.items()
    }

    /// Marks how far the object is, with these numbers of datagrams received and sent.
    pub fn mark(&mut self, received: usize, sent: usize)
        ensures { AddsMark self.old received sent self.new }
    {
        self.marks.push(Mark {
            read: self.at as u64,
            received: received as u64,
            written: self.written.items().len() as u64,
            sent: sent as u64,
        });
    }

    /// Reads without a mark.
    pub fn take(&mut self, buf: &mut [u8]) -> ReadOut
        requires { 0 < length buf.old }
        ensures fits { FitsBuffer result (length buf.old) }
        ensures takes { TakesInMemory self.old result buf.new self.new }
    {
        let number = self.reads;
        self.reads = number.saturating_add(1);
        if self.bad_reads.contains(&number) {
            self.read_faults = self.read_faults.saturating_add(1);
            return ReadOut::Failed;
        }
        let chunk = chunk_at(&self.chunks, number as usize);
        let count = copy_next(&self.input, self.at, chunk, buf);
        if count == 0 {
            return ReadOut::End;
        }
        self.at += count;
        ReadOut::Got(count)
    }
}

impl Duct for DuctMem {
    ghost use Rattle.scl_outside.specs.Memory.{meaning_of, ReadsInMemory, WritesInMemory, NotesInMemory};

    ghost meaning = { meaning_of };

    fn read(&mut self, buf: &mut [u8]) -> ReadOut
        requires { 0 < length buf.old }
        ensures fits { FitsBuffer result (length buf.old) }
        ensures step { Step (meaning_of self.old) (read_event result buf.new) (meaning_of self.new) }
        ensures memory { ReadsInMemory self.old result (length buf.old) self.new }
    {
        self.mark(0, 0);
        let out = self.take(buf);
        are_bytes(buf);
        out
    }

    fn write(&mut self, bytes: &[u8]) -> WriteOut
        ensures step { Writes (meaning_of self.old) result bytes.now (meaning_of self.new) }
        ensures memory { WritesInMemory self.old result bytes.now self.new }
    {
        let number = self.writes;
        self.writes = number.saturating_add(1);
        if self.bad_writes.contains(&number) {
            self.write_faults = self.write_faults.saturating_add(1);
            return WriteOut::Failed;
        }
        self.written.extend(bytes);
        WriteOut::Done
    }

    fn note(&mut self, line: &[u8])
        ensures step { Step (meaning_of self.old) (Noted line.now) (meaning_of self.new) }
        ensures memory { NotesInMemory self.old line.now self.new }
    {
        self.noted.extend(line);
    }
}
