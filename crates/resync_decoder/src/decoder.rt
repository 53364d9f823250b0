//! The decoder, and its six rules, which find the packets of a run.
ghost use Rattle.std.specs.Prelude.{◌≡◌, ◌≤◌, ◌<◌, ◌^◌, IfOk, IsSome, Some, None, true, false, length, option_map};
ghost use Rattle.std.specs.Option.{ForSome};
ghost use Rattle.codestream_model.specs.Bytes.{IsBytes};
ghost use Rattle.codestream_model.specs.Values as values;
ghost use Rattle.stream_model.specs.Decoder as rules;
ghost use Rattle.stream_model.specs.Decoder.{at_start, take_main, take_body, take_gap, is_place};
ghost use Rattle.precinct_geometry.specs.Spans.{place_of};
ghost use Rattle.scl_payload.specs.Heads.{values_of};
ghost use Rattle.resync_decoder.specs.States.{head_answer, waiting, begun, precinct_of, stamp_of, header_in};
ghost use Rattle.resync_decoder.specs.States.{Steps, IsFollowed, Seeks, GoesOn, BeginsWith};

use crate::buffer::{LONGEST_HEADER, ROOM, append, keep};
use crate::current::Current;
use crate::found::{Finder, Found, Progress};
use j2k_markers::read_head;
use packet_header::Precinct;
use precinct_geometry::Place;
use scl_payload::BodyHead;
use std::alloc::{AllocError, Global};
use std::marker::Model;

/// What became of the bytes of a Main packet.
#[derive(Clone, Copy, Debug, PartialEq, Eq)]
pub enum HeadTaken {
    /// They are exactly one accepted main header, which is in force from now on.
    Taken,
    /// They are anything else. No main header is in force.
    Unsupported,
}

/// What a rule did.
#[derive(Clone, Copy, Debug, PartialEq, Eq)]
enum Rule {
    /// A packet was given.
    Released,
    /// The run, its mark or the counts changed.
    Changed,
    /// More bytes are needed.
    Waits,
}

/// Where in the buffer the packet of a precinct starts.
#[derive(Clone, Copy)]
struct Mark {
    at: usize,
    place: Place,
}

/// A packet that was found: its precinct, and where in the buffer it is.
#[derive(Clone, Copy)]
struct Given {
    place: Place,
    pid: u32,
    /// Where its first byte is.
    at: usize,
    /// Where its segments begin.
    from: usize,
    /// Where they end.
    to: usize,
}

/// Proof only: each byte is below 256.
fn are_bytes(bytes: &[u8])
    ensures { IsBytes bytes.now }
{
    let _ = bytes;
}

/// Whether two places are the same.
fn is_same(one: Place, other: Place) -> bool
    ensures { result ≡ is_place (place_of one) (place_of other) }
{
    one.c == other.c && one.r == other.r && one.k == other.k
}

/// A decoder: the main header in force, the run and its mark.
#[derive(Drop)]
pub struct Decoder {
    current: Option<Current>,
    /// The bytes of the main header in force.
    header: Vec<u8>,
    /// The precinct whose packet comes next in the run; None where there is no run.
    next: Option<Place>,
    buffer: Vec<u8>,
    /// Where in the buffer the next packet of the run starts.
    front: usize,
    mark: Option<Mark>,
    finder: Finder,
    given: Option<Given>,
    /// Whether no rule applies until more bytes come.
    waits: bool,
    heads: u64,
    unsupported: u64,
    disagreed: u64,
    broken: u64,
}

impl Model for Decoder {
    ghost use Rattle.resync_decoder.specs.States.{DecoderState};

    ghost Value = { DecoderState };

    ghost use Rattle.resync_decoder.specs.Views.{state_of, IsSound};

    ghost view = { λ d. state_of d };

    ghost invariant = { λ d. IsSound d };
}

impl Decoder {
    /// A decoder with no main header. All its memory is taken here: the run buffer of 16,786,216
    /// bytes, the 8,192 bytes of a main header, and the tree nodes and the table of 65,536
    /// code-blocks.
    pub fn new(alloc: Global) -> Result<Decoder, AllocError>
        ensures { IfOk result (λ d. d ≡ waiting at_start) }
    {
        let finder = Finder::reserve(alloc)?;
        Ok(Decoder {
            current: None,
            header: Vec::with_capacity(alloc, LONGEST_HEADER)?,
            next: None,
            buffer: Vec::with_capacity(alloc, ROOM)?,
            front: 0,
            mark: None,
            finder,
            given: None,
            waits: true,
            heads: 0,
            unsupported: 0,
            disagreed: 0,
            broken: 0,
        })
    }

    /// Takes the codestream bytes of a Main packet with this timestamp and extended number. Bytes
    /// that are exactly one accepted main header put it in force, and a run begins at its first
    /// precinct. Any others are counted in `unsupported`, and no main header is in force. Of the
    /// calls of `body` and `step` the last was a `step` that answered false, or there was none.
    pub fn main(&mut self, stamp: u32, n: u32, bytes: &[u8]) -> HeadTaken
        requires { self.old.waits ≡ true }
        ensures answer { result ≡ head_answer bytes.now }
        ensures state { self.new ≡ waiting (take_main self.old.rules stamp bytes.now) }
    {
        // no rule depends on the number
        let _ = n;
        self.clear();
        self.current = None;
        let Ok(head) = read_head(bytes) else {
            self.unsupported = self.unsupported.saturating_add(1);
            return HeadTaken::Unsupported;
        };
        if head.length() as usize != bytes.len() {
            self.unsupported = self.unsupported.saturating_add(1);
            return HeadTaken::Unsupported;
        }
        keep(&mut self.header, bytes);
        self.heads = self.heads.saturating_add(1);
        self.finder.progress = Progress::Unread;
        let current = Current::new(stamp, head);
        self.next = Some(current.first());
        self.current = Some(current);
        HeadTaken::Taken
    }

    /// Takes the codestream bytes of a Body packet, at most 9,000, with its timestamp, extended
    /// number and header. Where no main header is in force nothing happens, and one of another
    /// timestamp is dropped with its run. Else the bytes join the run. With ORDB = 1 and a PID that
    /// a precinct has, a mark is set at POS, which is less than the number of bytes; any other PID
    /// is counted in `disagreed`. Of the calls of `body` and `step` the last was a `step` that
    /// answered false, or there was none.
    pub fn body(&mut self, stamp: u32, n: u32, head: &BodyHead, bytes: &[u8])
        requires waits { self.old.waits ≡ true }
        requires fits { length bytes.now ≤ 9000 }
        requires pos { head.now.ordb ≡ true → head.now.pos < length bytes.now }
        ensures rules { self.new.rules
            ≡ take_body self.old.rules self.old.rules.current stamp (values_of head.now) bytes.now }
    {
        // no rule depends on the number
        let _ = n;
        let Some(current) = &self.current else {
            return;
        };
        if current.stamp() != stamp {
            self.clear();
            self.current = None;
            return;
        }
        self.given = None;
        let before = self.buffer.len() - self.front;
        self.front = append(&mut self.buffer, self.front, bytes);
        self.waits = false;
        if !head.ordb {
            return;
        }
        match current.find(head.pid) {
            None => self.disagreed = self.disagreed.saturating_add(1),
            Some(place) => {
                let at = self.front + before + usize::from(head.pos);
                self.mark = Some(Mark { at, place });
            }
        }
    }

    /// Drops the run, as a gap in the numbers does, and keeps the main header. Of the calls of
    /// `body` and `step` the last was a `step` that answered false, or there was none.
    pub fn gap(&mut self)
        requires { self.old.waits ≡ true }
        ensures { self.new ≡ waiting (take_gap self.old.rules) }
    {
        self.clear();
    }

    /// Follows the rules until a packet of the run is given, which is true, or until more bytes are
    /// needed, which is false.
    pub fn step(&mut self) -> bool
        ensures rules { Steps self.old.rules result self.new }
        ensures given { result ≡ true → IsSome self.new.given }
        ensures waits { result ≡ false → self.new.waits ≡ true }
        ensures few { result ≡ false → length self.new.rules.bytes < 2 ^ 24 }
    {
        loop {
            self.has_bytes();
            match self.follow() {
                Rule::Released => return true,
                Rule::Waits => {
                    self.has_bytes();
                    return false;
                }
                Rule::Changed => {}
            }
        }
    }

    /// The packet that the last `step` gave, until the next call. That `step` answered true, and
    /// `stamp` is the timestamp of the main header in force.
    pub fn released(&self, stamp: u32) -> Precinct<'_>
        requires given { IsSome self.now.given }
        requires stamp { stamp_of self.now.rules.current ≡ Some stamp }
        ensures { option_map (λ x. x.precinct) self.now.given ≡ Some (precinct_of result) }
    {
        let Some(given) = self.given else {
            unreachable!()
        };
        Precinct {
            stamp,
            place: given.place,
            pid: given.pid,
            blocks: self.finder.reader.blocks(),
            bytes: &self.buffer[given.from..given.to],
        }
    }

    /// All bytes of the packet that the last `step` gave, those of its header and then of its
    /// segments, until the next call. That `step` answered true.
    pub fn raw(&self) -> &[u8]
        requires { IsSome self.now.given }
        ensures { option_map (λ x. x.raw) self.now.given ≡ Some result.now }
    {
        let Some(given) = self.given else {
            unreachable!()
        };
        &self.buffer[given.at..given.to]
    }

    /// The bytes of the main header in force, under which a packet is given; None where there is
    /// none.
    pub fn head(&self) -> Option<&[u8]>
        ensures head { option_map (λ b. b.now) result ≡ header_in self.now.rules.current }
        ensures given { ForSome self.now.given
            (λ x. header_in self.now.rules.current ≡ Some x.header) }
    {
        match &self.current {
            Some(_) => Some(self.header.as_slice()),
            None => None,
        }
    }

    /// The number of Main packets whose bytes were exactly one accepted main header. It stays at
    /// 2^64 - 1.
    pub fn heads(&self) -> u64
        ensures heads { result ≡ self.now.rules.heads }
        ensures given { ForSome self.now.given (λ x. x.heads ≡ result) }
    {
        self.heads
    }

    /// The timestamp of the main header in force, or None where there is none.
    pub fn stamp(&self) -> Option<u32>
        ensures stamp { result ≡ stamp_of self.now.rules.current }
        ensures given { IsSome self.now.given → IsSome result }
    {
        match &self.current {
            Some(current) => Some(current.stamp()),
            None => None,
        }
    }

    /// The number of Main packets whose bytes weren't exactly one accepted main header. It stays at
    /// 2^64 - 1.
    pub fn unsupported(&self) -> u64
        ensures { result ≡ self.now.rules.unsupported }
    {
        self.unsupported
    }

    /// The number of marks with which the packets before them disagreed, and of PIDs that no
    /// precinct has. It stays at 2^64 - 1.
    pub fn disagreed(&self) -> u64
        ensures { result ≡ self.now.rules.disagreed }
    {
        self.disagreed
    }

    /// The number of runs that ended at bytes which can't be a packet. It stays at 2^64 - 1.
    pub fn broken(&self) -> u64
        ensures { result ≡ self.now.rules.broken }
    {
        self.broken
    }

    /// Drops the run, its bytes and its mark.
    fn clear(&mut self)
        ensures { self.new ≡ waiting (take_gap self.old.rules) }
    {
        self.next = None;
        self.mark = None;
        self.given = None;
        self.waits = true;
        self.front = 0;
        self.buffer.clear();
    }

    /// Proof only: what the run holds are bytes, and where the rules wait fewer than a packet may
    /// have.
    fn has_bytes(&self)
        ensures bytes { IsBytes self.now.rules.bytes }
        ensures few { self.now.waits ≡ true → length self.now.rules.bytes < 2 ^ 24 }
    {
        are_bytes(self.buffer.as_slice());
    }

    /// Follows the rule that applies.
    fn follow(&mut self) -> Rule
        ensures { IsFollowed (rules.rule self.old.rules self.old.rules.current) result self.new }
    {
        if self.current.is_none() {
            return self.wait();
        }
        if self.next.is_none() {
            return self.go_without_run();
        }
        let Some(mark) = self.mark else {
            return match self.seek() {
                Found::Whole(_, size) => self.release(size),
                Found::Part => self.wait(),
                Found::Other => self.drop_run(),
            };
        };
        let left = mark.at - self.front;
        // the next packet starts at the mark
        if left == 0 {
            return self.meet_mark();
        }
        match self.seek() {
            Found::Whole(_, size) => {
                if size <= left {
                    self.release(size)
                } else {
                    self.begin_instead()
                }
            }
            Found::Part => self.begin_instead(),
            // rule 5 comes before rule 4
            Found::Other => self.drop_run(),
        }
    }

    /// Rule 1: with no run a mark begins one, and without a mark the bytes are dropped.
    fn go_without_run(&mut self) -> Rule
        ensures { (c : rules.Current) → self.old.rules.current ≡ Some c
            → IsFollowed (rules.rule_without_run self.old.rules c self.old.rules.mark) result self.new }
    {
        if self.mark.is_some() {
            self.begin();
            return Rule::Changed;
        }
        self.buffer.clear();
        self.front = 0;
        self.finder.progress = Progress::Unread;
        self.given = None;
        self.waits = true;
        Rule::Waits
    }

    /// Rule 2: the next packet starts at the mark. The run goes on where the mark names its
    /// precinct, and else begins anew.
    fn meet_mark(&mut self) -> Rule
        requires run { IsSome self.old.rules.run }
        requires mark { IsSome self.old.rules.mark }
        ensures { (c : rules.Current) (m : rules.Mark) (p : values.Place)
            → self.old.rules.current ≡ Some c → self.old.rules.mark ≡ Some m → BeginsWith p self.old.rules.run
            → IsFollowed (rules.rule_at_mark self.old.rules c m p) result self.new }
    {
        let (Some(next), Some(mark)) = (self.next, self.mark) else {
            unreachable!()
        };
        if !is_same(mark.place, next) {
            return self.begin_instead();
        }
        self.mark = None;
        self.given = None;
        self.waits = false;
        Rule::Changed
    }

    /// Rule 3: the packet that was found, of `size` bytes, is given, and the run goes on after it.
    fn release(&mut self, size: usize) -> Rule
        requires run { IsSome self.old.rules.run }
        requires within { size ≤ length self.old.rules.bytes }
        requires before_mark { ForSome self.old.rules.mark (λ m. size ≤ m.at) }
        ensures { GoesOn self.old size result self.new }
    {
        let (Some(current), Some(place)) = (&self.current, self.next) else {
            unreachable!()
        };
        self.next = current.after(place);
        self.front += size;
        self.finder.progress = Progress::Unread;
        self.waits = false;
        Rule::Released
    }

    /// Rule 4: the run begins anew at the mark, with which what is before it disagrees.
    fn begin_instead(&mut self) -> Rule
        requires { IsSome self.old.rules.mark }
        ensures { (c : rules.Current) (m : rules.Mark)
            → self.old.rules.current ≡ Some c → self.old.rules.mark ≡ Some m
            → IsFollowed (rules.Changes (rules.begin_instead self.old.rules c m)) result self.new }
    {
        self.disagreed = self.disagreed.saturating_add(1);
        self.begin();
        Rule::Changed
    }

    /// Rule 5: the run, whose bytes can't be a packet, is dropped.
    fn drop_run(&mut self) -> Rule
        requires { IsSome self.old.rules.run }
        ensures { IsFollowed (rules.Changes (rules.drop_run self.old.rules)) result self.new }
    {
        self.next = None;
        self.broken = self.broken.saturating_add(1);
        self.given = None;
        self.waits = false;
        Rule::Changed
    }

    /// Rule 6: the bytes are kept until more come.
    fn wait(&mut self) -> Rule
        requires mark { self.old.rules.mark ≡ None }
        requires few { length self.old.rules.bytes ≤ 16777215 }
        ensures { IsFollowed (rules.Waits self.old.rules) result self.new }
    {
        self.given = None;
        self.waits = true;
        Rule::Waits
    }

    /// Begins a run at the mark.
    fn begin(&mut self)
        requires { IsSome self.old.rules.mark }
        ensures { self.new ≡ record {
          rules = begun self.old.rules self.old.rules.current self.old.rules.mark;
          given = None;
          waits = false;
        } }
    {
        let (Some(current), Some(mark)) = (&self.current, self.mark) else {
            unreachable!()
        };
        current.order_from(mark.place);
        self.next = Some(mark.place);
        self.front = mark.at;
        self.finder.progress = Progress::Unread;
        self.mark = None;
        self.given = None;
        self.waits = false;
    }

    /// Looks for the packet of the run's next precinct, and notes where the segments of a whole one
    /// are.
    fn seek(&mut self) -> Found
        requires { IsSome self.old.rules.run }
        ensures { Seeks self.old.rules result self.new }
    {
        let (Some(current), Some(place)) = (&self.current, self.next) else {
            unreachable!()
        };
        let geometry = current.geometry();
        let bytes = &self.buffer[self.front..];
        let found = self.finder.find(geometry, place, bytes);
        self.given = None;
        if let Found::Whole(header, size) = found {
            self.given = Some(Given {
                place,
                pid: geometry.pid(place),
                at: self.front,
                from: self.front + header,
                to: self.front + size,
            });
        }
        found
    }
}
