//! The items of codestreams off a duct, each answered as soon as the bytes in hand fix it.
ghost use Rattle.std.specs.Prelude.{◌≡◌, ◌≤◌, ◌<◌, ◌+◌, ◌-◌, List, true, IfOk, IfSome, IsSome, Some, [], length, map, take};
ghost use Rattle.precinct_geometry.specs.Spans.{place_of};
ghost use Rattle.packet_header.specs.Answers.{block_of};
ghost use Rattle.codestream_walk.specs.Walking as walking;
ghost use Rattle.codestream_walk.specs.Walking.{is_live, IsStart, ShowsHead, IsDone, in_body, reach, Wants};
ghost use Rattle.codestream_walk.specs.Walking.{IsNext, IsNextEoc, IsBody};
ghost use Rattle.codestream_model.specs.MainHeader.{SpellsHead};
ghost use Rattle.codestream_walk.specs.Staging.{staged};
ghost use Rattle.codestream_walk.specs.Reading.{Judges, Ends, Passes, Steps};
ghost use Rattle.scl_outside.specs.Events.{Event};

use crate::fault::{Judged, PieceOut, WalkFault, WalkWhy};
use crate::input::{INPUT_LIMIT, Input, Wider};
use crate::judging::{Eoc, judge_eoc};
use crate::next_header::{Header, NextHeader};
use crate::progression::Progression;
use j2k_markers::{Head, HeadWhy, read_head};
use packet_header::Block;
use precinct_geometry::{Geometry, Place};
use scl_outside::Duct;
use std::alloc::{AllocError, Global};
use std::marker::Model;

/// The greatest number of codestreams of an input.
const MOST_CODESTREAMS: u32 = 65_536;

/// The greatest number of bytes of a packet's segments that are given at once.
const LONGEST_PIECE: usize = 4096;

/// What is to come next.
#[derive(Clone, Copy, Debug, PartialEq, Eq)]
pub enum State {
    /// A codestream, or the input's end.
    Start,
    /// A packet, or EOC.
    Next,
    /// More of a packet's segments.
    Body,
    /// Nothing.
    End,
}

/// A reader of codestreams, item by item.
#[derive(Drop)]
pub struct Pieces {
    input: Input,
    header: NextHeader,
    begun: Option<Progression>,
    state: State,
    /// How many whole codestreams were given.
    codestreams: u32,
    /// How many bytes of the codestream begun last were given.
    size: u64,
    /// The precinct whose packet was begun last.
    place: Place,
    /// How many bytes of its segments are to come.
    left: u32,
}

impl Model for Pieces {
    ghost use Rattle.codestream_walk.specs.Walking.{Seen};

    ghost Value = { Seen };

    ghost use Rattle.codestream_walk.specs.Staging.{view_of, IsKept};

    ghost view = { λ p. view_of p };

    ghost invariant = { λ p. IsKept p };
}

impl Pieces {
    /// A reader at the start of an input. `AllocError` where there is no memory for its buffers; `step` takes none.
    pub fn new(alloc: Global) -> Result<Pieces, AllocError>
        ensures { IfOk result (λ v. IsStart v.walk) }
    {
        Ok(Pieces {
            input: Input::new(alloc)?,
            header: NextHeader::reserve(alloc)?,
            begun: None,
            state: State::Start,
            codestreams: 0,
            size: 0,
            place: Place { c: 0, r: 0, k: 0 },
            left: 0,
        })
    }

    /// Whether a step may be asked for: no answer before was `End`, `Refused` or `ReadFault`.
    pub fn live(&self) -> bool
        ensures { result ≡ is_live self.now.walk.stage }
    {
        self.state != State::End
    }

    /// Whether more of the packet that was given last is to come.
    pub(crate) fn in_body(&self) -> bool
        ensures { result ≡ in_body self.now.walk.stage }
    {
        self.state == State::Body
    }

    /// Proof only: the main header of the codestream that this is in is the one that is shown.
    fn shows_head(&self)
        ensures { ShowsHead self.now }
    {
        let _ = &self.state;
    }

    /// The bytes of the last answer: those of the main header after `Head`, of the packet's header after `Start`, and
    /// of its segments after `More`.
    pub fn bytes(&self) -> &[u8]
        ensures { result.now ≡ self.now.given }
    {
        self.input.given()
    }

    /// The offset in the input of the first byte that no answer gave.
    pub fn offset(&self) -> u64
        ensures { result ≡ self.now.walk.offset }
    {
        self.input.offset()
    }

    /// The precinct of the packet, where the last answer was `Start` or `More`.
    pub fn place(&self) -> Place
        ensures { place_of result ≡ self.now.place }
    {
        self.place
    }

    /// The included code-blocks of the packet, where the last answer was `Start` or `More`.
    pub fn blocks(&self) -> &[Block]
        ensures { map block_of result.now ≡ self.now.blocks }
    {
        self.header.reader.blocks()
    }

    /// The geometry of the last main header that was given, which needs that there was one.
    pub fn geometry(&self) -> &Geometry
        requires { IsSome self.now.head }
        ensures { Some result.now ≡ self.now.head }
    {
        match &self.begun {
            Some(begun) => begun.geometry(),
            None => unreachable!(),
        }
    }

    /// The input is refused, and nothing more is to come.
    fn refuse(&mut self, at: u64, why: WalkWhy) -> Judged
        ensures result { result ≡ Judged.Piece (PieceOut.Refused (record { at = at; why = why })) }
        ensures done { IsDone self.old.head self.new }
    {
        self.state = State::End;
        Judged::Piece(PieceOut::Refused(WalkFault { at, why }))
    }

    /// Gives the main header.
    fn begin(&mut self, head: Head) -> Judged
        requires start { self.old.walk.stage ≡ walking.AtStart }
        requires few { self.old.walk.codestreams < 65536 }
        requires spells { SpellsHead head (take head.length self.old.walk.hand) }
        ensures { Judges result self.old self.new }
    {
        let length = head.length();
        self.input.within();
        self.input.give(length as usize);
        self.begun = Some(Progression::new(head));
        self.size = u64::from(length);
        self.state = State::Next;
        Judged::Piece(PieceOut::Head)
    }

    /// Judges the bytes in hand where a codestream may begin.
    fn judge_start(&mut self) -> Judged
        requires { self.old.walk.stage ≡ walking.AtStart }
        ensures { Judges result self.old self.new }
    {
        if self.input.len() == 0 {
            return Judged::Wants;
        }
        let at = self.input.offset();
        if self.codestreams == MOST_CODESTREAMS {
            return self.refuse(at, WalkWhy::TooManyFrames);
        }
        match read_head(self.input.bytes()) {
            Ok(head) => self.begin(head),
            Err(fault) if fault.why == HeadWhy::Cut => Judged::Wants,
            Err(fault) => self.refuse(at + u64::from(fault.at), WalkWhy::Head(fault.why)),
        }
    }

    /// Judges the bytes in hand where EOC should begin.
    fn judge_eoc(&mut self) -> Judged
        requires { IsNextEoc self.old.walk.stage }
        ensures { Judges result self.old self.new }
    {
        let at = self.input.offset();
        let Some(begun) = &self.begun else {
            unreachable!()
        };
        match judge_eoc(begun.geometry(), self.size, self.input.bytes()) {
            Eoc::Whole => {
                self.input.give(2);
                self.codestreams += 1;
                self.state = State::Start;
                Judged::Piece(PieceOut::FrameEnd)
            }
            Eoc::Refused(why) => self.refuse(at, why),
            Eoc::Wants => Judged::Wants,
        }
    }

    /// Judges the bytes in hand where a packet or EOC should begin.
    fn judge_next(&mut self) -> Judged
        requires { IsNext self.old.walk.stage }
        ensures { Judges result self.old self.new }
    {
        let at = self.input.offset();
        let Some(begun) = &mut self.begun else {
            unreachable!()
        };
        let Some(place) = begun.next() else {
            return self.judge_eoc();
        };
        let geometry = begun.geometry();
        match self.header.judge(geometry, place, self.input.bytes()) {
            Header::Whole(used, body) => {
                begun.advance();
                self.input.give(used);
                self.size += used as u64;
                self.place = place;
                self.left = body;
                self.state = state_with(body);
                Judged::Piece(PieceOut::Start)
            }
            Header::Refused(why) => self.refuse(at, why),
            Header::Wants => Judged::Wants,
        }
    }

    /// Judges the bytes in hand in a packet's segments.
    fn judge_body(&mut self) -> Judged
        requires { IsBody self.old.walk.stage }
        ensures { Judges result self.old self.new }
    {
        self.input.within();
        let count = self.input.len().min(self.left as usize).min(LONGEST_PIECE);
        if count == 0 {
            return Judged::Wants;
        }
        self.input.give(count);
        self.size += count as u64;
        self.left -= count as u32;
        self.state = state_with(self.left);
        Judged::Piece(PieceOut::More)
    }

    /// Judges the bytes in hand.
    fn judge(&mut self) -> Judged
        requires { is_live self.old.walk.stage ≡ true }
        ensures judged { Judges result self.old self.new }
        ensures within { reach self.old.walk ≤ 1099511627776 }
    {
        self.input.within();
        match self.state {
            State::Start => self.judge_start(),
            State::Next => self.judge_next(),
            State::Body => self.judge_body(),
            State::End => unreachable!(),
        }
    }

    /// The input is over where more bytes are wanted.
    fn end(&mut self) -> PieceOut
        ensures ends { Ends result self.old.walk }
        ensures done { IsDone self.old.head self.new }
    {
        let at = self.input.offset();
        let len = self.input.len();
        let between = self.state == State::Start && len == 0;
        self.state = State::End;
        if between {
            PieceOut::End
        } else {
            PieceOut::Refused(WalkFault {
                at: at + len as u64,
                why: WalkWhy::Cut,
            })
        }
    }

    /// More bytes are wanted, and one more than may be read is there.
    fn pass(&mut self) -> WalkFault
        ensures passes { reach self.old.walk ≡ 1099511627776 → Wants self.old.walk
            → Passes result self.old.walk }
        ensures done { IsDone self.old.head self.new }
    {
        let full = self.state == State::Start && self.codestreams == MOST_CODESTREAMS;
        self.state = State::End;
        WalkFault {
            at: INPUT_LIMIT,
            why: if full {
                WalkWhy::TooManyFrames
            } else {
                WalkWhy::InputTooLong
            },
        }
    }

    /// Reads up to the next main header, packet header, part of a packet's segments or EOC, or up to the first byte that
    /// fixes that the input is refused. A byte is read only where the bytes before it leave the answer open.
    pub fn step<D: Duct>(&mut self, duct: &mut D) -> PieceOut
        requires { is_live self.old.walk.stage ≡ true }
        ensures steps { (es : List Event)
            × Steps self.old (D.meaning duct.old) (D.meaning duct.new) result self.new es }
        ensures shows { ShowsHead self.new }
    {
        loop {
            match self.judge() {
                Judged::Piece(out) => {
                    self.shows_head();
                    return out;
                }
                Judged::Wants => {}
            }
            match self.input.more(duct) {
                Wider::Grown => {}
                Wider::Ended => return self.end(),
                Wider::Past => return PieceOut::Refused(self.pass()),
                Wider::Failed => {
                    self.state = State::End;
                    return PieceOut::ReadFault;
                }
            }
        }
    }
}

/// The state where `left` bytes of a packet's segments are to come.
fn state_with(left: u32) -> State
    ensures { result ≡ staged left }
{
    if left == 0 { State::Next } else { State::Body }
}
