//! The whole packets of codestreams, one after another, off a duct.
ghost use Rattle.std.specs.Prelude.{◌≡◌, ◌≤◌, List, true, IfOk, map, vec_capacity};
ghost use Rattle.scl_outside.specs.Events.{Event};
ghost use Rattle.codestream_walk.specs.Walking.{is_item, is_live, IsStart};
ghost use Rattle.codestream_walk.specs.Walks.{walked_of, ShowsPacket, IsShown};
ghost use Rattle.codestream_walk.specs.WalkSteps.{Walks};

use crate::fault::{PieceOut, WalkFault};
use crate::pieces::Pieces;
use packet_header::Precinct;
use scl_outside::Duct;
use std::alloc::{AllocError, Global};
use std::marker::Model;

/// The greatest number of bytes of a packet.
const LONGEST_PACKET: usize = 16_777_216;

/// What a step of `Walk` answers.
#[derive(Clone, Copy, Debug, PartialEq, Eq)]
pub enum WalkOut {
    /// A whole packet was read.
    Packet,
    /// EOC was read.
    FrameEnd,
    /// The input ended where a codestream may begin.
    End,
    /// The input is refused.
    Refused(WalkFault),
    /// A read failed in this call.
    ReadFault,
}

/// A reader of whole packets.
#[derive(Drop)]
pub struct Walk {
    pieces: Pieces,
    /// The segments of the packet that was begun last.
    body: Vec<u8>,
}

impl Model for Walk {
    ghost use Rattle.std.specs.Prelude.{◌≡◌, ◌≤◌, vec_capacity, true};
    ghost use Rattle.codestream_walk.specs.Walks.{Walked, walked_of};
    ghost use Rattle.codestream_walk.specs.Walking.{is_item};

    ghost Value = { Walked };

    ghost view = { λ w. walked_of w.pieces w.body.items };

    ghost invariant = { λ w. (16777216 ≤ vec_capacity w.body) × (is_item w.pieces.walk.stage ≡ true) };
}

impl Walk {
    /// A walk at the start of an input. `AllocError` where there is no memory for its buffers, which take about
    /// 17 MB; `step` takes none.
    pub fn new(alloc: Global) -> Result<Walk, AllocError>
        ensures { IfOk result (λ w. IsStart w.walk) }
    {
        Ok(Walk {
            pieces: Pieces::new(alloc)?,
            body: Vec::with_capacity(alloc, LONGEST_PACKET)?,
        })
    }

    /// Whether a step may be asked for: no answer before was `End`, `Refused` or `ReadFault`.
    pub fn live(&self) -> bool
        ensures { result ≡ is_live self.now.walk.stage }
    {
        self.pieces.live()
    }

    /// Reads up to the end of the next packet or EOC, or up to the first byte that fixes that the input is refused.
    /// A byte is read only where the bytes before it leave the answer open.
    pub fn step<D: Duct>(&mut self, duct: &mut D) -> WalkOut
        requires { is_live self.old.walk.stage ≡ true }
        ensures walks { (es : List Event)
            × Walks self.old.walk (D.meaning duct.old) (D.meaning duct.new) result self.new es }
        ensures packet { result ≡ WalkOut.Packet → ShowsPacket self.new }
    {
        walk_on(&mut self.pieces, &mut self.body, duct)
    }

    /// The packet that the last step read, which needs that it answered `Packet`, with this timestamp.
    pub fn packet(&self, stamp: u32) -> Precinct<'_>
        requires { ShowsPacket self.now }
        ensures { IsShown self.now stamp result }
    {
        let place = self.pieces.place();
        Precinct {
            stamp,
            place,
            pid: self.pieces.geometry().pid(place),
            blocks: self.pieces.blocks(),
            bytes: &self.body,
        }
    }
}

/// Steps until a packet is whole or another answer comes. The segments of the packet are gathered in `body`.
fn walk_on<D: Duct>(pieces: &mut Pieces, body: &mut Vec<u8>, duct: &mut D) -> WalkOut
    requires live { is_live pieces.old.walk.stage ≡ true }
    requires item { is_item pieces.old.walk.stage ≡ true }
    requires room { 16777216 ≤ vec_capacity body.old }
    ensures walks { (es : List Event)
        × Walks pieces.old.walk (D.meaning duct.old) (D.meaning duct.new) result
        (walked_of pieces.new body.new.items) es }
    ensures packet { result ≡ WalkOut.Packet → ShowsPacket (walked_of pieces.new body.new.items) }
    ensures item { is_item pieces.new.walk.stage ≡ true }
    ensures room { 16777216 ≤ vec_capacity body.new }
{
    loop {
        match pieces.step(duct) {
            PieceOut::Head => {}
            PieceOut::Start => {
                body.clear();
                if !pieces.in_body() {
                    return WalkOut::Packet;
                }
            }
            PieceOut::More => {
                let _ = body.extend_from_slice(pieces.bytes());
                if !pieces.in_body() {
                    return WalkOut::Packet;
                }
            }
            PieceOut::FrameEnd => return WalkOut::FrameEnd,
            PieceOut::End => return WalkOut::End,
            PieceOut::Refused(fault) => return WalkOut::Refused(fault),
            PieceOut::ReadFault => return WalkOut::ReadFault,
        }
    }
}
