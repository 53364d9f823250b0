//! A capture thinned, frame by frame.
ghost use Rattle.std.specs.Prelude.{◌≡◌, ◌≤◌, ◌<◌, ◌+◌, ◌∷◌, [], ℕ, List, IfSome, Some, length, take, true};
ghost use Rattle.wire_model.specs.Thinning.{is_kept, is_within};
ghost use Rattle.scl_outside.specs.Events.{Event};
ghost use Rattle.scl_payload.specs.Heads.{fields_of};
ghost use Rattle.scl_run.specs.Performing.{Performs};
ghost use Rattle.scl_cli.specs.declared.command.Command.{Command};
ghost use Rattle.scl_cli.specs.declared.command.Verb.TheVariants as verbs;
ghost use Rattle.scl_cli.specs.Commands.{Spells, Begins, FindsSpelt};
ghost use Rattle.scl_cli.specs.ThinJob.{thin_job};
ghost use Rattle.scl_cli.specs.Thinning.{Passes, Turns};

use crate::{Command, Words};
use capture_frames::{FrameOut, Frames, put_frame};
use rtp_header::read_rtp;
use scl_outside::{Duct, PutOut};
use scl_payload::{Payload, read_payload};
use scl_run::{Ending, Reason, Refusal};

/// The offset at which an input that is too long is refused.
const INPUT_LIMIT: u64 = 1_099_511_627_776;

/// A limit, 0 to 7, in one digit.
fn limit_of(word: &str) -> Option<u8>
    ensures spelt { IfSome result (λ limit. (limit ≤ 7) × (word.now ≡ (48 + limit) ∷ [])) }
    ensures all { (limit : ℕ) → limit ≤ 7 → word.now ≡ (48 + limit) ∷ [] → result ≡ Some limit }
{
    match word.as_bytes() {
        [digit @ b'0'..=b'7'] => Some(*digit - b'0'),
        _ => None,
    }
}

/// The command that words after `thin` spell.
pub fn thin_of(words: &Words) -> Option<Command>
    requires { Begins verbs.Thin words.now }
    ensures spelt { IfSome result (λ command. Spells command words.now) }
    ensures all { FindsSpelt verbs.Thin words.now result }
{
    if words.len() != 2 {
        return None;
    }
    let limit = limit_of(words.get(1))?;
    Some(Command::Thin(limit))
}

/// What one frame came to.
#[derive(Clone, Copy, Debug, PartialEq, Eq)]
pub enum Turn {
    Frame,
    Stop(Ending),
}

/// Whether a payload serves a receiver with this limit.
fn serves(limit: u8, payload: &Payload) -> bool
    ensures { result ≡ is_within limit (fields_of payload.now) }
{
    match payload {
        Payload::Main(_) => true,
        Payload::Body(head) => head.res <= limit,
    }
}

/// Whether a datagram is well formed and serves a receiver with this limit.
fn keeps(limit: u8, datagram: &[u8]) -> bool
    requires some { 1 ≤ length datagram.now }
    requires short { length datagram.now ≤ 9000 }
    ensures { result ≡ is_kept limit datagram.now }
{
    let Ok(rtp) = read_rtp(datagram) else {
        return false;
    };
    match read_payload(&datagram[rtp.body_from..rtp.body_to]) {
        Ok((payload, _)) => serves(limit, &payload),
        Err(_) => false,
    }
}

/// Writes a frame where it is kept.
fn pass<D: Duct>(limit: u8, out: &mut D, datagram: &[u8]) -> PutOut
    requires some { 1 ≤ length datagram.now }
    requires short { length datagram.now ≤ 9000 }
    ensures { (es : List Event) × Passes limit (D.meaning out.old) (D.meaning out.new) result datagram.now es }
{
    if keeps(limit, datagram) {
        put_frame(out, datagram)
    } else {
        PutOut::Done
    }
}

/// Takes one frame, and writes it where it is kept.
fn take_turn<D: Duct>(limit: u8, frames: &mut Frames, out: &mut D, buf: &mut [u8; 9000]) -> Turn
    requires { frames.old.live ≡ true }
    ensures { (es : List Event) × Turns limit frames.old frames.new (D.meaning out.old) (D.meaning out.new) result es }
{
    match frames.next(out, buf) {
        FrameOut::Whole(len) => match pass(limit, out, &buf[..len]) {
            PutOut::Done => Turn::Frame,
            PutOut::WriteFault => Turn::Stop(Ending::WriteFault),
        },
        FrameOut::Empty => Turn::Frame,
        FrameOut::Oversize(_) => Turn::Frame,
        FrameOut::End => Turn::Stop(Ending::Done),
        FrameOut::Cut(at) => Turn::Stop(refused(at, Reason::CutFrame)),
        FrameOut::TooLong => Turn::Stop(refused(INPUT_LIMIT, Reason::InputTooLong)),
        FrameOut::ReadFault => Turn::Stop(Ending::ReadFault),
    }
}

/// The ending of a run whose input is refused here.
fn refused(at: u64, reason: Reason) -> Ending
    ensures { result ≡ Ending.Refused (record { at = at; reason = reason }) }
{
    Ending::Refused(Refusal { at, reason })
}

/// Passes on the frames of a capture that serve a receiver with this limit, unchanged and in order.
pub fn thin<D: Duct>(limit: u8, out: &mut D) -> Ending
    ensures { (es : List Event) × Performs (thin_job limit) (D.meaning out.old) (D.meaning out.new) result es }
{
    let mut buf = [0u8; 9000];
    let mut frames = Frames::new();
    loop {
        match take_turn(limit, &mut frames, out, &mut buf) {
            Turn::Frame => {}
            Turn::Stop(ending) => return ending,
        }
    }
}
