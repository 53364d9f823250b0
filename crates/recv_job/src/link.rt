//! The calls for datagrams, one after another, until an end comes.
ghost use Rattle.std.specs.Prelude.{◌≡◌, ◌≤◌, ◌<◌, ◌^◌, ℕ, List, length, min, take as first};
ghost use Rattle.polled_datagrams.specs.Receiving.{bytes_of};
ghost use Rattle.stream_model.specs.Decoder.{Release};
ghost use Rattle.scl_outside.specs.Events.{Event};
ghost use Rattle.stream_receiver.specs.States.{counted};
ghost use Rattle.receiving_job.specs.Giving.{IsReady, HasGiven};
ghost use Rattle.recv_job.specs.Turns.{Turns, Finishes, IsTurnAfter, TakesWhat, progress_of};

use crate::line::line_of;
use crate::settings::Settings;
use polled_datagrams::{Polled, RecvFuture};
use receiving_job::{finish, take};
use report_job::Lines;
use scl_outside::{Outside, PutOut, WriteOut, are_bytes};
use scl_run::Ending;
use stream_receiver::Receiver;

/// Why no further datagram is asked for.
#[derive(Clone, Copy, Debug, PartialEq, Eq)]
pub enum End {
    /// No datagram will come.
    Closed,
    /// The most datagrams that are taken came.
    Max,
    /// None came for too long.
    Idle,
}

/// What follows a call for a datagram.
#[derive(Clone, Copy, Debug, PartialEq, Eq)]
pub enum Turn {
    /// Another one.
    On,
    /// No further one.
    Over(End),
    /// The run must end.
    Stop(Ending),
}

/// A receiver, room for a datagram, how many came, and how many calls in a row found none.
#[derive(Drop)]
pub struct Link {
    pub receiver: Receiver,
    pub datagram: RecvFuture,
    pub came: u32,
    pub idle: u32,
}

/// Asks for one datagram and takes it. The lines of what is due then are written before the next one
/// is asked for.
pub fn take_turn<O: Outside>(link: &mut Link, settings: &Settings, out: &mut O) -> Turn
    requires ready { IsReady link.old.receiver }
    requires few { counted link.old.receiver.rules < 2 ^ 63 }
    requires given { (xs : List Release) × HasGiven link.old.receiver xs }
    requires came { link.old.came < settings.now.max }
    requires busy { link.old.idle < settings.now.idle }
    requires most { settings.now.max ≤ 8388607 }
    requires small { settings.now.idle ≤ 4294967295 }
    ensures turns { (xs : List Release) → HasGiven link.old.receiver xs → (es : List Event)
        × Turns settings.now xs (progress_of link.old) (progress_of link.new)
        (O.meaning out.old) (O.meaning out.new) result es }
    ensures pick { link.new.receiver.pick ≡ link.old.receiver.pick }
{
    match link.datagram.poll(out) {
        Polled::Ready(len) => {
            link.came += 1;
            link.idle = 0;
            match take_datagram(link, len, out) {
                PutOut::Done => turn_after(link.came, 0, settings),
                PutOut::WriteFault => Turn::Stop(Ending::WriteFault),
            }
        }
        Polled::Pending => {
            link.idle += 1;
            turn_after(link.came, link.idle, settings)
        }
        Polled::Ended => Turn::Over(End::Closed),
        Polled::Failed => Turn::Stop(Ending::WireFault),
    }
}

/// Takes the datagram that was got last. One that is empty or has more than 9,000 bytes is refused.
fn take_datagram<O: Outside>(link: &mut Link, len: usize, out: &mut O) -> PutOut
    requires ready { IsReady link.old.receiver }
    requires few { counted link.old.receiver.rules < 2 ^ 63 }
    requires given { (xs : List Release) × HasGiven link.old.receiver xs }
    ensures takes { (d : List ℕ) (xs : List Release) → len ≡ min (length d) 9001
        → bytes_of link.old.datagram ≡ first 9001 d → HasGiven link.old.receiver xs → (es : List Event)
        × TakesWhat xs link.old.receiver d result link.new.receiver (O.meaning out.old) (O.meaning out.new) es }
    ensures came { link.new.came ≡ link.old.came }
    ensures idle { link.new.idle ≡ link.old.idle }
    ensures pick { link.new.receiver.pick ≡ link.old.receiver.pick }
{
    if len == 0 || len > 9000 {
        link.receiver.refuse();
        return PutOut::Done;
    }
    let bytes = link.datagram.bytes();
    are_bytes(bytes);
    take(&mut link.receiver, &mut Lines, out, bytes)
}

/// What follows after this number of datagrams, and this number of calls in a row that found none.
fn turn_after(came: u32, idle: u32, settings: &Settings) -> Turn
    ensures { IsTurnAfter settings.now came idle result }
{
    if came >= settings.max() {
        return Turn::Over(End::Max);
    }
    if idle >= settings.idle() {
        return Turn::Over(End::Idle);
    }
    Turn::On
}

/// Writes the lines of what is still held, the END line, and the last line.
pub fn write_end<O: Outside>(link: &mut Link, why: End, out: &mut O) -> PutOut
    requires ready { IsReady link.old.receiver }
    requires few { counted link.old.receiver.rules < 2 ^ 63 }
    requires given { (xs : List Release) × HasGiven link.old.receiver xs }
    ensures { (xs : List Release) → HasGiven link.old.receiver xs → (es : List Event)
        × Finishes xs (progress_of link.old) why (O.meaning out.old) (O.meaning out.new) result es }
{
    match finish(&mut link.receiver, &mut Lines, out) {
        PutOut::Done => {}
        PutOut::WriteFault => return PutOut::WriteFault,
    }
    match out.write(line_of(why, link.came).as_bytes()) {
        WriteOut::Done => PutOut::Done,
        WriteOut::Failed => PutOut::WriteFault,
    }
}
