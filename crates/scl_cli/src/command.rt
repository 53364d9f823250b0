//! The grammar of a command line.
ghost use Rattle.std.specs.Prelude.{◌≡◌, ◌∷◌, IfSome, Some, List};
ghost use Rattle.scl_cli.specs.declared.command.Command.{Command};
ghost use Rattle.scl_cli.specs.declared.command.Verb.{Verb};
ghost use Rattle.scl_cli.specs.Commands.{Spells, verb_word};

use crate::Words;
use crate::deliver::deliver_of;
use crate::generation::gen_of;
use crate::head::head_of;
use crate::order::order_of;
use crate::pack::pack_of;
use crate::parse::parse_of;
use crate::pick::{rebuild_of, report_of};
use crate::recv::recv_of;
use crate::relay::relay_of;
use crate::send::send_of;
use crate::thin::thin_of;
use crate::trial::trial_of;
use deliver_job::Positions;
use gen_job::Generation;
use packetiser::PackPlan;
use recv_job::Settings as Reception;
use relay_job::Settings;
use send_job::Settings as Sending;
use stream_receiver::Pick;
use trial_job::Trial;

/// What the program is asked to do.
#[derive(Drop)]
pub enum Command {
    /// `thin T`: pass on the frames of a capture that serve a receiver with the limit T, 0 to 7.
    Thin(u8),
    /// `head`: show the values of the main header at the front of the input.
    Head,
    /// `order`: show its precincts in the order of their packets.
    Order,
    /// `parse STAMP STEP`: write the lines of the packets of codestreams.
    Parse(Stamps),
    /// `pack MTU plain|split KIND SOURCE NUMBER STAMP STEP`: cut codestreams into the datagrams of a capture.
    Pack(PackPlan),
    /// `report KIND SOURCE WINDOW`: write the lines of the precincts that a capture gives of a stream.
    Report(Pick),
    /// `rebuild KIND SOURCE WINDOW`: write codestreams again from the packets that a capture gives of a stream.
    Rebuild(Pick),
    /// `recv KIND SOURCE WINDOW MAX IDLE LOCAL`: write the lines of the precincts of a stream that comes.
    Recv(Reception),
    /// `send MTU plain|split KIND SOURCE NUMBER STAMP STEP IDLE LOCAL PEER`: send codestreams to a peer.
    Send(Sending),
    /// `relay MAX IDLE LOCAL` and 1 to 64 times `PEER T DEPTH`: pass on datagrams to each receiver.
    Relay(Settings),
    /// `deliver LIST`: write the frames of a capture at the listed positions.
    Deliver(Positions),
    /// `gen SEED W H C LEVELS 444|422|420 [rpcl] [eph]`: write a generated codestream.
    Gen(Generation),
    /// `trial SEED COUNT LOSS WINDOW T`: write one line about generated codestreams that are packed, lost, thinned and
    /// received.
    Trial(Trial),
}

/// The timestamps of codestreams: that of the first, and the step from one to the next, at least 1, modulo 2^32.
#[derive(Clone, Copy, Debug, PartialEq, Eq)]
pub struct Stamps {
    pub first: u32,
    pub step: u16,
}

/// The first word of a command.
#[derive(Clone, Copy, Debug, PartialEq, Eq)]
pub enum Verb {
    Thin,
    Head,
    Order,
    Parse,
    Pack,
    Report,
    Rebuild,
    Recv,
    Send,
    Relay,
    Deliver,
    Gen,
    Trial,
}

/// The command that a word begins.
fn verb_in(word: &str) -> Option<Verb>
    ensures named { IfSome result (λ verb. word.now ≡ verb_word verb) }
    ensures all { (verb : Verb) → word.now ≡ verb_word verb → result ≡ Some verb }
{
    match word {
        "thin" => Some(Verb::Thin),
        "head" => Some(Verb::Head),
        "order" => Some(Verb::Order),
        "parse" => Some(Verb::Parse),
        "pack" => Some(Verb::Pack),
        "report" => Some(Verb::Report),
        "rebuild" => Some(Verb::Rebuild),
        "recv" => Some(Verb::Recv),
        "send" => Some(Verb::Send),
        "relay" => Some(Verb::Relay),
        "deliver" => Some(Verb::Deliver),
        "gen" => Some(Verb::Gen),
        "trial" => Some(Verb::Trial),
        _ => None,
    }
}

/// The command that the words spell.
pub fn command_of(words: &Words) -> Option<Command>
    ensures spelt { IfSome result (λ command. Spells command words.now) }
    ensures all { (command : Command) → Spells command words.now → result ≡ Some command }
{
    if words.is_empty() {
        return None;
    }
    match verb_in(words.get(0))? {
        Verb::Thin => thin_of(words),
        Verb::Head => head_of(words),
        Verb::Order => order_of(words),
        Verb::Parse => parse_of(words),
        Verb::Pack => pack_of(words),
        Verb::Report => report_of(words),
        Verb::Rebuild => rebuild_of(words),
        Verb::Recv => recv_of(words),
        Verb::Send => send_of(words),
        Verb::Relay => relay_of(words),
        Verb::Deliver => deliver_of(words),
        Verb::Gen => gen_of(words),
        Verb::Trial => trial_of(words),
    }
}
