//! The top call.
ghost use Rattle.std.specs.Prelude.{◌≡◌, ◌↔◌, List};
ghost use Rattle.scl_outside.specs.Events.{Event};
ghost use Rattle.scl_run.specs.Performing.{Performs};
ghost use Rattle.scl_cli.specs.declared.command.Command.{Command};
ghost use Rattle.scl_cli.specs.Commands.{form, SpellsNothing};
ghost use Rattle.scl_cli.specs.Jobs.{job};
ghost use Rattle.scl_cli.specs.Runs.{Ran, Decided, MayLackMemory};
ghost use Rattle.scl_cli.specs.ReportPromise.{ReportsStreams};
ghost use Rattle.scl_cli.specs.PackPromise.{PacksStreams};
ghost use Rattle.scl_cli.specs.RebuildPromise.{RebuildsStreams};
ghost use Rattle.scl_cli.specs.RecvPromise.{ReceivesStreams};
ghost use Rattle.scl_cli.specs.SendPromise.{SendsStreams};

use crate::Words;
use crate::command::{Command, command_of};
use crate::head::show_head;
use crate::order::show_order;
use crate::thin::thin;
use deliver_job::deliver;
use gen_job::write_generated;
use pack_job::pack;
use parse_job::parse;
use rebuild_job::rebuild;
use recv_job::recv;
use relay_job::relay;
use report_job::report;
use scl_outside::Outside;
use scl_run::{Ending, finish};
use send_job::send;
use std::alloc::Global;
use trial_job::write_trial;

/// Performs a command.
fn perform<O: Outside>(alloc: Global, command: Command, out: &mut O) -> Ending
    requires peers { (O.meaning out.old).wire.peers ≡ 0 }
    requires range { (form command).IsInRange }
    ensures { (es : List Event) × Performs (job command) (O.meaning out.old) (O.meaning out.new) result es }
{
    match command {
        Command::Thin(limit) => thin(limit, out),
        Command::Head => show_head(out),
        Command::Order => show_order(out),
        Command::Parse(stamps) => parse(alloc, stamps.first, stamps.step, out),
        Command::Pack(plan) => pack(alloc, plan, out),
        Command::Report(pick) => report(alloc, pick, out),
        Command::Rebuild(pick) => rebuild(alloc, pick, out),
        Command::Recv(settings) => recv(alloc, &settings, out),
        Command::Send(settings) => send(alloc, settings, out),
        Command::Relay(settings) => relay(alloc, &settings, out),
        Command::Deliver(list) => deliver(alloc, list.items(), out),
        Command::Gen(asked) => write_generated(alloc, asked, out),
        Command::Trial(asked) => write_trial(alloc, asked, out),
    }
}

/// Runs the command that the words spell, over an outside without peers, and answers the program's status:
/// 0, the job was done to its end;
/// 2, the words are outside the grammar;
/// 3, a read failed;
/// 4, a write failed;
/// 5, an address was refused, or no datagram could be received;
/// 6, the input is refused;
/// 7, out of memory, of a command that may be.
pub fn run<O: Outside>(alloc: Global, words: &Words, out: &mut O) -> u8
    requires peers { (O.meaning out.old).wire.peers ≡ 0 }
    ensures ran { Ran words.now (O.meaning out.old) (O.meaning out.new) result }
    ensures words { (result ≡ 2) ↔ SpellsNothing words.now }
    ensures decided { Decided words.now (O.meaning out.old) (O.meaning out.new) result }
    ensures memory { result ≡ 7 → MayLackMemory words.now (O.meaning out.old) (O.meaning out.new) }
    ensures report { ReportsStreams words.now (O.meaning out.old) (O.meaning out.new) result }
    ensures pack { PacksStreams words.now (O.meaning out.old) (O.meaning out.new) result }
    ensures recv { ReceivesStreams words.now (O.meaning out.old) (O.meaning out.new) result }
    ensures send { SendsStreams words.now (O.meaning out.old) (O.meaning out.new) result }
    ensures rebuild { RebuildsStreams words.now (O.meaning out.old) (O.meaning out.new) result }
{
    let Some(command) = command_of(words) else {
        out.note(b"scl: words\n");
        return 2;
    };
    let ending = perform(alloc, command, out);
    finish(ending, out)
}
