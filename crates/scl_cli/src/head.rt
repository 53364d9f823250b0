//! `head`: the values of the main header that the input begins with, in lines.
ghost use Rattle.std.specs.Prelude.{List, IfSome};
ghost use Rattle.scl_outside.specs.Events.{Event};
ghost use Rattle.scl_run.specs.Performing.{Performs};
ghost use Rattle.scl_cli.specs.declared.command.Command.{Command};
ghost use Rattle.scl_cli.specs.declared.command.Verb.TheVariants as verbs;
ghost use Rattle.scl_cli.specs.Commands.{Spells, Begins, FindsSpelt};
ghost use Rattle.scl_cli.specs.HeadLines.{head_lines};
ghost use Rattle.scl_cli.specs.HeaderJobs.{head_job};
ghost use Rattle.scl_cli.specs.Showing.{Shows};

use crate::head_lines::lines_of;
use crate::header_input::find_head;
use crate::{Command, Words};
use j2k_markers::Head;
use scl_outside::{Duct, WriteOut};
use scl_run::Ending;

/// The command that these words spell, which begin with `head`; none where they spell no command.
pub fn head_of(words: &Words) -> Option<Command>
    requires { Begins verbs.Head words.now }
    ensures spelt { IfSome result (λ command. Spells command words.now) }
    ensures all { FindsSpelt verbs.Head words.now result }
{
    if words.len() == 1 {
        Some(Command::Head)
    } else {
        None
    }
}

/// Shows the values of the main header at the front of the input, as soon as it is whole.
pub fn show_head<D: Duct>(out: &mut D) -> Ending
    ensures { (es : List Event) × Performs head_job (D.meaning out.old) (D.meaning out.new) result es }
{
    match find_head(out) {
        Ok(head) => write_values(&head, out),
        Err(ending) => ending,
    }
}

/// Writes the lines of a main header's values.
fn write_values<D: Duct>(head: &Head, out: &mut D) -> Ending
    ensures { (es : List Event) × Shows (head_lines head.now) (D.meaning out.old) (D.meaning out.new) result es }
{
    match out.write(lines_of(head).as_bytes()) {
        WriteOut::Done => Ending::Done,
        WriteOut::Failed => Ending::WriteFault,
    }
}
