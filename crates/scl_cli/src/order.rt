//! `order`: the precincts of the main header that the input begins with, in lines in the order of their packets.
ghost use Rattle.std.specs.Prelude.{List, IfSome};
ghost use Rattle.scl_outside.specs.Events.{Event};
ghost use Rattle.scl_run.specs.Performing.{Performs};
ghost use Rattle.scl_cli.specs.declared.command.Command.{Command};
ghost use Rattle.scl_cli.specs.declared.command.Verb.TheVariants as verbs;
ghost use Rattle.scl_cli.specs.Commands.{Spells, Begins, FindsSpelt};
ghost use Rattle.scl_cli.specs.OrderLines.{order_lines};
ghost use Rattle.scl_cli.specs.HeaderJobs.{order_job};
ghost use Rattle.scl_cli.specs.Showing.{Shows};

use crate::header_input::find_head;
use crate::order_lines::line_of;
use crate::{Command, Words};
use j2k_markers::Head;
use pcrl_order::OrderWalk;
use precinct_geometry::Geometry;
use scl_outside::{Duct, WriteOut};
use scl_run::Ending;

/// The command that these words spell, which begin with `order`; none where they spell no command.
pub fn order_of(words: &Words) -> Option<Command>
    requires { Begins verbs.Order words.now }
    ensures spelt { IfSome result (λ command. Spells command words.now) }
    ensures all { FindsSpelt verbs.Order words.now result }
{
    if words.len() == 1 {
        Some(Command::Order)
    } else {
        None
    }
}

/// Shows the precincts of the main header at the front of the input in packet order, as soon as it is whole.
pub fn show_order<D: Duct>(out: &mut D) -> Ending
    ensures { (es : List Event) × Performs order_job (D.meaning out.old) (D.meaning out.new) result es }
{
    match find_head(out) {
        Ok(head) => write_order(head, out),
        Err(ending) => ending,
    }
}

/// Writes the line of each precinct of the header's image, in packet order.
fn write_order<D: Duct>(head: Head, out: &mut D) -> Ending
    ensures { (es : List Event) × Shows (order_lines head) (D.meaning out.old) (D.meaning out.new) result es }
{
    let mut walk = OrderWalk::new(Geometry::new(head));
    loop {
        match out.write(line_of(&walk).as_bytes()) {
            WriteOut::Done => {}
            WriteOut::Failed => return Ending::WriteFault,
        }
        if !walk.advance() {
            return Ending::Done;
        }
    }
}
