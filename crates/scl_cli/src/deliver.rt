//! The words of `deliver`.
ghost use Rattle.std.specs.Prelude.{◌≡◌, IfSome};
ghost use Rattle.scl_cli.specs.declared.command.Command.{Command};
ghost use Rattle.scl_cli.specs.declared.command.Verb.TheVariants as verbs;
ghost use Rattle.scl_cli.specs.Commands.{Spells, Begins, FindsSpelt};

use crate::{Command, Words};
use deliver_job::positions_in;

/// The command that these words spell, which begin with `deliver`; none where they spell no command.
pub fn deliver_of(words: &Words) -> Option<Command>
    requires { Begins verbs.Deliver words.now }
    ensures spelt { IfSome result (λ command. Spells command words.now) }
    ensures all { FindsSpelt verbs.Deliver words.now result }
{
    if words.len() != 2 {
        return None;
    }
    let list = positions_in(words.get(1))?;
    Some(Command::Deliver(list))
}
