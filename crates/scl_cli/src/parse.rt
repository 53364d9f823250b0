//! The words of `parse`.
ghost use Rattle.std.specs.Prelude.{IfSome};
ghost use Rattle.scl_cli.specs.declared.command.Command.{Command};
ghost use Rattle.scl_cli.specs.declared.command.Verb.TheVariants as verbs;
ghost use Rattle.scl_cli.specs.Commands.{Spells, Begins, FindsSpelt};

use crate::command::Stamps;
use crate::{Command, Words};
use scl_run::number_within;

/// The command that these words spell, which begin with `parse`; none where they spell no command.
pub fn parse_of(words: &Words) -> Option<Command>
    requires { Begins verbs.Parse words.now }
    ensures spelt { IfSome result (λ command. Spells command words.now) }
    ensures all { FindsSpelt verbs.Parse words.now result }
{
    if words.len() != 3 {
        return None;
    }
    let first = number_within(words.get(1), 0, 4_294_967_295)?;
    let step = number_within(words.get(2), 1, 65_535)?;
    Some(Command::Parse(Stamps {
        first: first as u32,
        step: step as u16,
    }))
}
