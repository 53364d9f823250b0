//! The words of `trial`.
ghost use Rattle.std.specs.Prelude.{IfSome};
ghost use Rattle.scl_cli.specs.declared.command.Verb.TheVariants as verbs;
ghost use Rattle.scl_cli.specs.Commands.{Spells, Begins, FindsSpelt};

use crate::{Command, Words};
use scl_run::number_within;
use trial_job::Trial;

/// The command that these words spell, which begin with `trial`; none where they spell no command.
pub fn trial_of(words: &Words) -> Option<Command>
    requires { Begins verbs.Trial words.now }
    ensures spelt { IfSome result (λ command. Spells command words.now) }
    ensures all { FindsSpelt verbs.Trial words.now result }
{
    if words.len() != 6 {
        return None;
    }
    let seed = number_within(words.get(1), 0, u64::MAX)?;
    let count = number_within(words.get(2), 1, 64)?;
    let loss = number_within(words.get(3), 0, 1000)?;
    let window = number_within(words.get(4), 1, 16384)?;
    let limit = number_within(words.get(5), 0, 7)?;
    Some(Command::Trial(Trial {
        seed,
        count: count as u8,
        loss: loss as u16,
        window: window as u16,
        limit: limit as u8,
    }))
}
