//! The words of `send`.
ghost use Rattle.std.specs.Prelude.{◌≡◌, List, ℕ, IfSome, Some, length, slice_get};
ghost use Rattle.send_job.specs.Settings.{IsAddress};
ghost use Rattle.scl_cli.specs.declared.command.Command.{Command};
ghost use Rattle.scl_cli.specs.declared.command.Verb.TheVariants as verbs;
ghost use Rattle.scl_cli.specs.Commands.{Spells, Begins, FindsSpelt};

use crate::pack::plan_in;
use crate::relay::is_address;
use crate::{Command, Words};
use scl_run::number_within;
use send_job::Settings;

/// The command that these words spell, which begin with `send`; none where they spell no command.
pub fn send_of(words: &Words) -> Option<Command>
    requires { Begins verbs.Send words.now }
    ensures spelt { IfSome result (λ command. Spells command words.now) }
    ensures all { FindsSpelt verbs.Send words.now result }
{
    if words.len() != 11 {
        return None;
    }
    let local = is_address(words.get(9));
    let peer = is_address(words.get(10));
    if local && peer {
        sender_of(words)
    } else {
        None
    }
}

/// The command that these eleven words spell, the last two of which are addresses.
fn sender_of(words: &Words) -> Option<Command>
    requires begins { Begins verbs.Send words.now }
    requires count { length words.now ≡ 11 }
    requires local { (word : List ℕ) → slice_get words.now 9 ≡ Some word → IsAddress word }
    requires peer { (word : List ℕ) → slice_get words.now 10 ≡ Some word → IsAddress word }
    ensures spelt { IfSome result (λ command. Spells command words.now) }
    ensures all { FindsSpelt verbs.Send words.now result }
{
    let plan = plan_in(words)?;
    let idle = number_within(words.get(8), 1, 4_294_967_295)?;
    let settings = Settings::new(plan, idle as u32, words.get(9), words.get(10));
    Some(Command::Send(settings))
}
