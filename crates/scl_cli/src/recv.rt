//! The words of `recv`.
ghost use Rattle.std.specs.Prelude.{◌≡◌, List, ℕ, IfSome, Some, length, slice_get};
ghost use Rattle.relay_job.specs.Settings.{IsAddress};
ghost use Rattle.scl_cli.specs.declared.command.Command.{Command};
ghost use Rattle.scl_cli.specs.declared.command.Verb.TheVariants as verbs;
ghost use Rattle.scl_cli.specs.Commands.{Spells, Begins, FindsSpelt};

use crate::pick::pick_in;
use crate::relay::is_address;
use crate::{Command, Words};
use recv_job::Settings;
use scl_run::number_within;

/// The command that these words spell, which begin with `recv`; none where they spell no command.
pub fn recv_of(words: &Words) -> Option<Command>
    requires { Begins verbs.Recv words.now }
    ensures spelt { IfSome result (λ command. Spells command words.now) }
    ensures all { FindsSpelt verbs.Recv words.now result }
{
    if words.len() != 7 {
        return None;
    }
    let good = is_address(words.get(6));
    if good { receiver_of(words) } else { None }
}

/// The command that these seven words spell, the last of which is an address.
fn receiver_of(words: &Words) -> Option<Command>
    requires begins { Begins verbs.Recv words.now }
    requires count { length words.now ≡ 7 }
    requires local { (word : List ℕ) → slice_get words.now 6 ≡ Some word → IsAddress word }
    ensures spelt { IfSome result (λ command. Spells command words.now) }
    ensures all { FindsSpelt verbs.Recv words.now result }
{
    let pick = pick_in(words)?;
    let max = number_within(words.get(4), 1, 8_388_607)?;
    let idle = number_within(words.get(5), 1, 4_294_967_295)?;
    let settings = Settings::new(pick, max as u32, idle as u32, words.get(6));
    Some(Command::Recv(settings))
}
