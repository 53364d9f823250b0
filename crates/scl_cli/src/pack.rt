//! The words of `pack`.
ghost use Rattle.std.specs.Prelude.{◌≡◌, ◌≤◌, Bool, IfSome, Some, length};
ghost use Rattle.stream_model.specs.Cut.{Plan};
ghost use Rattle.scl_cli.specs.declared.command.Command.{Command};
ghost use Rattle.scl_cli.specs.declared.command.Verb.TheVariants as verbs;
ghost use Rattle.scl_cli.specs.Commands.{Spells, Begins, FindsSpelt, HasPlan, mode_word};

use crate::{Command, Words};
use packetiser::PackPlan;
use scl_run::number_within;

/// Whether a word asks that a change of resolution ends a payload: `split`, or `plain`; none where it is neither.
fn split_in(word: &str) -> Option<bool>
    ensures spelt { IfSome result (λ split. word.now ≡ mode_word split) }
    ensures all { (split : Bool) → word.now ≡ mode_word split → result ≡ Some split }
{
    match word {
        "plain" => Some(false),
        "split" => Some(true),
        _ => None,
    }
}

/// The plan that the seven words after the first spell; none where they spell none.
pub fn plan_in(words: &Words) -> Option<PackPlan>
    requires { 8 ≤ length words.now }
    ensures spelt { IfSome result (λ plan. HasPlan words.now plan) }
    ensures all { (plan : Plan) → HasPlan words.now plan → result ≡ Some plan }
{
    let mtu = number_within(words.get(1), 64, 4116)?;
    let split = split_in(words.get(2))?;
    let kind = number_within(words.get(3), 0, 127)?;
    let source = number_within(words.get(4), 0, 4_294_967_295)?;
    let number = number_within(words.get(5), 0, 16_777_215)?;
    let stamp = number_within(words.get(6), 0, 4_294_967_295)?;
    let step = number_within(words.get(7), 1, 65_535)?;
    PackPlan::new(
        mtu as u16,
        split,
        kind as u8,
        source as u32,
        number as u32,
        stamp as u32,
        step as u16,
    )
}

/// The command that these words spell, which begin with `pack`; none where they spell no command.
pub fn pack_of(words: &Words) -> Option<Command>
    requires { Begins verbs.Pack words.now }
    ensures spelt { IfSome result (λ command. Spells command words.now) }
    ensures all { FindsSpelt verbs.Pack words.now result }
{
    if words.len() != 8 {
        return None;
    }
    Some(Command::Pack(plan_in(words)?))
}
