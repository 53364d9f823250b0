//! The words of `report` and `rebuild`: the stream that is picked.
ghost use Rattle.std.specs.Prelude.{◌≡◌, ◌≤◌, ◌<◌, ◌^◌, ℕ, Option, IfSome, Some, length};
ghost use Rattle.stream_receiver.specs.declared.pick.Pick.{Pick};
ghost use Rattle.scl_cli.specs.declared.command.Command.{Command};
ghost use Rattle.scl_cli.specs.declared.command.Verb.TheVariants as verbs;
ghost use Rattle.scl_cli.specs.Commands.{Spells, Begins, FindsSpelt, source_word, IsSource, HasPick};

use crate::{Command, Words};
use scl_run::number_within;
use stream_receiver::Pick;

/// The source that a word picks: an SSRC, or `any`; none where it is neither.
fn source_in(word: &str) -> Option<Option<u32>>
    ensures spelt { IfSome result (λ source. IsSource source × (word.now ≡ source_word source)) }
    ensures all { (source : Option ℕ) → IsSource source → word.now ≡ source_word source → result ≡ Some source }
{
    if word == "any" {
        return Some(None);
    }
    let source = number_within(word, 0, 4_294_967_295)?;
    Some(Some(source as u32))
}

/// The stream that the three words after the first pick; none where they pick none.
pub fn pick_in(words: &Words) -> Option<Pick>
    requires { 4 ≤ length words.now }
    ensures spelt { IfSome result (λ pick. HasPick words.now pick) }
    ensures all { (pick : Pick) → HasPick words.now pick → result ≡ Some pick }
{
    let kind = number_within(words.get(1), 0, 127)?;
    let source = source_in(words.get(2))?;
    let window = number_within(words.get(3), 1, 16_384)?;
    Some(Pick {
        kind: kind as u8,
        source,
        window: window as u16,
    })
}

/// The command that these words spell, which begin with `report`; none where they spell no command.
pub fn report_of(words: &Words) -> Option<Command>
    requires { Begins verbs.Report words.now }
    ensures spelt { IfSome result (λ command. Spells command words.now) }
    ensures all { FindsSpelt verbs.Report words.now result }
{
    if words.len() != 4 {
        return None;
    }
    Some(Command::Report(pick_in(words)?))
}

/// The command that these words spell, which begin with `rebuild`; none where they spell no command.
pub fn rebuild_of(words: &Words) -> Option<Command>
    requires { Begins verbs.Rebuild words.now }
    ensures spelt { IfSome result (λ command. Spells command words.now) }
    ensures all { FindsSpelt verbs.Rebuild words.now result }
{
    if words.len() != 4 {
        return None;
    }
    Some(Command::Rebuild(pick_in(words)?))
}
