//! The words of `relay`.
ghost use Rattle.std.specs.Prelude.{◌≡◌, ◌≤◌, ◌<◌, ◌+◌, ◌++◌, ◌↔◌, ◌∷◌, [], true, List, ℕ, IfSome, Some, length, drop, slice_get};
ghost use Rattle.relay_job.specs.Settings.{IsAddress};
ghost use Rattle.scl_cli.specs.declared.command.Command.{Command};
ghost use Rattle.scl_cli.specs.declared.command.Verb.TheVariants as verbs;
ghost use Rattle.scl_cli.specs.Commands.{Spells, Begins, FindsSpelt};
ghost use Rattle.scl_cli.specs.RelayWords.{AddsSpelt, AddsAll, SpeltTargets, FindsTargets};

use crate::{Command, Words};
use relay_job::Settings;
use scl_run::number_within;

/// Whether a word can be an address: 1 to 64 bytes.
pub fn is_address(word: &str) -> bool
    ensures { (result ≡ true) ↔ IsAddress word.now }
{
    !word.is_empty() && word.len() <= 64
}

/// Adds the receiver that the three words from this place on spell. False where they spell none.
fn add_target(words: &Words, at: usize, settings: &mut Settings) -> bool
    requires within { at + 3 ≤ length words.now }
    requires room { length settings.old.targets < 64 }
    ensures spelt { result ≡ true → AddsSpelt (drop at words.now) settings.old settings.new }
    ensures all { AddsAll (drop at words.now) settings.old result settings.new }
{
    let _len = words.len();
    let good = is_address(words.get(at));
    if good {
        add_numbers(words, at, settings)
    } else {
        false
    }
}

/// Adds the receiver that the three words from this place on spell, the first of which is an address.
fn add_numbers(words: &Words, at: usize, settings: &mut Settings) -> bool
    requires within { at + 3 ≤ length words.now }
    requires room { length settings.old.targets < 64 }
    requires address { (word : List ℕ) → slice_get words.now at ≡ Some word → IsAddress word }
    ensures spelt { result ≡ true → AddsSpelt (drop at words.now) settings.old settings.new }
    ensures all { AddsAll (drop at words.now) settings.old result settings.new }
{
    let _len = words.len();
    let address = words.get(at);
    let Some(limit) = number_within(words.get(at + 1), 0, 7) else {
        return false;
    };
    let Some(depth) = number_within(words.get(at + 2), 1, 4096) else {
        return false;
    };
    settings.add(address, limit as u8, depth as u16);
    true
}

/// Adds the receivers that the words after the first four spell, three words each. False where they spell none.
fn add_targets(words: &Words, settings: &mut Settings) -> bool
    requires some { 4 ≤ length words.now }
    requires none { settings.old.targets ≡ [] }
    ensures spelt { result ≡ true → SpeltTargets (drop 4 words.now) settings.old settings.new }
    ensures all { FindsTargets (drop 4 words.now) result settings.new }
{
    let mut at = 4;
    while at < words.len() {
        if settings.count() == 64 {
            return false;
        }
        if words.len() - at < 3 {
            return false;
        }
        let added = add_target(words, at, settings);
        if added {
            at += 3;
        } else {
            return false;
        }
    }
    true
}

/// The command that these words spell, which begin with `relay`; none where they spell no command.
pub fn relay_of(words: &Words) -> Option<Command>
    requires { Begins verbs.Relay words.now }
    ensures spelt { IfSome result (λ command. Spells command words.now) }
    ensures all { FindsSpelt verbs.Relay words.now result }
{
    if words.len() < 7 {
        return None;
    }
    let good = is_address(words.get(3));
    if good { settings_of(words) } else { None }
}

/// The command that these words spell, at least seven, the fourth of which is an address.
fn settings_of(words: &Words) -> Option<Command>
    requires begins { Begins verbs.Relay words.now }
    requires many { 7 ≤ length words.now }
    requires local { (word : List ℕ) → slice_get words.now 3 ≡ Some word → IsAddress word }
    ensures spelt { IfSome result (λ command. Spells command words.now) }
    ensures all { FindsSpelt verbs.Relay words.now result }
{
    let max = number_within(words.get(1), 1, 8_388_607)?;
    let idle = number_within(words.get(2), 1, 4_294_967_295)?;
    let mut settings = Settings::new(max as u32, idle as u32, words.get(3));
    let added = add_targets(words, &mut settings);
    if added {
        Some(Command::Relay(settings))
    } else {
        None
    }
}
