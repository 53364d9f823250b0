//! The words of `gen`.
ghost use Rattle.std.specs.Prelude.{◌≡◌, ◌≤◌, ◌∷◌, [], ℕ, Bool, IfSome, Some, drop, length};
ghost use Rattle.codestream_make.specs.declared.shape.Sub.{Sub};
ghost use Rattle.scl_cli.specs.declared.command.Command.{Command};
ghost use Rattle.scl_cli.specs.declared.command.Verb.TheVariants as verbs;
ghost use Rattle.scl_cli.specs.Commands.{Spells, Begins, FindsSpelt, sub_word, AreOptions};

use crate::{Command, Words};
use codestream_make::Sub;
use gen_job::Generation;
use j2k_markers::{PCRL, RPCL};
use scl_run::number_within;

/// The chroma subsampling that a word names: `444`, `422` or `420`; none for any other.
fn sub_in(word: &str) -> Option<Sub>
    ensures spelt { IfSome result (λ sub. word.now ≡ sub_word sub) }
    ensures all { (sub : Sub) → word.now ≡ sub_word sub → result ≡ Some sub }
{
    match word {
        "444" => Some(Sub::S444),
        "422" => Some(Sub::S422),
        "420" => Some(Sub::S420),
        _ => None,
    }
}

/// The progression order and whether there are EPH markers, by one option: `rpcl` or `eph`; none for any other word.
#[tactic(auto, using(crate::proofs::GenSpelt::rpcl_alone, crate::proofs::GenSpelt::eph_alone, crate::proofs::GenSpelt::one_of))]
fn one_option(word: &str) -> Option<(u8, bool)>
    ensures spelt { IfSome result (λ o. AreOptions (word.now ∷ []) o.0 o.1) }
    ensures all { (order : ℕ) (eph : Bool) → AreOptions (word.now ∷ []) order eph → result ≡ Some (order, eph) }
{
    match word {
        "rpcl" => Some((RPCL, false)),
        "eph" => Some((PCRL, true)),
        _ => None,
    }
}

/// The progression order and whether there are EPH markers, by two options: `rpcl` and then `eph`; none for other words.
#[tactic(auto, using(crate::proofs::GenSpelt::both_options, crate::proofs::GenSpelt::both_of))]
fn two_options(first: &str, second: &str) -> Option<(u8, bool)>
    ensures spelt { IfSome result (λ o. AreOptions (first.now ∷ second.now ∷ []) o.0 o.1) }
    ensures all { (order : ℕ) (eph : Bool) → AreOptions (first.now ∷ second.now ∷ []) order eph → result ≡ Some (order, eph) }
{
    match first {
        "rpcl" => match second {
            "eph" => Some((RPCL, true)),
            _ => None,
        },
        _ => None,
    }
}

/// The progression order and whether there are EPH markers, by the words after the first seven, which are the options: none,
/// `rpcl`, `eph`, or `rpcl` and then `eph`; none for other words.
fn options_in(words: &Words) -> Option<(u8, bool)>
    requires { 7 ≤ length words.now }
    ensures spelt { IfSome result (λ o. AreOptions (drop 7 words.now) o.0 o.1) }
    ensures all { (order : ℕ) (eph : Bool) → AreOptions (drop 7 words.now) order eph → result ≡ Some (order, eph) }
{
    if words.len() == 7 {
        return Some((PCRL, false));
    }
    if words.len() == 8 {
        return one_option(words.get(7));
    }
    if words.len() == 9 {
        return two_options(words.get(7), words.get(8));
    }
    None
}

/// The command that these words spell, which begin with `gen`; none where they spell no command.
pub fn gen_of(words: &Words) -> Option<Command>
    requires { Begins verbs.Gen words.now }
    ensures spelt { IfSome result (λ command. Spells command words.now) }
    ensures all { FindsSpelt verbs.Gen words.now result }
{
    if words.len() < 7 {
        return None;
    }
    let seed = number_within(words.get(1), 0, u64::MAX)?;
    let width = number_within(words.get(2), 1, 4096)?;
    let height = number_within(words.get(3), 1, 4096)?;
    let components = number_within(words.get(4), 1, 4)?;
    let levels = number_within(words.get(5), 0, 15)?;
    let sub = sub_in(words.get(6))?;
    let options = options_in(words)?;
    Some(Command::Gen(Generation {
        seed,
        width: width as u32,
        height: height as u32,
        components: components as u8,
        levels: levels as u8,
        sub,
        order: options.0,
        eph: options.1,
    }))
}
