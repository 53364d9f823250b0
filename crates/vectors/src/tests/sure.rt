//! Over an object that never fails the words and the input alone decide.
ghost use Rattle.std.specs.Prelude.{◌≡◌, ◌⊎◌, List, ℕ, Some};
ghost use Rattle.scl_outside.specs.Memory.{sure_meaning};
ghost use Rattle.scl_cli.specs.declared.command.Command.{Command};
ghost use Rattle.scl_run.specs.declared.ending.Refusal.{Refusal};
ghost use Rattle.scl_cli.specs.Commands.{Spells};
ghost use Rattle.scl_run.specs.Runs.{IsDone, EndsRefused};
ghost use Rattle.scl_cli.specs.Jobs.{job};

use super::*;

/// No fault is answered; an accepted input gives 0 and a refused one 6, or 7 where the job may be out of memory.
fn run_surely(alloc: Global, words: &Words, duct: &mut NeverFails) -> u8
    requires { (sure_meaning duct.old).wire.peers ≡ 0 }
    ensures no_fault { (result ≡ 0) ⊎ ((result ≡ 2) ⊎ ((result ≡ 6) ⊎ (result ≡ 7))) }
    ensures decided { (command : Command) (input : List ℕ) → Spells command words.now → (sure_meaning duct.old).left ≡ Some input
        → ((job command).inputs.Accepts input → IsDone (job command).memory result)
        × ((r : Refusal) → (job command).inputs.Refuses input r → EndsRefused (job command).memory r (sure_meaning duct.old) (sure_meaning duct.new) result) }
{
    run(alloc, words, duct)
}

#[test]
fn words_and_input_alone_decide(rt: HostRuntime) -> Result<(), Fail> {
    let cases: [(&[&str], &[u8], u8); 5] = [
        (&["thin", "7"], &CAPTURE_A, 0),
        (&["thin", "0"], &CAPTURE_B, 0),
        (&["thin", "7"], &CAPTURE_B[..507], 6),
        (&["thin", "7"], &[], 0),
        (&["thin", "9"], &CAPTURE_A, 2),
    ];
    for (row, (texts, input, wanted)) in cases.iter().enumerate() {
        let words = words_of(rt.alloc(), texts)?;
        let mut duct = NeverFails::new(rt.alloc(), input, &[1, 2, 3], ROOM)?;
        assert_eq!(rt;
            run_surely(rt.alloc(), &words, &mut duct),
            *wanted,
            "in row {row}"
        );
        assert!(rt; duct.told());
    }
    Ok(())
}
