//! The codestreams of a trial, cut into datagrams.
ghost use Rattle.std.specs.Prelude.{◌≡◌, ◌≤◌, ◌^◌, ℕ, List, [], Some, IfOk, length};
ghost use Rattle.codestream_model.specs.Codestream.{joined};
ghost use Rattle.stream_model.specs.Stream.{Parts};
ghost use Rattle.stream_model.specs.ThinnedLaws.{CanBeSent, cut_of};
ghost use Rattle.trial_model.specs.Trial.{trial_plan, trial_parts};
ghost use Rattle.scl_outside.specs.Memory.{sure_meaning};
ghost use Rattle.packetiser.specs.Sending.{Sender};

use crate::codestreams::codestreams;
use crate::datagrams::Datagrams;
use packetiser::{PackOut, PackPlan, Packetiser};
use scl_outside::NeverFails;
use std::alloc::{AllocError, Global};

/// The datagrams of the codestreams of a trial. `AllocError` where memory runs out.
pub fn packed(alloc: Global, seed: u64, count: u8) -> Result<Datagrams, AllocError>
    requires { count ≤ 64 }
    ensures { IfOk result (λ datagrams. datagrams ≡ cut_of trial_plan (trial_parts seed count)) }
{
    let bytes = codestreams(alloc, seed, count)?;
    let mut input = NeverFails::new(alloc, &bytes, &[], 0)?;
    let mut sender = Packetiser::new(alloc, plan())?;
    datagrams_of(alloc, &mut sender, &mut input)
}

/// How a trial packs: datagrams of at most 1,400 bytes, a change of resolution ends a payload, and
/// the sequence numbers wrap on the way.
fn plan() -> PackPlan
    ensures { result ≡ trial_plan }
{
    let Some(plan) = PackPlan::new(1400, true, 96, 1, 16_777_000, 0, 3600) else {
        unreachable!()
    };
    plan
}

/// The datagrams that a new sender makes of an input of codestreams that can be sent.
fn datagrams_of(
    alloc: Global,
    sender: &mut Packetiser,
    input: &mut NeverFails,
) -> Result<Datagrams, AllocError>
    requires { Sender sender.old.plan [] [] sender.old }
    ensures { (parts : List Parts) (codestreams : List (List ℕ))
        → CanBeSent sender.old.plan parts codestreams → length (joined codestreams) ≤ 2 ^ 40
        → (sure_meaning input.old).left ≡ Some (joined codestreams)
        → IfOk result (λ datagrams. datagrams ≡ cut_of sender.old.plan parts) }
{
    let mut datagrams = Datagrams::new(alloc);
    while let PackOut::Datagram = sender.step(input) {
        datagrams.push(alloc, sender.bytes())?;
    }
    Ok(datagrams)
}
