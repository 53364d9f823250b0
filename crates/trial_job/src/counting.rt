//! The numbers of a trial, by running it.
ghost use Rattle.std.specs.Prelude.{◌≡◌, IfOk};
ghost use Rattle.trial_model.specs.Trial.{trial_counts};
ghost use Rattle.trial_job.specs.Job.{IsTrial};
ghost use Rattle.trial_job.specs.Counting.{counts_as};

use crate::asked::Trial;
use crate::delivering::delivered;
use crate::packing::packed;
use crate::receiving::{Wanted, receive};
use std::alloc::{AllocError, Global};

/// The number of precincts of each codestream of a trial.
const PRECINCTS: u64 = 30;

/// The numbers of the line of a trial.
#[derive(Clone, Copy, Debug, PartialEq, Eq)]
pub struct Counts {
    /// The datagrams that the codestreams are packed into.
    pub datagrams: u64,
    /// The datagrams that are delivered, repeated ones each time.
    pub delivered: u64,
    /// Those of them that thinning keeps.
    pub thinned: u64,
    /// Those of them that the reassembly window keeps.
    pub kept: u64,
    /// The precincts of the codestreams.
    pub precincts: u64,
    /// The precincts whose packets are released.
    pub released: u64,
}

/// Runs a trial: packs its codestreams, delivers some of the datagrams, thins these and receives
/// what is left. `AllocError` where memory runs out.
pub fn count_trial(alloc: Global, asked: Trial) -> Result<Counts, AllocError>
    requires { IsTrial asked }
    ensures { IfOk result (λ counts. counts_as counts
        ≡ trial_counts asked.seed asked.count asked.loss asked.window asked.limit) }
{
    let datagrams = packed(alloc, asked.seed, asked.count)?;
    let positions = delivered(alloc, asked.seed, asked.loss, datagrams.len())?;
    let wanted = Wanted {
        window: asked.window,
        limit: asked.limit,
    };
    let received = receive(alloc, wanted, &datagrams, &positions)?;
    Ok(Counts {
        datagrams: datagrams.len() as u64,
        delivered: positions.len() as u64,
        thinned: received.thinned,
        kept: received.kept,
        precincts: u64::from(asked.count) * PRECINCTS,
        released: received.released,
    })
}
