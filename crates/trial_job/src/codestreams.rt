//! The codestreams of a trial.
ghost use Rattle.std.specs.Prelude.{◌≡◌, ◌≤◌, IfOk};
ghost use Rattle.codestream_model.specs.Codestream.{joined};
ghost use Rattle.trial_model.specs.TrialLaws.{trial_codestreams};

use codestream_make::{Sub, generate};
use j2k_markers::PCRL;
use std::alloc::{AllocError, Global};

/// The codestreams of a trial, one after another: pictures of 640 by 480 samples, each from the
/// seed after that of the one before it, modulo 2^64. `AllocError` where memory runs out.
pub fn codestreams(alloc: Global, seed: u64, count: u8) -> Result<Vec<u8>, AllocError>
    ensures { IfOk result (λ bytes. bytes.items ≡ joined (trial_codestreams seed count)) }
{
    let mut bytes = Vec::new(alloc);
    for i in 0..count {
        let seed = seed.wrapping_add(u64::from(i));
        let codestream = generate(alloc, seed, 640, 480, 3, 5, Sub::S422, PCRL, false)?;
        bytes.extend_from_slice(&codestream)?;
    }
    Ok(bytes)
}
