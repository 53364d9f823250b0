//! A generated codestream, written.
ghost use Rattle.std.specs.Prelude.{◌≡◌, List};
ghost use Rattle.trial_model.specs.GeneratorLaws.{IsShape};
ghost use Rattle.scl_outside.specs.Events.{Event};
ghost use Rattle.scl_run.specs.Performing.{Performs};
ghost use Rattle.gen_job.specs.GenJob.{shape_of, gen_job};

use codestream_make::{Sub, generate};
use scl_outside::{Duct, WriteOut};
use scl_run::Ending;
use std::alloc::Global;

/// What is asked for: a seed, and the shape of the codestream.
#[derive(Clone, Copy, Debug, PartialEq, Eq)]
pub struct Generation {
    pub seed: u64,
    /// Xsiz, 1 to 4096.
    pub width: u32,
    /// Ysiz, 1 to 4096.
    pub height: u32,
    /// The number of components, 1 to 4.
    pub components: u8,
    /// N_L, at most 15.
    pub levels: u8,
    /// The steps of components 1 and 2.
    pub sub: Sub,
    /// The progression order: 2 RPCL, 3 PCRL.
    pub order: u8,
    /// Whether an EPH marker follows each packet header.
    pub eph: bool,
}

/// Writes the generated codestream, and reads nothing. `NoMemory` comes only before anything is written.
pub fn write_generated<D: Duct>(alloc: Global, asked: Generation, out: &mut D) -> Ending
    requires { IsShape (shape_of asked) }
    ensures { (es : List Event)
        × Performs (gen_job (shape_of asked) asked.seed) (D.meaning out.old) (D.meaning out.new) result es }
{
    let Ok(bytes) = generate(
        alloc,
        asked.seed,
        asked.width,
        asked.height,
        asked.components,
        asked.levels,
        asked.sub,
        asked.order,
        asked.eph,
    ) else {
        return Ending::NoMemory;
    };
    match out.write(&bytes) {
        WriteOut::Done => Ending::Done,
        WriteOut::Failed => Ending::WriteFault,
    }
}
