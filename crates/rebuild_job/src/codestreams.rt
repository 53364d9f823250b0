//! Codestreams that are built again of what a receiver releases.
ghost use Rattle.std.specs.Prelude.{◌≡◌, false, None, IfOk, refl};
ghost use Rattle.rebuild_model.specs.Rebuilding.{closing, open_at_end, rebuilt, rebuilt_by};
ghost use Rattle.stream_model.specs.Receiver.{flushed};
ghost use Rattle.rebuild_job.specs.Growing.{nothing_is_built, rebuilt_grows, rebuilt_closes};

use codestream_rebuild::Rebuild;
use receiving_job::Sink;
use scl_outside::{Duct, PutOut};
use std::alloc::{AllocError, Global};
use stream_receiver::Receiver;

/// Writes codestreams that are built again of packets: each packet as soon as it is released, after
/// empty ones for the precincts before it.
#[derive(Drop)]
pub struct Codestreams {
    rebuild: Rebuild,
}

impl Codestreams {
    /// No codestream is open.
    pub fn new(alloc: Global) -> Result<Codestreams, AllocError>
        ensures { IfOk result (λ c. c.rebuild ≡ None) }
    {
        let rebuild = Rebuild::new(alloc)?;
        Ok(Codestreams { rebuild })
    }
}

impl Sink for Codestreams {
    ghost made = { rebuilt_by };

    ghost so_far = { rebuilt false None };

    ghost HasPut = { λ c packets. c.rebuild ≡ open_at_end None packets };

    fn put<D: Duct>(&mut self, out: &mut D, receiver: &Receiver) -> PutOut {
        let Some(head) = receiver.head() else {
            unreachable!();
        };
        let place = receiver.released().place;
        self.rebuild
            .put(out, receiver.heads(), head, place, receiver.raw())
    }

    fn close<D: Duct>(&mut self, out: &mut D, receiver: &Receiver) -> PutOut {
        let _ = receiver;
        self.rebuild.close(out)
    }

    ghost starts = { nothing_is_built };

    ghost grows = { rebuilt_grows };

    ghost before_end = { λ r. refl };

    ghost at_end = { λ r. (closing (open_at_end None (flushed r).releases), rebuilt_closes (flushed r).releases) };
}
