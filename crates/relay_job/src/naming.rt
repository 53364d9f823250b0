//! The addresses of a relay, named one after another.
ghost use Rattle.std.specs.Prelude.{◌≡◌, ◌≤◌, length};
ghost use Rattle.relay_job.specs.Naming.{NamesAll};

use crate::settings::Settings;
use scl_outside::{BindOut, Outside};

/// Binds the local address, and then joins each receiver's, in their order. `Failed` at the first that couldn't be
/// named, with nothing done after it.
pub fn name_all<O: Outside>(settings: &Settings, out: &mut O) -> BindOut
    requires peers { (O.meaning out.old).wire.peers ≡ 0 }
    requires few { length settings.now.targets ≤ 64 }
    ensures { NamesAll settings.now result (O.meaning out.old) (O.meaning out.new) }
{
    match out.bind(settings.local()) {
        BindOut::Bound => {}
        BindOut::Failed => return BindOut::Failed,
    }
    for j in 0..settings.count() {
        match out.join(settings.address(j)) {
            BindOut::Bound => {}
            BindOut::Failed => return BindOut::Failed,
        }
    }
    BindOut::Bound
}
