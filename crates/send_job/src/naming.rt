//! The addresses of a sender, named one after the other.
ghost use Rattle.std.specs.Prelude.{◌≡◌, ◌≤◌};
ghost use Rattle.stream_model.specs.Cut.{Plan};
ghost use Rattle.send_job.specs.Linked.{settings_with};
ghost use Rattle.send_job.specs.Naming.{Names};

use crate::settings::Link;
use scl_outside::{BindOut, Outside};

/// Binds the local address, and then joins the peer's. `Failed` at the first that couldn't be named, with nothing done
/// after it.
pub fn name<O: Outside>(link: &Link, out: &mut O) -> BindOut
    requires { (O.meaning out.old).wire.peers ≡ 0 }
    ensures { (plan : Plan) → Names (settings_with plan link.now) result (O.meaning out.old) (O.meaning out.new) }
{
    match out.bind(link.local()) {
        BindOut::Bound => {}
        BindOut::Failed => return BindOut::Failed,
    }
    out.join(link.peer())
}
