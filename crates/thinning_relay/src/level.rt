//! The least limit under which a datagram is kept.
ghost use Rattle.std.specs.Prelude.{◌≡◌, ◌≤◌, ℕ, nat_le, length, IfSome};
ghost use Rattle.wire_model.specs.Thinning.{is_within};
ghost use Rattle.scl_payload.specs.Heads.{fields_of};
ghost use Rattle.thinning_relay.specs.Levels.{IsLevel};

use rtp_header::read_rtp;
use scl_payload::{Payload, read_payload};

/// The least limit that a payload is within.
fn least_limit(payload: &Payload) -> u8
    ensures { (limit : ℕ) → is_within limit (fields_of payload.now) ≡ nat_le result limit }
{
    match payload {
        Payload::Main(_) => 0,
        Payload::Body(head) => head.res,
    }
}

/// The least limit under which a datagram is kept. None where it isn't well formed.
pub fn level_of(datagram: &[u8]) -> Option<u8>
    ensures level { IsLevel datagram.now result }
    ensures short { IfSome result (λ _. length datagram.now ≤ 9000) }
{
    if datagram.is_empty() || datagram.len() > 9000 {
        return None;
    }
    let Ok(rtp) = read_rtp(datagram) else {
        return None;
    };
    match read_payload(&datagram[rtp.body_from..rtp.body_to]) {
        Ok((payload, _)) => Some(least_limit(&payload)),
        Err(_) => None,
    }
}
