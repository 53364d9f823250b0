//! A datagram that came, passed on to each receiver whose limit keeps it.
ghost use Rattle.std.specs.Prelude.{◌≡◌, true, false, option_map, Some, IfOk, OnOk};
ghost use Rattle.std.specs.Rc.{rc_slice_items};
ghost use Rattle.thinning_relay.specs.Levels.{IsLevel};
ghost use Rattle.thinning_relay.specs.Passing.{share_at, SharesAll, SameButShare, PutsAll, PassesOn, HasTaker, HasNoTaker, Accepts};

use crate::level::level_of;
use crate::receiver::Receiver;
use std::alloc::{AllocError, Global};
use std::rc::RcSlice;

/// What came of a datagram.
#[derive(Clone, Copy, Debug, PartialEq, Eq)]
pub enum Accepted {
    /// It is well formed, and was passed on.
    Kept,
    /// It isn't well formed.
    Refused,
    /// There was no memory for its copies, and no queue has changed.
    NoMemory,
}

/// Passes a datagram on to each receiver whose limit keeps it.
pub fn accept(alloc: Global, receivers: &mut [Receiver], datagram: &[u8]) -> Accepted
    ensures { Accepts datagram.now result receivers.old receivers.new }
{
    match level_of(datagram) {
        None => Accepted::Refused,
        Some(level) => {
            if pass(alloc, receivers, level, datagram) {
                Accepted::Kept
            } else {
                Accepted::NoMemory
            }
        }
    }
}

/// Puts a copy of a datagram with this least limit into the queue of each receiver whose limit keeps it.
/// False where there was no memory for the copies: then no queue has changed.
fn pass(alloc: Global, receivers: &mut [Receiver], level: u8, datagram: &[u8]) -> bool
    requires { IsLevel datagram.now (Some level) }
    ensures passed { result ≡ true → PassesOn (Some datagram.now) receivers.old receivers.new }
    ensures kept { result ≡ false → SameButShare receivers.old receivers.new }
    ensures wanted { result ≡ false → HasTaker level receivers.old }
{
    if !has_taker(receivers, level) {
        return true;
    }
    let Ok(copy) = RcSlice::from_slice(alloc, datagram) else {
        return false;
    };
    match share_all(receivers, &copy, level) {
        Ok(()) => {
            put_all(receivers);
            true
        }
        Err(_) => false,
    }
}

/// Whether some receiver's limit keeps a datagram with this least limit.
fn has_taker(receivers: &[Receiver], level: u8) -> bool
    ensures some { result ≡ true → HasTaker level receivers.now }
    ensures none { result ≡ false → HasNoTaker level receivers.now }
{
    for receiver in receivers {
        if level <= receiver.limit {
            return true;
        }
    }
    false
}

/// Gives each receiver its share of a datagram with this least limit, where its limit keeps it. An error
/// where there was no memory for the shares.
fn share_all(receivers: &mut [Receiver], copy: &RcSlice<u8>, level: u8) -> Result<(), AllocError>
    ensures shared { OnOk result (SharesAll level (rc_slice_items copy.now) receivers.old receivers.new) }
    ensures kept { SameButShare receivers.old receivers.new }
{
    for j in 0..receivers.len() {
        let share = share_for(copy, level, receivers[j].limit)?;
        receivers[j].share = share;
    }
    Ok(())
}

/// The share of a receiver with this limit.
fn share_for(copy: &RcSlice<u8>, level: u8, limit: u8) -> Result<Option<RcSlice<u8>>, AllocError>
    ensures { IfOk result (λ share. option_map rc_slice_items share
        ≡ share_at level (rc_slice_items copy.now) limit) }
{
    if level <= limit {
        let share = copy.clone()?;
        Ok(Some(share))
    } else {
        Ok(None)
    }
}

/// Puts each receiver's share into its queue.
fn put_all(receivers: &mut [Receiver])
    ensures { PutsAll receivers.old receivers.new }
{
    for j in 0..receivers.len() {
        let receiver = &mut receivers[j];
        receiver.put_share();
    }
}
