//! Which datagrams a trial delivers, and in which order: some are lost, some come twice, and
//! neighbours are exchanged.
ghost use Rattle.std.specs.Prelude.{◌≡◌, ◌<◌, IfOk, OnOk};
ghost use Rattle.std.specs.List.{AllByRecursion};
ghost use Rattle.trial_model.specs.Trial.{first_kept, delivered_positions};
ghost use Rattle.trial_job.specs.Delivering.{AddsPosition, AreDrawn};

use codestream_make::Draws;
use std::alloc::{AllocError, Global};

/// A datagram is lost where a draw of this is below the loss.
const LOSS_UNIT: u32 = 1000;

/// One datagram in this many comes twice.
const REPEATED_IN: u32 = 8;

/// One pair of neighbours in this many is exchanged.
const EXCHANGED_IN: u32 = 4;

/// The positions that come, as far as they are drawn.
#[derive(Drop)]
struct Arrivals {
    positions: Vec<usize>,
    draws: Draws,
}

impl Arrivals {
    /// Draws whether the datagram at `position` is lost, and, only where it isn't, whether it comes
    /// twice; adds its position as often as it comes. `loss` is in thousandths. `AllocError` where
    /// memory ran out.
    fn add(&mut self, loss: u16, position: usize) -> Result<(), AllocError>
        ensures { OnOk result (AddsPosition loss position self.old self.new) }
    {
        if self.draws.below(LOSS_UNIT) < u32::from(loss) {
            return Ok(());
        }
        if self.draws.below(REPEATED_IN) == 0 {
            self.positions.push(position)?;
        }
        self.positions.push(position)?;
        Ok(())
    }
}

/// Draws which of `count` datagrams come, and how often. `AllocError` where memory ran out.
fn draw_arrivals(alloc: Global, seed: u64, loss: u16, count: usize) -> Result<Arrivals, AllocError>
    ensures { IfOk result (λ a. AreDrawn loss count seed a) }
{
    let mut arrivals = Arrivals {
        positions: Vec::new(alloc),
        draws: Draws { state: seed },
    };
    for position in 0..count {
        arrivals.add(loss, position)?;
    }
    Ok(arrivals)
}

/// Goes over the pairs of neighbours after the first position, and exchanges those that are drawn.
fn exchange(positions: &mut [usize], mut draws: Draws)
    ensures { positions.new ≡ first_kept positions.old draws.state }
{
    let mut at = 1;
    while at + 1 < positions.len() {
        if draws.below(EXCHANGED_IN) == 0 {
            positions.swap(at, at + 1);
        }
        at += 2;
    }
}

/// The positions of the datagrams that are delivered of `count`, in the order in which they come:
/// `loss` of 1,000 datagrams are lost on average, and each of the others comes once or twice.
/// `AllocError` where memory ran out.
pub fn delivered(
    alloc: Global,
    seed: u64,
    loss: u16,
    count: usize,
) -> Result<Vec<usize>, AllocError>
    ensures positions { IfOk result (λ v. v.items ≡ delivered_positions seed loss count) }
    ensures within { IfOk result (λ v. AllByRecursion (λ i. i < count) v.items) }
{
    let mut arrivals = draw_arrivals(alloc, seed, loss, count)?;
    exchange(&mut arrivals.positions, arrivals.draws);
    Ok(arrivals.positions)
}
