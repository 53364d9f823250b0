//! Laws of the frames that a receiver picks, each on a function that does nothing.
ghost use Rattle.delivery_model.specs.PickingLaws.{ThinnedAndPicked};

/// Frames of one source can be thinned and picked in either order.
pub fn thinned_and_picked()
    ensures { ThinnedAndPicked }
{}
