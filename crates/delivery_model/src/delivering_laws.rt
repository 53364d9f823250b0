//! Laws of what `deliver` writes and refuses, each on a function that does nothing.
ghost use Rattle.delivery_model.specs.DeliveringLaws.{CapturesAreDeliveredOrRefused, DeliverHasOneAnswer, DeliveredAreListed, MissingIsGreater};

/// A capture is delivered or refused.
pub fn captures_are_delivered_or_refused()
    ensures { CapturesAreDeliveredOrRefused }
{}

/// A capture is refused at one place and for one reason, and not where it is delivered.
pub fn deliver_has_one_answer()
    ensures { DeliverHasOneAnswer }
{}

/// Of a capture that is delivered the listed frames are written.
pub fn delivered_are_listed()
    ensures { DeliveredAreListed }
{}

/// The first missing position of a range is its first one, or the number of frames.
pub fn missing_is_greater()
    ensures { MissingIsGreater }
{}
