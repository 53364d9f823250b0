//! Laws of what is drawn, each on a function that does nothing.
ghost use Rattle.trial_model.specs.DrawLaws.{DrawsAreWithin};

/// A draw is below its bound, and the state fits 64 bits.
pub fn draws_are_within()
    ensures { DrawsAreWithin }
{}
