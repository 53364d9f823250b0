//! The laws of the precincts that come after one, each on a function that does nothing.

ghost use Rattle.pcrl_order.specs.Later.{LaterIsTheRest, PlacesFromOneOn};

/// Each precinct of a packet order is followed by just the precincts that come after it.
pub fn later_is_the_rest()
    ensures { LaterIsTheRest }
{}

/// What follows a precinct in a packet order are the precincts that come after it.
pub fn places_from_one_on()
    ensures { PlacesFromOneOn }
{}
