//! Laws of codestreams that are built again, each on a function that does nothing.
ghost use Rattle.rebuild_model.specs.RebuildingLaws.{EmptyPacketIsPacket, SomePacketsAreAccepted, RebuiltIsWhatIsReached, RebuiltGrows, EachIsBuilt, BuiltIsAccepted};

/// The empty packet is a packet of each precinct, and says nothing.
pub fn empty_packet_is_packet()
    ensures { EmptyPacketIsPacket }
{}

/// A codestream with empty packets in place of some of its own is accepted.
pub fn some_packets_are_accepted()
    ensures { SomePacketsAreAccepted }
{}

/// Of a stream exactly what is reached is built again.
pub fn rebuilt_is_what_is_reached()
    ensures { RebuiltIsWhatIsReached }
{}

/// What was built stays, whatever is released later.
pub fn rebuilt_grows()
    ensures { RebuiltGrows }
{}

/// What is built of any frames are codestreams with a packet for each precinct.
pub fn each_is_built()
    ensures { EachIsBuilt }
{}

/// Such a codestream is accepted.
pub fn built_is_accepted()
    ensures { BuiltIsAccepted }
{}
