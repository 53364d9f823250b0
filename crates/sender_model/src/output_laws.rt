//! Laws of what `pack` has written and `send` has sent, each on a function that does nothing.
ghost use Rattle.sender_model.specs.OutputLaws.{PackedAreFrames, PackOnlyGrows, PackWritesCut, SendOnlyGrows};

/// The frames of what is packed are the datagrams that the bytes fix.
pub fn packed_are_frames()
    ensures { PackedAreFrames }
{}

/// What is packed stays, whatever is read later.
pub fn pack_only_grows()
    ensures { PackOnlyGrows }
{}

/// Of an accepted input the cut is packed.
pub fn pack_writes_cut()
    ensures { PackWritesCut }
{}

/// What is sent stays, whatever is read and answered later.
pub fn send_only_grows()
    ensures { SendOnlyGrows }
{}
