//! The laws of the datagrams that the bytes of an input already fix, each on a function that does nothing.

ghost use Rattle.stream_model.specs.CutLaws.{BytesFixDatagrams, ClosedGrows, ClosedIsCut, ClosedIsFrontOfCut};

/// More bytes only add datagrams after those that are fixed.
pub fn closed_grows()
    ensures { ClosedGrows }
{}

/// An input of whole codestreams fixes their cut.
pub fn closed_is_cut()
    ensures { ClosedIsCut }
{}

/// What the front of an input fixes is a front of the cut, however the input goes on.
pub fn closed_is_front_of_cut()
    ensures { ClosedIsFrontOfCut }
{}

/// All bytes fix some datagrams, or none.
pub fn bytes_fix_datagrams()
    ensures { BytesFixDatagrams }
{}
