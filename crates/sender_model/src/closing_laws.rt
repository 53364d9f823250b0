//! Laws of the datagrams that the bytes of an input already fix, each on a function that does
//! nothing.
ghost use Rattle.sender_model.specs.ClosingLaws.{ClosedIsComputed, ClosedIsOne, ClosedOnlyGrows};

/// The datagrams that are computed are fixed by the bytes.
pub fn closed_is_computed()
    ensures { ClosedIsComputed }
{}

/// Bytes fix one list of datagrams.
pub fn closed_is_one()
    ensures { ClosedIsOne }
{}

/// More bytes only add datagrams at the end.
pub fn closed_only_grows()
    ensures { ClosedOnlyGrows }
{}
