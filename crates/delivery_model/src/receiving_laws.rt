//! Laws of what `recv` writes, each on a function that does nothing.
ghost use Rattle.delivery_model.specs.ReceivingLaws.{RecvOnlyGrows, RecvWritesWhatIsDue};

/// What `recv` has written stays.
pub fn recv_only_grows()
    ensures { RecvOnlyGrows }
{}

/// Of a stream `recv` writes the lines of what is due, and at the end of what is due at the end.
pub fn recv_writes_what_is_due()
    ensures { RecvWritesWhatIsDue }
{}
