//! The law of a sender's lead, on a function that does nothing.
ghost use Rattle.sender_model.specs.Lead.{ReadsLittleAhead};

/// Where the bytes read leave the input open, few of them are in no datagram yet.
pub fn reads_little_ahead()
    ensures { ReadsLittleAhead }
{}
