//! Laws of the tale of a sender, each on a function that does nothing.
ghost use Rattle.sender_model.specs.SendingLaws.{DatagramIsTold, SendingIsTold, EachIsCounted, SentOnlyGrows};

/// A datagram takes answers until it is sent, fails, or is lost.
pub fn datagram_is_told()
    ensures { DatagramIsTold }
{}

/// A further datagram adds its own answers to the tale.
pub fn sending_is_told()
    ensures { SendingIsTold }
{}

/// Each datagram is sent, lost, failed or left.
pub fn each_is_counted()
    ensures { EachIsCounted }
{}

/// What was sent stays.
pub fn sent_only_grows()
    ensures { SentOnlyGrows }
{}
