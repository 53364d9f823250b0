//! Laws of what a sender accepts and refuses, each on a function that does nothing.
ghost use Rattle.sender_model.specs.RefusalLaws.{InputsAreSentOrRefused, SenderHasOneAnswer, AcceptedIsCut, SendableIsAccepted};

/// A sender takes an input to its end, or refuses it.
pub fn inputs_are_sent_or_refused()
    ensures { InputsAreSentOrRefused }
{}

/// A sender refuses an input at one place and for one reason, and none that it takes to its end.
pub fn sender_has_one_answer()
    ensures { SenderHasOneAnswer }
{}

/// What is sent of an accepted input is the cut of its codestreams, a stream that carries them.
pub fn accepted_is_cut()
    ensures { AcceptedIsCut }
{}

/// Codestreams that can be sent are accepted.
pub fn sendable_is_accepted()
    ensures { SendableIsAccepted }
{}
