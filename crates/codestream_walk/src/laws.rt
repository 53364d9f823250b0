//! What the answers of a reader of codestreams say of its whole input, as laws, each on a function that does nothing.
ghost use Rattle.codestream_walk.specs.Inputs.{PiecesAddUp, RefusalIsFault, EndIsInput, EndIsCut};
ghost use Rattle.codestream_walk.specs.Inputs.{LimitIsFault, LimitIsFull, WantsFixNothing};

/// What a step gives is added to the bytes that were given.
pub fn pieces_add_up()
    ensures { PiecesAddUp }
{}

/// What a reader refuses is the first fault of the input, whatever bytes follow.
pub fn refusal_is_fault()
    ensures { RefusalIsFault }
{}

/// Where the input is over and a codestream may begin, it is whole codestreams.
pub fn end_is_input()
    ensures { EndIsInput }
{}

/// Where the input is over and more bytes are wanted inside a codestream, it is cut.
pub fn end_is_cut()
    ensures { EndIsCut }
{}

/// Where all bytes that may be read were and more are wanted and there, the input is too long.
pub fn limit_is_fault()
    ensures { LimitIsFault }
{}

/// Where 65,536 codestreams take all bytes that may be read and more are there, there is one codestream too many.
pub fn limit_is_full()
    ensures { LimitIsFull }
{}

/// Bytes in hand that fix no answer fix none of a step's answers.
pub fn wants_fix_nothing()
    ensures { WantsFixNothing }
{}
