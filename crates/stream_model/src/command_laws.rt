//! The laws of what commands write, each on a function that does nothing.

ghost use Rattle.stream_model.specs.CommandLaws.{ParseWritesWholePackets, ReadsHaveWholePackets, ParseWritesInputs, ParseWritesUpToFault};

/// `parse` writes the lines of all packets of the whole codestreams, and then those of the whole packets after them.
pub fn parse_writes_whole_packets()
    ensures { ParseWritesWholePackets }
{}

/// All bytes that `parse` may have read are whole codestreams, and after them whole packets up to the first that isn't there.
pub fn reads_have_whole_packets()
    ensures { ReadsHaveWholePackets }
{}

/// Of an input of whole codestreams `parse` writes the lines of all their packets, in order.
pub fn parse_writes_inputs()
    ensures { ParseWritesInputs }
{}

/// Of an input with a fault `parse` writes the lines of the whole packets before it.
pub fn parse_writes_up_to_fault()
    ensures { ParseWritesUpToFault }
{}
