//! Laws of generated codestreams, each on a function that does nothing.
ghost use Rattle.trial_model.specs.GeneratorLaws.{ShapeHeadersAreAccepted, DrawnContentsMakePackets, GeneratedHasParts};

/// The main header of a shape that may be asked for is accepted, with the values that it is meant to have.
pub fn shape_headers_are_accepted()
    ensures { ShapeHeadersAreAccepted }
{}

/// What is drawn for such a shape makes a packet of each of its precincts, and not too many bytes of them.
pub fn drawn_contents_make_packets()
    ensures { DrawnContentsMakePackets }
{}

/// The parts that are generated for such a shape are those of an accepted codestream, the generated one.
pub fn generated_has_parts()
    ensures { GeneratedHasParts }
{}
