//! The laws of what a receiver gives of any frames, each on a function that does nothing.
ghost use Rattle.stream_model.specs.ReadingLaws.{EachReleaseIsRead, EachPrecinctIsRead, EachPrecinctIsKept, GivenStays, GivenGrows, PickedAreTaken, ReportIsRead};

/// Each packet that the rules release of any frames is read from those that are kept, with all its bytes.
pub fn each_release_is_read()
    ensures { EachReleaseIsRead }
{}

/// Each precinct that the rules give of any frames is read from those that are picked.
pub fn each_precinct_is_read()
    ensures { EachPrecinctIsRead }
{}

/// Each precinct that the rules give of any frames is read from those that are kept.
pub fn each_precinct_is_kept()
    ensures { EachPrecinctIsKept }
{}

/// What was given before the end is a prefix of what is given at the end.
pub fn given_stays()
    ensures { GivenStays }
{}

/// What was given of some frames is a prefix of what is given of more.
pub fn given_grows()
    ensures { GivenGrows }
{}

/// The frames that are picked are those that the rules take.
pub fn picked_are_taken()
    ensures { PickedAreTaken }
{}

/// What a report of any bytes has written are lines of precincts that are read from their frames.
pub fn report_is_read()
    ensures { ReportIsRead }
{}
