//! The laws of what a receiver gives of a stream, each on a function that does nothing.

ghost use Rattle.stream_model.specs.RunLaws.{RunsGiveWhatIsReached, RunsReleaseWhatIsReached};
ghost use Rattle.stream_model.specs.StreamLaws.{InOrderGivesAll, HandsOnInOrder, GivesWhatIsReached, ReleasesWhatIsReached, WindowIsAtBase, EachPrecinctIsSaid, GivesWhatIsDue};

/// Whichever datagrams of a stream are there, the rules give exactly the precincts that are reached, in order and with their content.
pub fn runs_give_what_is_reached()
    ensures { RunsGiveWhatIsReached }
{}

/// They release each with all its bytes, under the main header of its codestream.
pub fn runs_release_what_is_reached()
    ensures { RunsReleaseWhatIsReached }
{}

/// Without loss and in order the rules give every precinct, whatever the window.
pub fn in_order_gives_all()
    ensures { InOrderGivesAll }
{}

/// Whatever arrives of a stream, the rules give what is reached, and the counts are those of the arrivals.
pub fn gives_what_is_reached()
    ensures { GivesWhatIsReached }
{}

/// Whatever arrives of a stream, the rules release what is reached, each packet with all its bytes, under the main header of its
/// codestream.
pub fn releases_what_is_reached()
    ensures { ReleasesWhatIsReached }
{}

/// The window's next number is that of the base, and nothing is due, after each arrival.
pub fn window_is_at_base()
    ensures { WindowIsAtBase }
{}

/// Each precinct of a stream says one thing.
pub fn each_precinct_is_said()
    ensures { EachPrecinctIsSaid }
{}

/// Whatever arrives of a stream, the rules give what is due, and at the end what is due at the end.
pub fn gives_what_is_due()
    ensures { GivesWhatIsDue }
{}

/// The window hands on each position below the base once and in order, its datagram where it is in time and else a gap.
pub fn hands_on_in_order()
    ensures { HandsOnInOrder }
{}
