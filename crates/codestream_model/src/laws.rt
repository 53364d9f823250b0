//! The laws of the definitions, each on a function that does nothing.

ghost use Rattle.codestream_model.specs.GeometryLaws.{QuotientIsRoundedUp, StripsAreReached, PidsAreDistinct, PidsAreDense, GreatPidsAreFound, KeysAreDistinct, PacketOrderIsOne, PacketOrderIsComputed, EachComponentHasPrecincts, PartsCoverBands, PartsAreApart};
ghost use Rattle.codestream_model.specs.MainHeaderLaws.{HeaderIsReadOneWay, RefusalIsReadOneWay, HeadersAreJudged, HeaderIsOne, RefusalIsOne, HeaderIsNotRefused, HeaderIsWithinLimits, HeaderStands, RefusalStands};

/// A quotient rounded up is the least number that, times the divisor, is at least the dividend.
pub fn quotient_is_rounded_up()
    ensures { QuotientIsRoundedUp }
{}

/// The strips of a stretch are those in which it has a place.
pub fn strips_are_reached()
    ensures { StripsAreReached }
{}

/// Two precincts have two numbers.
pub fn pids_are_distinct()
    ensures { PidsAreDistinct }
{}

/// Each number up to a component's last is that of one of its precincts.
pub fn pids_are_dense()
    ensures { PidsAreDense }
{}

/// A header is seen to have a PID of 2^20 or more exactly where a precinct has one.
pub fn great_pids_are_found()
    ensures { GreatPidsAreFound }
{}

/// Two precincts have two keys in the packet order.
pub fn keys_are_distinct()
    ensures { KeysAreDistinct }
{}

/// A header has one packet order.
pub fn packet_order_is_one()
    ensures { PacketOrderIsOne }
{}

/// The packet order is the one that is computed.
pub fn packet_order_is_computed()
    ensures { PacketOrderIsComputed }
{}

/// A component that is not empty has a precinct at the highest resolution.
pub fn each_component_has_precincts()
    ensures { EachComponentHasPrecincts }
{}

/// Each place of a band lies in the part of a precinct.
pub fn parts_cover_bands()
    ensures { PartsCoverBands }
{}

/// No place of a band lies in the parts of two precincts.
pub fn parts_are_apart()
    ensures { PartsAreApart }
{}

/// Bytes that begin with a main header are read as that one.
pub fn header_is_read_one_way()
    ensures { HeaderIsReadOneWay }
{}

/// A refusal of a main header is the one that is computed.
pub fn refusal_is_read_one_way()
    ensures { RefusalIsReadOneWay }
{}

/// Bytes begin with the main header that is computed, or are refused as it is computed.
pub fn headers_are_judged()
    ensures { HeadersAreJudged }
{}

/// Bytes begin with one main header at most.
pub fn header_is_one()
    ensures { HeaderIsOne }
{}

/// Bytes are refused in one way at most.
pub fn refusal_is_one()
    ensures { RefusalIsOne }
{}

/// Bytes that begin with a main header are not refused.
pub fn header_is_not_refused()
    ensures { HeaderIsNotRefused }
{}

/// The values of a main header lie within the limits.
pub fn header_is_within_limits()
    ensures { HeaderIsWithinLimits }
{}

/// A main header that is read stays when more bytes follow.
pub fn header_stands()
    ensures { HeaderStands }
{}

/// A refusal that is not for missing bytes stays when more bytes follow.
pub fn refusal_stands()
    ensures { RefusalStands }
{}
