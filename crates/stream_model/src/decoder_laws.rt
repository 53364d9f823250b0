//! The laws of the decoder's rules, each on a function that does nothing.
ghost use Rattle.stream_model.specs.DecoderLaws.{SettledFollowsRules, SettledWaits};

/// What is settled follows from the rule that applies.
pub fn settled_follows_rules()
    ensures { SettledFollowsRules }
{}

/// No rule applies to what is settled.
pub fn settled_waits()
    ensures { SettledWaits }
{}
