//! The law of stripped main headers, on a function that does nothing.
ghost use Rattle.rebuild_model.specs.StrippingLaws.{StrippedIsHead};

/// A stripped main header is a main header.
pub fn stripped_is_head()
    ensures { StrippedIsHead }
{}
