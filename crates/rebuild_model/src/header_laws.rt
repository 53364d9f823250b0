//! The law of numbered main headers, on a function that does nothing.
ghost use Rattle.rebuild_model.specs.HeaderLaws.{HeadersAreNumbered};

/// Packets under the same number are under the same main header.
pub fn headers_are_numbered()
    ensures { HeadersAreNumbered }
{}
