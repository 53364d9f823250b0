//! The two tag trees of a band.
ghost use Rattle.std.specs.Prelude.{◌↔◌, IsTrue};
ghost use Rattle.tag_tree.specs.Kinds.{IsSilent};

/// What a tag tree says of code-blocks.
#[derive(Clone, Copy)]
pub enum Kind {
    /// Which are included: 0 is, 1 isn't.
    Inclusion,
    /// How many zero bit-planes they have.
    Value,
}

impl Kind {
    /// Whether a node has no bits where the node above it has this label.
    pub fn is_silent(self, above: u8) -> bool
        ensures { IsTrue result ↔ IsSilent self above }
    {
        match self {
            Kind::Inclusion => above != 0,
            Kind::Value => false,
        }
    }
}
