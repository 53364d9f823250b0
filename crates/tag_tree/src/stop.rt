//! Why a label isn't read.
use stuffed_bits::Stop;

/// Why the label of a leaf isn't read.
#[derive(Clone, Copy, Debug, PartialEq, Eq)]
pub enum LabelStop {
    /// A byte is needed and the piece is at its end. The same call goes on with a further piece.
    Need,
    /// The byte after FF has its top bit set (T.800 B.10.1).
    Stuffed,
    /// The label is greater than 74.
    TooGreat,
}

impl From<Stop> for LabelStop {
    ghost use Rattle.std.specs.Prelude.{◌≡◌};
    ghost use Rattle.tag_tree.specs.LabelStops.{label_stop};

    ghost from_gives = { λ stop e. e ≡ label_stop stop };

    fn from(stop: Stop) -> LabelStop {
        match stop {
            Stop::Need => LabelStop::Need,
            Stop::Stuffed => LabelStop::Stuffed,
        }
    }
}
