//! The list of positions.
ghost use Rattle.std.specs.Prelude.{◌≡◌, [], ◌∷◌};
ghost use Rattle.delivery_model.specs.Delivering as model;
ghost use Rattle.deliver_job.specs.Items.{range_of, ranges_of};

/// An item of the list of positions.
#[derive(Clone, Copy, Debug, PartialEq, Eq)]
pub enum Item {
    /// One position.
    One(u32),
    /// All positions from the first to the last one.
    Span(u32, u32),
}

impl Default for Item {
    /// The first frame.
    fn default() -> Item {
        Item::One(0)
    }
}

/// The first position of an item.
pub fn first_of(item: Item) -> u32
    ensures { result ≡ (range_of item).first }
{
    match item {
        Item::One(position) => position,
        Item::Span(first, _) => first,
    }
}

/// The last position of an item.
pub fn last_of(item: Item) -> u32
    ensures { result ≡ (range_of item).last }
{
    match item {
        Item::One(position) => position,
        Item::Span(_, last) => last,
    }
}

/// The first position of an item that a capture with this number of frames doesn't have.
fn missing_in(item: Item, frames: u64) -> Option<u64>
    ensures { result ≡ model.first_missing (range_of item ∷ []) frames }
{
    let first = u64::from(first_of(item));
    let last = u64::from(last_of(item));
    if last < first {
        return None;
    }
    if last < frames {
        return None;
    }
    if first < frames {
        Some(frames)
    } else {
        Some(first)
    }
}

/// The first position of a list that a capture with this number of frames doesn't have.
pub fn first_missing(list: &[Item], frames: u64) -> Option<u64>
    ensures { result ≡ model.first_missing (ranges_of list.now) frames }
{
    for item in list {
        if let Some(position) = missing_in(*item, frames) {
            return Some(position);
        }
    }
    None
}
