//! A list of texts with numbers, of bounded room, whose memory is taken when it is made.
ghost use Rattle.std.specs.Prelude.{◌≡◌, ◌≤◌, ◌<◌, ◌∷◌, ◌↔◌, [], true, length, IfOk, IsTrue, IsSome, Some, slice_get, unwrap_or, vec_len, vec_capacity};
ghost use Rattle.scl_outside.specs.Places.{are_within, texts_at, joined};

use std::alloc::{AllocError, Global};

/// Where a text is, and the number of its owner.
#[derive(Clone, Copy)]
struct Place {
    owner: usize,
    start: usize,
    end: usize,
}

/// Keeps texts while they fit. A text that doesn't fit isn't kept: the record stays as it is, and tells no
/// more.
#[derive(Drop)]
pub struct Texts {
    bytes: Vec<u8>,
    places: Vec<Place>,
    room: usize,
    told: bool,
    ghost within: { vec_len bytes ≤ room },
    ghost few: { vec_len places ≤ room },
    ghost reserved: { room ≤ vec_capacity bytes },
    ghost reserved_places: { room ≤ vec_capacity places },
    ghost inside: { are_within (length bytes.items) places.items ≡ true },
    ghost whole: { joined (texts_at bytes.items places.items) ≡ bytes.items },
}

impl Texts {
    ghost use Rattle.scl_outside.specs.Texts.{texts_of, kept_texts, texts_room, texts_after};
    ghost use Rattle.scl_outside.specs.WireAnswers.{parcel};

    /// An empty record with room for `room` texts of together `room` bytes. `AllocError` where memory ran
    /// out.
    pub fn new(alloc: Global, room: usize) -> Result<Texts, AllocError>
        ensures told { IfOk result (λ r. texts_of r ≡ Some []) }
        ensures room { IfOk result (λ r. texts_room r ≡ room) }
    {
        Ok(Texts {
            bytes: Vec::with_capacity(alloc, room)?,
            places: Vec::with_capacity(alloc, room)?,
            room,
            told: true,
        })
    }

    /// Drops all texts, and tells again.
    pub fn clear(&mut self)
        ensures told { texts_of self.new ≡ Some [] }
        ensures room { texts_room self.new ≡ texts_room self.old }
    {
        self.bytes.clear();
        self.places.clear();
        self.told = true;
    }

    /// Keeps one more text, where there is room.
    pub fn push(&mut self, owner: usize, text: &[u8])
        ensures told { texts_of self.new ≡ texts_after self.old (parcel owner text.now) }
        ensures kept { kept_texts self.new ≡ unwrap_or (texts_of self.new) (kept_texts self.old) }
        ensures room { texts_room self.new ≡ texts_room self.old }
    {
        if self.told
            && self.places.len() < self.room
            && text.len() <= self.room - self.bytes.len()
        {
            let start = self.bytes.len();
            let _ = self.bytes.extend_from_slice(text);
            let end = self.bytes.len();
            let _ = self.places.push(Place { owner, start, end });
        } else {
            self.told = false;
        }
    }

    /// Whether all texts that came were kept.
    pub fn told(&self) -> bool
        ensures { IsTrue result ↔ IsSome (texts_of self.now) }
    {
        self.told
    }

    /// The number of texts that were kept.
    pub fn len(&self) -> usize
        ensures { result ≡ length (kept_texts self.now) }
    {
        self.places.len()
    }

    /// The owner and the bytes of the text at `index`, which is below the number of texts that were kept.
    pub fn get(&self, index: usize) -> (usize, &[u8])
        requires { index < length (kept_texts self.now) }
        ensures { slice_get (kept_texts self.now) index ≡ Some (parcel result.0 result.1.now) }
    {
        let place = self.places[index];
        (place.owner, &self.bytes[place.start..place.end])
    }
}
