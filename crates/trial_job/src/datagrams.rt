//! A list of datagrams.
ghost use Rattle.std.specs.Prelude.{◌≡◌, ◌≤◌, ◌<◌, ◌^◌, ◌++◌, List, [], ◌∷◌, length, IfOk};
ghost use Rattle.stream_model.specs.Arrivals.{datagram_at};

use std::alloc::{AllocError, Global};
use std::marker::Model;

/// Datagrams, one after another.
#[derive(Drop)]
pub struct Datagrams {
    list: Vec<Vec<u8>>,
}

impl Model for Datagrams {
    ghost use Rattle.std.specs.Prelude.{ℕ, List, map};

    ghost Value = { List (List ℕ) };

    ghost view = { λ d. map (λ v. v.items) d.list.items };
}

impl Datagrams {
    /// No datagram; no memory is taken yet.
    pub fn new(alloc: Global) -> Datagrams
        ensures { result ≡ [] }
    {
        Datagrams {
            list: Vec::new(alloc),
        }
    }

    /// The number of datagrams.
    pub fn len(&self) -> usize
        ensures len { result ≡ length self.now }
        ensures few { result < 2 ^ 63 }
    {
        self.list.len()
    }

    /// The bytes of the datagram at this index.
    pub fn get(&self, index: usize) -> &[u8]
        requires { index < length self.now }
        ensures { result.now ≡ datagram_at self.now index }
    {
        self.list[index].as_slice()
    }

    /// Adds a copy of a datagram.
    pub fn push(&mut self, alloc: Global, datagram: &[u8]) -> Result<(), AllocError>
        ensures { IfOk result (λ _. self.new ≡ self.old ++ datagram.now ∷ []) }
    {
        self.list.push(Vec::from_slice(alloc, datagram)?)?;
        Ok(())
    }
}
