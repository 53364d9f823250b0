//! Codestreams that are built again, one after another.
ghost use Rattle.std.specs.Prelude.{◌≡◌, List, Some, None, IfOk, IfSome, Ok};
ghost use Rattle.codestream_model.specs.Values as values;
ghost use Rattle.codestream_model.specs.MainHeader.{SpellsHead};
ghost use Rattle.codestream_model.specs.MainHeaderReading.{head_of};
ghost use Rattle.codestream_model.specs.Precincts.{IsPrecinct};
ghost use Rattle.stream_model.specs.Decoder.{Release};
ghost use Rattle.rebuild_model.specs.Stripping as stripping;
ghost use Rattle.rebuild_model.specs.Rebuilding.{added, closing, open_after};
ghost use Rattle.precinct_geometry.specs.Spans.{place_of};
ghost use Rattle.scl_outside.specs.Events.{Event};
ghost use Rattle.scl_outside.specs.Writing.{Puts};
ghost use Rattle.codestream_rebuild.specs.Opening.{FitsOpen, IsReleaseOf, IsUnder, open_for, open_past, opened, opening, takes, up_to};

use crate::codestream::Codestream;
use crate::writing::{put, put_stripped};
use j2k_markers::read_head;
use precinct_geometry::Place;
use scl_outside::{Duct, PutOut};
use std::alloc::{AllocError, Global};
use std::marker::Model;

/// Builds codestreams again from packets. A precinct whose packet isn't put has an empty packet. Contracts see the codestream that
/// is open.
#[derive(Drop)]
pub struct Rebuild {
    open: Option<Codestream>,
}

impl Model for Rebuild {
    ghost use Rattle.std.specs.Prelude.{Option};
    ghost use Rattle.rebuild_model.specs.Rebuilding.{Open};

    ghost Value = { Option Open };

    ghost view = { λ r. r.open };
}

impl Rebuild {
    /// No codestream is open. It takes no memory, and never fails.
    pub fn new(alloc: Global) -> Result<Rebuild, AllocError>
        ensures { IfOk result (λ r. r ≡ None) }
    {
        let _ = alloc;
        Ok(Rebuild { open: None })
    }

    /// Writes the packet `raw` of the precinct `place` of the image that the main header `head` describes. `heads` is the number of
    /// that main header: calls with the same number have the same header.
    ///
    /// The packet goes into the codestream that is open, after empty packets for the precincts before it in the packet order. Where none
    /// is open, or its main header has another number, or the packet of `place` isn't to come in it, what is open is closed and a
    /// codestream begins with the main header, stripped of the lengths that it tells. No memory is taken.
    ///
    /// `WriteFault` where a write failed: a prefix went out then, and the `Rebuild` must be discarded.
    pub fn put<D: Duct>(
        &mut self,
        duct: &mut D,
        heads: u64,
        head: &[u8],
        place: Place,
        raw: &[u8],
    ) -> PutOut
        requires { FitsOpen self.old heads head.now (place_of place) }
        ensures writes { (x : Release) → IsReleaseOf x heads head.now (place_of place) raw.now
            → (es : List Event) × Puts (added self.old x) (D.meaning duct.old) (D.meaning duct.new) result es }
        ensures opens { (x : Release) → IsReleaseOf x heads head.now (place_of place) raw.now
            → result ≡ PutOut.Done → self.new ≡ open_after self.old x }
        ensures under { result ≡ PutOut.Done → IsUnder self.new heads head.now }
    {
        match self.open_for(duct, heads, head, place) {
            PutOut::Done => self.join(duct, place, raw),
            PutOut::WriteFault => PutOut::WriteFault,
        }
    }

    /// Closes the codestream that is open, if there is one: writes an empty packet for each precinct that is left, and EOC. No memory
    /// is taken. `WriteFault` where a write failed: a prefix went out then.
    pub fn close<D: Duct>(&mut self, duct: &mut D) -> PutOut
        ensures writes { (es : List Event)
            × Puts (closing self.old) (D.meaning duct.old) (D.meaning duct.new) result es }
        ensures closed { self.new ≡ None }
    {
        let Some(open) = &mut self.open else {
            return PutOut::Done;
        };
        let closed = open.close(duct);
        self.open = None;
        closed
    }

    /// Whether the packet of a precinct goes into the codestream that is open.
    fn takes(&self, heads: u64, place: Place) -> bool
        requires { IfSome self.now (λ o. o.heads ≡ heads → IsPrecinct o.head (place_of place)) }
        ensures { result ≡ takes self.now heads (place_of place) }
    {
        match &self.open {
            Some(open) => open.takes(heads, place),
            None => false,
        }
    }

    /// Has a codestream open that takes the packet of a precinct: the one that is open, or a new one.
    fn open_for<D: Duct>(&mut self, duct: &mut D, heads: u64, head: &[u8], place: Place) -> PutOut
        requires { FitsOpen self.old heads head.now (place_of place) }
        ensures writes { (es : List Event)
            × Puts (opening self.old heads head.now (place_of place)) (D.meaning duct.old) (D.meaning duct.new) result es }
        ensures opens { (h : values.Head) → SpellsHead h head.now → result ≡ PutOut.Done
            → self.new ≡ open_for self.old heads h (place_of place) }
    {
        if self.takes(heads, place) {
            return PutOut::Done;
        }
        match self.close(duct) {
            PutOut::Done => self.begin(duct, heads, head),
            PutOut::WriteFault => PutOut::WriteFault,
        }
    }

    /// Begins a codestream: writes its main header.
    fn begin<D: Duct>(&mut self, duct: &mut D, heads: u64, head: &[u8]) -> PutOut
        requires { (h : values.Head) × SpellsHead h head.now }
        ensures writes { (es : List Event)
            × Puts (stripping.stripped head.now) (D.meaning duct.old) (D.meaning duct.new) result es }
        ensures opens { (h : values.Head) → SpellsHead h head.now → self.new ≡ Some (opened heads h) }
    {
        let Ok(values) = read_head(head) else {
            unreachable!();
        };
        self.open = Some(Codestream::new(heads, values));
        put_stripped(duct, head)
    }

    /// Writes the empty packets up to a precinct of the codestream that is open, and the packet of the precinct.
    fn join<D: Duct>(&mut self, duct: &mut D, place: Place, raw: &[u8]) -> PutOut
        ensures writes { (es : List Event)
            × Puts (up_to self.old (place_of place) raw.now) (D.meaning duct.old) (D.meaning duct.new) result es }
        ensures opens { result ≡ PutOut.Done → self.new ≡ open_past self.old (place_of place) }
    {
        let Some(open) = &mut self.open else {
            return PutOut::Done;
        };
        match open.fill_up_to(duct, place) {
            PutOut::Done => {}
            PutOut::WriteFault => return PutOut::WriteFault,
        }
        put(duct, raw)
    }
}
