//! Where a receiver's packets go.
ghost use Rattle.std.specs.Prelude.{◌≡◌, ◌++◌, List, [], ◌∷◌, ℕ, Bool, true, false, Some};
ghost use Rattle.stream_model.specs.Decoder.{Release};
ghost use Rattle.stream_model.specs.Receiver as rules;
ghost use Rattle.stream_model.specs.Receiver.{flushed, counts_of};
ghost use Rattle.scl_outside.specs.Events.{Event};
ghost use Rattle.receiving_job.specs.Sinks.{IsNext, PutsMore, PutsEnd, Extends};

use scl_outside::{Duct, PutOut};
use stream_receiver::Receiver;

/// What is put out of the packets that a receiver releases, one after another, and at the end.
pub trait Sink {
    /// What is put out of the packets that a receiver has released, before its end, or at it once it
    /// is flushed.
    ghost made: { rules.Receiver → Bool → List ℕ };

    /// What is put out of packets before the end.
    ghost so_far: { List Release → List ℕ };

    /// These packets were put.
    ghost HasPut: { Self → List Release → Type 0 };

    /// Puts out the packet that the last step of a receiver has given, after those before it.
    /// `WriteFault` where a write failed: a prefix went out then, and nothing more may be put.
    fn put<D: Duct>(&mut self, out: &mut D, receiver: &Receiver) -> PutOut
        requires { (xs : List Release) × (x : Release)
            × HasPut self.old xs × (receiver.now.given ≡ Some x) × IsNext xs x }
        ensures puts { (xs : List Release) (x : Release) → HasPut self.old xs → receiver.now.given ≡ Some x
            → (es : List Event)
            × PutsMore so_far xs (x ∷ []) (D.meaning out.old) (D.meaning out.new) result es }
        ensures put { (xs : List Release) (x : Release) → HasPut self.old xs → receiver.now.given ≡ Some x
            → result ≡ PutOut.Done → HasPut self.new (xs ++ x ∷ []) };

    /// Puts out what is left to be put once all packets of a receiver, which was flushed, were put.
    /// `WriteFault` where a write failed: a prefix went out then.
    fn close<D: Duct>(&mut self, out: &mut D, receiver: &Receiver) -> PutOut
        ensures { (r : rules.Receiver) → HasPut self.old (flushed r).releases
            → counts_of receiver.now.rules ≡ counts_of (flushed r)
            → (es : List Event)
            × PutsEnd so_far made r (D.meaning out.old) (D.meaning out.new) result es };

    /// Nothing is put out before the first packet.
    ghost starts: { so_far [] ≡ [] };

    /// What was put out stays.
    ghost grows: { (xs ys : List Release) → Extends (so_far xs) (so_far (xs ++ ys)) };

    /// Before the end it is what is put out of the packets.
    ghost before_end: { (r : rules.Receiver) → made r false ≡ so_far r.releases };

    /// At the end it is that of all packets, and something more.
    ghost at_end: { (r : rules.Receiver) → Extends (so_far (flushed r).releases) (made r true) };
}
