//! The laws of bits, of our writer's choices and of bands, each on a function that does nothing.

ghost use Rattle.codestream_model.specs.BandLaws.{BandSpansAreSampled};
ghost use Rattle.codestream_model.specs.BitLaws.{PackedBitsAreRead, BrokenAtIsFirst, UnbrokenIsNone, BytesOfBitsIsLeast, PackingPadsWithZeros};
ghost use Rattle.codestream_model.specs.ChoiceLaws.{LblockIsLeast, InclusionIsLeast, PlanesAreLeast, ChoicesCanSay};

/// Bits packed in bytes are the first bits read from these bytes.
pub fn packed_bits_are_read()
    ensures { PackedBitsAreRead }
{}

/// Reading names the first index at which a byte of 128 or more follows FF.
pub fn broken_at_is_first()
    ensures { BrokenAtIsFirst }
{}

/// Reading names no index exactly where the stuffing isn't broken.
pub fn unbroken_is_none()
    ensures { UnbrokenIsNone }
{}

/// `bytes_of_bits` is the least number of first bytes that carry at least n bits.
pub fn bytes_of_bits_is_least()
    ensures { BytesOfBitsIsLeast }
{}

/// The bits that `packing` adds are all 0.
pub fn packing_pads_with_zeros()
    ensures { PackingPadsWithZeros }
{}

/// `least_lblock` is the least Lblock that the lengths of a code-block fit.
pub fn lblock_is_least()
    ensures { LblockIsLeast }
{}

/// The inclusion label of a node is 0 exactly where a code-block below it is included.
pub fn inclusion_is_least()
    ensures { InclusionIsLeast }
{}

/// The value label of a node is the least zero bit-planes of the included code-blocks below it.
pub fn planes_are_least()
    ensures { PlanesAreLeast }
{}

/// With the choices of our writer a header can say the code-blocks of a packet.
pub fn choices_can_say()
    ensures { ChoicesCanSay }
{}

/// A coordinate is in a band exactly where its sample is in the component.
pub fn band_spans_are_sampled()
    ensures { BandSpansAreSampled }
{}
