//! What a reader keeps of a value whose last bit hasn't come.

/// The bits that were read of a value whose last bit hasn't come.
#[derive(Clone, Copy, Debug, PartialEq, Eq)]
pub enum Part {
    /// No bit.
    Nothing,
    /// The number that the first bits of a number spell, and how many they are.
    Number(u32, u8),
    /// A number of bits of one kind.
    Run(bool, u8),
}
