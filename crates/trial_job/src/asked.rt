//! What is asked of a trial.

/// A trial: how many codestreams are generated, and how their datagrams are treated.
#[derive(Clone, Copy, Debug, PartialEq, Eq)]
pub struct Trial {
    /// The seed of the first codestream and of what is lost; each further codestream has the seed
    /// after that of the one before it, modulo 2^64.
    pub seed: u64,
    /// The number of codestreams, 1 to 64.
    pub count: u8,
    /// How many datagrams of 1,000 are lost on average, 0 to 1,000.
    pub loss: u16,
    /// The size of the reassembly window, 1 to 16,384.
    pub window: u16,
    /// The limit of thinning, 0 to 7.
    pub limit: u8,
}
