//! Numbers drawn one after another from a seed, so that each run draws the same.
ghost use Rattle.std.specs.Prelude.{◌≡◌, ◌≤◌, ◌<◌};
ghost use Rattle.trial_model.specs.Draws.{next_state, draw};

/// The factor of the generator's step.
const FACTOR: u64 = 6_364_136_223_846_793_005;

/// What the step adds.
const ADDED: u64 = 1_442_695_040_888_963_407;

/// A linear congruential generator modulo 2^64.
#[derive(Clone, Copy)]
pub struct Draws {
    pub state: u64,
}

/// The state after this one.
fn next_state(state: u64) -> u64
    ensures { result ≡ next_state state }
{
    let next = u128::from(state) * u128::from(FACTOR) + u128::from(ADDED);
    (next % 0x1_0000_0000_0000_0000) as u64
}

impl Draws {
    /// Draws a number below `n`.
    pub fn below(&mut self, n: u32) -> u32
        requires { 1 ≤ n }
        ensures number { result ≡ (draw n self.old.state).value }
        ensures state { self.new.state ≡ (draw n self.old.state).state }
        ensures less { result < n }
    {
        self.state = next_state(self.state);
        (self.state / 0x2_0000_0000 % u64::from(n)) as u32
    }
}
