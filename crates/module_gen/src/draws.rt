//! Numbers drawn from a seed.

ghost use Rattle.std.specs.Prelude.{◌≡◌, ◌<◌};
ghost use Rattle.generated_forms.specs.Draws.{next_state, drawn};

/// The random numbers of a seed: a linear congruential generator modulo 2^64.
#[derive(Drop)]
pub(crate) struct Draws {
    state: u64,
}

const MULTIPLIER: u64 = 6_364_136_223_846_793_005;

const INCREMENT: u64 = 1_442_695_040_888_963_407;

// The low bits of a state repeat soon, so a number is drawn from the others.
const LOW_BITS: u32 = 33;

impl Draws {
    pub(crate) fn from_seed(seed: u64) -> Draws
        ensures { result.state ≡ seed }
    {
        Draws { state: seed }
    }

    /// The next number, below a bound.
    pub(crate) fn draw(&mut self, below: u64) -> u64
        requires { 0 < below }
        ensures state { self.new.state ≡ next_state self.old.state }
        ensures number { result ≡ drawn below self.new.state }
    {
        self.state = self.state.wrapping_mul(MULTIPLIER).wrapping_add(INCREMENT);
        (self.state >> LOW_BITS) % below
    }
}
