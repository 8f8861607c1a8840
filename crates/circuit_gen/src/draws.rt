//! Pseudo-random draws by a linear congruential generator. Source: Knuth, "The Art of Computer
//! Programming", volume 2, section 3.2.1 (`specs/Draws.antt`). A draw is below its bound.

ghost use Rattle.std.specs.Prelude.{◌≡◌, ◌<◌};
ghost use Rattle.circuit_gen.specs.Draws.{drawn, next};

/// The multiplier of the generator.
const MULTIPLIER: u64 = 6_364_136_223_846_793_005;

/// The increment of the generator.
const INCREMENT: u64 = 1_442_695_040_888_963_407;

/// Draws, one after the other.
#[derive(Drop)]
pub(crate) struct Draws {
    /// The number of the last draw, or the seed.
    pub(crate) number: u64,
}

/// The next number.
#[tactic(auto, using(crate::proofs::Numbers::stepped), unfolding(crate::specs::Draws::next))]
fn next(number: u64) -> u64
    ensures { result ≡ next number }
{
    number.wrapping_mul(MULTIPLIER).wrapping_add(INCREMENT)
}

/// The number below a bound that is drawn from a number.
#[tactic(auto, unfolding(crate::specs::Draws::drawn))]
fn drawn(number: u64, bound: usize) -> usize
    requires { 0 < bound }
    ensures value { result ≡ drawn number bound }
    ensures below { result < bound }
{
    ((number >> 33) % bound as u64) as usize
}

impl Draws {
    /// Draws a number below a bound.
    pub(crate) fn draw(&mut self, bound: usize) -> usize
        requires { 0 < bound }
        ensures number { self.new.number ≡ next self.old.number }
        ensures value { result ≡ drawn self.new.number bound }
        ensures below { result < bound }
    {
        self.number = next(self.number);
        drawn(self.number, bound)
    }
}
