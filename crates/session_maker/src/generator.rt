//! The numbers that a round is drawn from.
ghost use Rattle.std.specs.Prelude.{◌≡◌, ◌+◌, ◌<◌, ◌≤◌};
ghost use Rattle.session_maker.specs.Generator.{arrows as arrows_of, chosen, draw, next_number as number_after};

const MULTIPLIER: u64 = 6_364_136_223_846_793_005;

const INCREMENT: u64 = 1_442_695_040_888_963_407;

/// The number of the round after that of `x`.
#[tactic(auto, unfolding(crate::specs::Generator::next_number))]
pub fn next_number(x: u64) -> u64
    ensures { result ≡ number_after x }
{
    x.wrapping_mul(MULTIPLIER).wrapping_add(INCREMENT)
}

/// The upper 31 bits of a number.
#[tactic(auto, unfolding(crate::specs::Generator::draw))]
fn upper_bits(x: u64) -> u64
    ensures { result ≡ draw x }
{
    x >> 33
}

/// How many arrows follow the first one in the round of `x`.
#[tactic(auto, unfolding(crate::specs::Generator::arrows))]
pub fn arrow_count(x: u64) -> u64
    ensures value { result ≡ arrows_of x }
    ensures some { 0 < result }
    ensures few { result ≤ 4 }
{
    upper_bits(x) % 4 + 1
}

/// Which hypothesis closes the goal in the round of `x`, from 1.
#[tactic(auto, unfolding(crate::specs::Generator::chosen))]
pub fn chosen_hypothesis(x: u64) -> u64
    ensures { result ≡ chosen x }
{
    upper_bits(x) / 4 % arrow_count(x) + 1
}
