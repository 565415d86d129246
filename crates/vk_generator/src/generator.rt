//! The generator.

ghost use Rattle.std.specs.Prelude.{◌≡◌};
ghost use Rattle.vk_generator.specs.Numbers.{drawn, next};

use std::marker::Model;

/// A generator, which contracts see as its state, a number below 2^64.
#[derive(Drop)]
pub struct Generator {
    state: u64,
}

impl Model for Generator {
    ghost use Rattle.std.specs.Prelude.{ℕ};

    ghost Value = { ℕ };

    ghost view = { λ g. g.state };
}

/// The state behind this one.
fn next(x: u64) -> u64
    ensures { result ≡ next x }
{
    x.wrapping_mul(6_364_136_223_846_793_005)
        .wrapping_add(1_442_695_040_888_963_407)
}

impl Generator {
    /// A generator that starts with this seed.
    pub fn new(seed: u64) -> Self
        ensures { result ≡ seed }
    {
        Generator { state: seed }
    }

    /// The next number, below 2^31.
    pub fn draw(&mut self) -> u32
        ensures state { self.new ≡ next self.old }
        ensures drawn { result ≡ drawn self.new }
    {
        self.state = next(self.state);
        (self.state >> 33) as u32
    }
}
