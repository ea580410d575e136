// Draws: numbers that follow from a seed.
ghost use Rattle.std.specs.Prelude.{◌≡◌, ◌<◌};
ghost use Rattle.msp_gen.specs.declared.limits.TheConstants.{SEEDS};
ghost use Rattle.msp_gen.specs.Draws.{next_seed, draw, draw_from_one};

use crate::limits::SEEDS;

/// A source of numbers: a linear congruence, of which the upper fifteen bits are drawn.
#[derive(Drop)]
pub struct Draws {
    pub seed: u64,
    ghost seeded: { seed < SEEDS },
}

impl Draws {
    /// A number below `below`.
    #[tactic(auto, unfolding(crate::specs::Draws::next_seed))]
    pub fn draw(&mut self, below: u64) -> u64
        requires some { 0 < below }
        ensures value { result ≡ (draw below self.old.seed).value }
        ensures seed { self.new.seed ≡ (draw below self.old.seed).seed }
        ensures size { result < below }
    {
        self.seed = (1_103_515_245 * self.seed + 12_345) % SEEDS;
        self.seed / 65_536 % below
    }

    /// A number from 1 to `most`.
    pub fn draw_from_one(&mut self, most: u64) -> u64
        requires some { 0 < most }
        requires few { most < 1000000 }
        ensures value { result ≡ (draw_from_one most self.old.seed).value }
        ensures seed { self.new.seed ≡ (draw_from_one most self.old.seed).seed }
    {
        1 + self.draw(most)
    }
}
