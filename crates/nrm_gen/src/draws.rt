//! Numbers that are drawn one after another, by a linear congruence. Kept is the state after the last draw.
ghost use Rattle.std.specs.Prelude.{◌≡◌, ◌<◌, zero};
ghost use Rattle.nrm_gen.specs.Draws.{drawn, state_after, stirred};

use std::marker::Model;

// What the state stays below.
const STATES: u64 = 2_147_483_648;

/// The state of the draws.
#[derive(Drop)]
pub(crate) struct Draws {
    state: u32,
}

impl Model for Draws {
    ghost use Rattle.std.specs.Prelude.{ℕ, ◌<◌, ◌^◌};

    ghost Value = { ℕ };

    ghost view = { λ d. d.state };

    ghost invariant = { λ d. d.state < 2 ^ 31 };
}

impl Draws {
    /// The draws of a number.
    #[tactic(auto, unfolding(crate::specs::Draws::state_after))]
    pub(crate) fn new(number: u32) -> Draws
        ensures { result ≡ state_after number zero }
    {
        Draws {
            state: (u64::from(number) % STATES) as u32,
        }
    }

    /// The next number, which is below the given one.
    pub(crate) fn draw(&mut self, below: u32) -> u32
        requires { 0 < below }
        ensures state { self.new ≡ stirred self.old }
        ensures number { result ≡ drawn below self.new }
        ensures within { result < below }
    {
        let stirred = u64::from(self.state) * 1_103_515_245 + 12_345;
        self.state = (stirred % STATES) as u32;
        self.state / 65_536 % below
    }
}
