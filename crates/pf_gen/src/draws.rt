//! Draws, one after another.

ghost use Rattle.std.specs.Prelude.{◌≡◌, ◌<◌};
ghost use Rattle.pf_gen.specs.Draws.{drawn, next};

/// Draws by a linear congruence modulo 2^64, with the factor of Knuth's MMIX. Numbers below 2^31 are drawn.
#[derive(Clone, Copy)]
pub struct Draws {
    pub state: u64,
}

impl Draws {
    pub fn draw(&mut self) -> u64
        ensures state { self.new.state ≡ next self.old.state }
        ensures drawn { result ≡ drawn self.old.state }
        ensures within { result < 2147483648 }
    {
        let state = (self.state as u128 * 6364136223846793005 + 1442695040888963407)
            % 18446744073709551616;
        self.state = state as u64;
        self.state / 8589934592
    }
}
