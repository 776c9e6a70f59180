//! Numbers that are drawn one after the other.
ghost use Rattle.std.specs.Prelude.{◌≡◌, ◌<◌};
ghost use Rattle.generated_script.specs.Generated.{drawn, next_state};

/// The modulus of the states.
const MODULUS: u128 = 2_147_483_648;

/// Draws from a seed. The same seed gives the same numbers.
#[derive(Drop)]
pub struct Draws {
    pub state: u64,
}

impl Draws {
    /// The draws from this seed.
    pub fn new(seed: u64) -> Draws
        ensures { result.state ≡ seed }
    {
        Draws { state: seed }
    }

    /// Draws a number below `limit`.
    pub fn below(&mut self, limit: u64) -> u64
        requires { 0 < limit }
        ensures state { self.new.state ≡ next_state self.old.state }
        ensures number { result ≡ drawn limit self.new.state }
    {
        self.state = ((self.state as u128 * 1_103_515_245 + 12_345) % MODULUS) as u64;
        self.state / 65_536 % limit
    }
}
