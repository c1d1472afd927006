// The generator: Park and Miller's minimal standard with the multiplier 48271. The next state is 48271 times the state, modulo the
// prime 2^31 - 1, and a number from 0 to `last` is the next state modulo `last` + 1.
ghost use Rattle.std.specs.Prelude.{◌≤◌};

const MODULUS: u64 = 2_147_483_647;

const MULTIPLIER: u64 = 48_271;

// Where the generator starts: every run draws the same lists.
const SEED: u64 = 20_001;

#[derive(Drop)]
pub struct Random {
    state: u64,
}

impl Random {
    pub fn new() -> Random {
        Random { state: SEED }
    }

    // A number from 0 to `last`.
    pub fn up_to(&mut self, last: u32) -> u32
        ensures { result ≤ last }
    {
        self.state = self.state % MODULUS * MULTIPLIER % MODULUS;
        (self.state % (u64::from(last) + 1)) as u32
    }
}
