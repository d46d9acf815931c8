//! Numbers that look like chance.

ghost use Rattle.std.specs.Prelude.{◌<◌};

/// Numbers that look like chance, the same in each run.
#[derive(Drop)]
pub struct Chance {
    pub state: u64,
}

impl Chance {
    /// One of 0 to `count` - 1.
    pub fn below(&mut self, count: u8) -> u8
        requires { 0 < count }
        ensures { result < count }
    {
        self.state = self
            .state
            .wrapping_mul(6364136223846793005)
            .wrapping_add(1442695040888963407);
        (self.state >> 56) as u8 % count
    }
}
