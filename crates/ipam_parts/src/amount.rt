ghost use Rattle.std.specs.Prelude.{◌≡◌, ◌<◌};

use std::marker::Model;

/// How many addresses of a block: at least one.
#[derive(Drop)]
pub struct Amount {
    count: u32,
}

impl Model for Amount {
    ghost use Rattle.std.specs.Prelude.{ℕ, ◌<◌};

    ghost Value = { ℕ };

    ghost view = { λ a. a.count };

    ghost invariant = { λ a. 0 < a.count };
}

impl Amount {
    /// The amount of this many addresses.
    pub fn of(count: u32) -> Amount
        requires { 0 < count }
        ensures { result ≡ count }
    {
        Amount { count }
    }

    /// The number of addresses, which is at least 1.
    pub fn get(&self) -> u32
        ensures value { result ≡ self.now }
        ensures some { 0 < result }
    {
        self.count
    }
}
