//! Lists of numbers, of groups or communities.
ghost use Rattle.std.specs.Prelude.{◌≡◌};
ghost use Rattle.policy.specs.Numbers.{is_among};

use std::marker::Model;

/// Numbers of groups or communities. Contracts see a list, so that definitions can make and compare standings.
#[derive(Drop)]
pub struct Numbers {
    numbers: Vec<u32>,
}

impl Model for Numbers {
    ghost use Rattle.std.specs.Prelude.{ℕ, List};

    ghost Value = { List ℕ };

    ghost view = { λ n. n.numbers.items };
}

impl Numbers {
    /// Returns the numbers of a vector. Allocates nothing.
    pub fn new(numbers: Vec<u32>) -> Numbers
        ensures { result ≡ numbers.items }
    {
        Numbers { numbers }
    }

    /// Returns the numbers, in order.
    pub fn as_slice(&self) -> &[u32]
        ensures { result.now ≡ self.now }
    {
        self.numbers.as_slice()
    }

    /// Returns whether the number is among them.
    pub fn contains(&self, number: u32) -> bool
        ensures { result ≡ is_among number self.now }
    {
        self.numbers.contains(&number)
    }

    /// Returns the numbers as a vector. Allocates nothing.
    pub fn into_vec(self) -> Vec<u32>
        ensures { result.items ≡ self }
    {
        self.numbers
    }
}
