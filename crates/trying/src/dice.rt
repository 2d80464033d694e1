//! Numbers for generated cases. The same seed gives the same numbers.

ghost use Rattle.std.specs.Prelude.{◌≡◌, ◌+◌, ◌<◌, ◌≤◌, ◌↔◌, IsSome, length};
ghost use Rattle.rand_pcg.specs.Lcg.{started, increment_of};
ghost use Rattle.rand_pcg.specs.Pcg.{multiplier_64};

use rand_core::utils::NextWord;
use rand_pcg::Pcg32;
use std::marker::Model;

/// A generator of numbers, which contracts see as its state.
#[derive(Drop)]
pub struct Dice {
    numbers: Pcg32,
}

impl Model for Dice {
    ghost use Rattle.rand_pcg.specs.Lcg.{Lcg};

    ghost Value = { Lcg };

    ghost view = { λ d. d.numbers };
}

impl Dice {
    pub fn new(seed: u64) -> Dice
        ensures { result ≡ started 64 multiplier_64 seed (increment_of 64 54) }
    {
        Dice {
            numbers: Pcg32::new(seed, 54),
        }
    }

    /// Returns a number below `sides`, or 0 if there is none.
    pub fn roll(&mut self, sides: u32) -> u32
        ensures { 0 < sides → result < sides }
    {
        self.numbers.next_word().checked_rem(sides).unwrap_or(0)
    }

    /// Returns a place among so many, or 0 if there is none.
    pub fn place(&mut self, count: usize) -> usize
        ensures { 0 < count → result < count }
    {
        (self.numbers.next_word() as usize)
            .checked_rem(count)
            .unwrap_or(0)
    }

    /// Returns true once in so many times. The numbers decide which times.
    pub fn once_in(&mut self, sides: u32) -> bool {
        self.roll(sides) == 0
    }

    /// Returns a number from 1 to this one, or 1 if there is none.
    pub fn one_to(&mut self, count: u32) -> u32
        ensures positive { 1 ≤ result }
        ensures most { 0 < count → result ≤ count }
    {
        self.roll(count).saturating_add(1)
    }

    /// Returns one of these, or none if there is none.
    pub fn one_of<'a, T>(&mut self, items: &'a [T]) -> Option<&'a T>
        ensures { IsSome result ↔ (0 < length items.now) }
    {
        let place = self.place(items.len());
        items.get(place)
    }

    /// Returns one of these once in so many times, and otherwise the other number. Returns that too if there are none.
    pub fn one_of_or(&mut self, sides: u32, numbers: &[u32], other: u32) -> u32 {
        match self.one_of(numbers) {
            Some(number) if self.once_in(sides) => *number,
            _ => other,
        }
    }

    /// Returns the number of a row, if rows are numbered from 1 to this one: mostly of one of the first, sometimes 0 or
    /// the next.
    pub fn number(&mut self, count: u32) -> u32
        ensures { 0 < count → result ≤ count + 1 }
    {
        match self.roll(16) {
            0 => 0,
            1..=3 => count.saturating_add(1),
            4 | 5 => self.one_to(count),
            _ => self.one_to(count.min(6)),
        }
    }
}
