//! The number that digits spell.
//!
//! Invariant: it is below 10^38, so that it and its negative fit 128 bits.
ghost use Rattle.std.specs.Prelude.{◌≡◌, ◌<◌, ◌≤◌, ◌^◌, length, pos, neg_ℤ};
ghost use Rattle.sql_text.specs.Numbers.{AreDigits};
ghost use Rattle.sql_text.specs.Numbers.{number_of, small_number};

use std::marker::Model;

/// A number of at most 38 digits.
#[derive(Drop)]
pub struct Number {
    value: u128,
}

impl Model for Number {
    ghost use Rattle.std.specs.Prelude.{ℕ, ◌<◌, ◌^◌};

    ghost Value = { ℕ };

    ghost view = { λ n. n.value };

    ghost invariant = { λ n. n.value < 10 ^ 38 };
}

impl Number {
    /// The number itself.
    pub fn positive(&self) -> i128
        ensures { result ≡ pos self.now }
    {
        self.value as i128
    }

    /// Its negative.
    pub fn negative(&self) -> i128
        ensures { result ≡ neg_ℤ (pos self.now) }
    {
        -(self.value as i128)
    }

    /// It, where it is from 1 to 255.
    pub fn small(&self) -> Option<u8>
        ensures { result ≡ small_number self.now }
    {
        if 1 <= self.value && self.value <= 255 {
            Some(self.value as u8)
        } else {
            None
        }
    }
}

/// The number that these digits spell.
pub fn read_number(digits: &[u8]) -> Number
    requires digits { AreDigits digits.now }
    requires few { length digits.now ≤ 38 }
    ensures value { result ≡ number_of digits.now }
{
    let mut value: u128 = 0;
    for digit in digits {
        value = value * 10 + u128::from(*digit - b'0');
    }
    Number { value }
}
