//! Sums that stay within BIGINT.
ghost use Rattle.std.specs.Prelude.{◌≡◌, ◌+ℤ◌, ◌-ℤ◌, SomeIff};
ghost use Rattle.sql_value.specs.Sums.{IsBigInt};

/// The sum of two numbers.
///
/// None exactly where it is no BIGINT.
pub fn checked_add(a: i64, b: i64) -> Option<i64>
    ensures { SomeIff result (IsBigInt (a +ℤ b)) (a +ℤ b) }
{
    a.checked_add(b)
}

/// The first number less the second.
///
/// None exactly where it is no BIGINT.
pub fn checked_sub(a: i64, b: i64) -> Option<i64>
    ensures { SomeIff result (IsBigInt (a -ℤ b)) (a -ℤ b) }
{
    a.checked_sub(b)
}
