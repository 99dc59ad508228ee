//! Exact sums and differences in 128 bits.
ghost use Rattle.std.specs.Prelude.{◌≡◌, ◌+◌, ◌<◌, ◌≤◌, ◌^◌, ◌+ℤ◌, ◌-ℤ◌, nat_abs};

/// The sum of two numbers.
pub fn large_plus(a: i128, b: i128) -> i128
    requires a { nat_abs a < 2 ^ 126 }
    requires b { nat_abs b < 2 ^ 126 }
    ensures value { result ≡ a +ℤ b }
    ensures size { nat_abs result ≤ nat_abs a + nat_abs b }
{
    a + b
}

/// The difference of two numbers.
pub fn large_minus(a: i128, b: i128) -> i128
    requires a { nat_abs a < 2 ^ 126 }
    requires b { nat_abs b < 2 ^ 126 }
    ensures value { result ≡ a -ℤ b }
    ensures size { nat_abs result ≤ nat_abs a + nat_abs b }
{
    a - b
}

/// A number of 64 bits in 128.
pub fn large(a: i64) -> i128
    ensures value { result ≡ a }
    ensures size { nat_abs result ≤ nat_abs a }
{
    i128::from(a)
}
