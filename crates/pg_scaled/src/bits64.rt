//! Exact sums, differences and products in 64 bits.
ghost use Rattle.std.specs.Prelude.{◌≡◌, ◌+◌, ◌*◌, ◌<◌, ◌≤◌, ◌^◌, ◌+ℤ◌, ◌-ℤ◌, ◌*ℤ◌, nat_abs};

/// The sum of two numbers.
pub fn plus(a: i64, b: i64) -> i64
    requires a { nat_abs a < 2 ^ 62 }
    requires b { nat_abs b < 2 ^ 62 }
    ensures value { result ≡ a +ℤ b }
    ensures size { nat_abs result ≤ nat_abs a + nat_abs b }
{
    a + b
}

/// The difference of two numbers.
pub fn minus(a: i64, b: i64) -> i64
    requires a { nat_abs a < 2 ^ 62 }
    requires b { nat_abs b < 2 ^ 62 }
    ensures value { result ≡ a -ℤ b }
    ensures size { nat_abs result ≤ nat_abs a + nat_abs b }
{
    a - b
}

/// The product of two numbers.
pub fn times(a: i64, b: i64) -> i64
    requires a { nat_abs a < 2 ^ 31 }
    requires b { nat_abs b < 2 ^ 31 }
    ensures value { result ≡ a *ℤ b }
    ensures size { nat_abs result ≡ nat_abs a * nat_abs b }
{
    a * b
}

/// The square of a number.
pub fn square(a: i64) -> i64
    requires { nat_abs a < 2 ^ 31 }
    ensures value { result ≡ a *ℤ a }
    ensures size { nat_abs result ≡ nat_abs a * nat_abs a }
{
    times(a, a)
}

/// A number of 32 bits in 64.
pub fn wide(a: i32) -> i64
    ensures value { result ≡ a }
    ensures size { nat_abs result ≤ nat_abs a }
{
    i64::from(a)
}
