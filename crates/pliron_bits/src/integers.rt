//! Whole numbers of 128 bits, one operation each.
ghost use Rattle.std.specs.Prelude.{◌≡◌, ◌≢◌, ◌^◌, ◌≤◌, ◌<◌, ◌≤ℤ◌, ◌+ℤ◌, ◌-ℤ◌, ◌*ℤ◌, pos, negsuc, unsigned_abs, int_div, int_rem};
ghost use Rattle.std.specs.Int.{int_div_euclid};

// The sum.
pub(crate) fn plus(a: i128, b: i128) -> i128
    requires first { unsigned_abs a ≤ 2 ^ 64 }
    requires second { unsigned_abs b ≤ 2 ^ 64 }
    ensures { result ≡ a +ℤ b }
{
    a + b
}

// The difference.
pub(crate) fn minus(a: i128, b: i128) -> i128
    requires first { unsigned_abs a ≤ 2 ^ 64 }
    requires second { unsigned_abs b ≤ 2 ^ 64 }
    ensures { result ≡ a -ℤ b }
{
    a - b
}

// The product.
pub(crate) fn times(a: i128, b: i128) -> i128
    requires first { unsigned_abs a ≤ 2 ^ 63 }
    requires second { unsigned_abs b ≤ 2 ^ 63 }
    ensures { result ≡ a *ℤ b }
{
    a * b
}

// The quotient, which rounds to 0.
pub(crate) fn over(a: i128, b: i128) -> i128
    requires first { unsigned_abs a ≤ 2 ^ 64 }
    requires second { b ≢ pos 0 }
    requires small { unsigned_abs b ≤ 2 ^ 64 }
    ensures { result ≡ int_div a b }
{
    a / b
}

// The remainder, which has the sign of the first number.
pub(crate) fn rest(a: i128, b: i128) -> i128
    requires first { unsigned_abs a ≤ 2 ^ 64 }
    requires second { b ≢ pos 0 }
    requires small { unsigned_abs b ≤ 2 ^ 64 }
    ensures { result ≡ int_rem a b }
{
    a % b
}

// The quotient that leaves a remainder which isn't negative.
pub(crate) fn euclidean(a: i128, b: i128) -> i128
    requires first { unsigned_abs a ≤ 2 ^ 64 }
    requires second { b ≢ pos 0 }
    requires small { unsigned_abs b ≤ 2 ^ 64 }
    ensures { result ≡ int_div_euclid a b }
{
    a.div_euclid(b)
}

// The quotient, which rounds down.
pub(crate) fn floor(a: i128, b: i128) -> i128
    requires first { unsigned_abs a ≤ 2 ^ 64 }
    requires positive { pos 1 ≤ℤ b }
    requires small { unsigned_abs b ≤ 2 ^ 64 }
    ensures { result ≡ int_div_euclid a b }
{
    a.div_euclid(b)
}
