//! Sums and products, each by one operation.

ghost use Rattle.std.specs.Prelude.{◌≡◌, ◌+ℤ◌, ◌*ℤ◌};
ghost use Rattle.std.specs.Int.{int_wrap, w16};

/// A product of two words, exact.
pub fn product(a: i32, b: i32) -> i64
    ensures { result ≡ a *ℤ b }
{
    a as i64 * b as i64
}

/// A sum of three numbers, exact.
#[tactic(auto, using(std::proofs::lemmas::Int::ints))]
pub fn sum(a: i64, b: i64, c: i64) -> i128
    ensures { result ≡ (a +ℤ b) +ℤ c }
{
    a as i128 + b as i128 + c as i128
}

/// A sum of two halves, which wraps.
#[tactic(auto, using(std::proofs::lemmas::Int::wraps))]
pub fn wrapped_sum(a: i16, b: i16) -> i16
    ensures { result ≡ int_wrap w16 (a +ℤ b) }
{
    a.wrapping_add(b)
}
