// The f64 operations of document 01 that are not the machine's own: maximum and minimum, by document 02 [3] now, magnitude and sign, bit
// patterns, neighbours, the nearest whole number; and the test of a sound range.
#![tactic(auto)]

ghost use Rattle.std.specs.Prelude.{◌≡◌, ◌^◌, T, from_bits, to_bits};
ghost use Rattle.std.specs.Float.{binary64};
ghost use Rattle.number.specs.Notation.{when◌then◌else◌};
ghost use Rattle.number.specs.Sign.{abs_of, sign_bit};
ghost use Rattle.number.specs.MaxMin.{max_of, min_of};
ghost use Rattle.number.specs.Next.{next_up, next_down};
ghost use Rattle.number.specs.Near as Near;
ghost use Rattle.number.specs.Sound.{sound};

// b where the test passes, else a. It compiles to no branch.
#[tactic(auto, unfolding(crate::specs::Computing::computing))]
fn select(test: bool, a: f64, b: f64) -> f64
    ensures { result ≡ (when test then b else a) }
{
    if test { b } else { a }
}

// IEEE 754-2019, clause 9.6, maximumNumber. Both selections are the same operand unless the two compare equal: then they are a and b, the same number
// or zeros, and `&` keeps a sign only where both have it. No comparison with a NaN holds, so that b is passed over where it is one.
#[tactic(auto, using(crate::proofs::Zeros::greatest), unfolding(crate::specs::Computing::computing))]
pub fn max(a: f64, b: f64) -> f64
    ensures { result ≡ max_of a b }
{
    if a.is_nan() {
        return b;
    }
    f64::from_bits(select(a < b, a, b).to_bits() & select(a <= b, a, b).to_bits())
}

// The same clause, minimumNumber: `|` keeps a sign that either has.
#[tactic(auto, using(crate::proofs::Zeros::least), unfolding(crate::specs::Computing::computing))]
pub fn min(a: f64, b: f64) -> f64
    ensures { result ≡ min_of a b }
{
    if a.is_nan() {
        return b;
    }
    f64::from_bits(select(b < a, a, b).to_bits() | select(b <= a, a, b).to_bits())
}

#[tactic(auto, using(crate::proofs::Signs::magnitude))]
pub fn abs(x: f64) -> f64
    ensures { result ≡ abs_of x }
{
    x.abs()
}

#[tactic(auto, using(crate::proofs::Signs::sign, crate::proofs::Signs::unsigned))]
pub fn sign_bit(x: f64) -> bool
    ensures { result ≡ sign_bit x }
{
    !x.is_nan() && x.is_sign_negative()
}

// IEEE 754-2019, clause 5.3.1: nextUp(x) is the least number of the format that compares greater than x. The cases that the clause
// names come in its order and words, and its rule is what remains: away from zero the patterns count up.
#[tactic(auto, using(std::proofs::lemmas::Float::not_nan_f64_bits, crate::proofs::Neighbours::cases))]
pub fn next_up(x: f64) -> f64
    ensures { result ≡ next_up binary64 x }
{
    // for the negative number of least magnitude, -0
    if x == -f64::from_bits(1) {
        return -0.0;
    }
    // for either zero, the positive number of least magnitude
    if x == 0.0 {
        return f64::from_bits(1);
    }
    // for +inf, +inf
    if x == f64::INFINITY {
        return x;
    }
    // for -inf, the finite negative number of largest magnitude
    if x == f64::NEG_INFINITY {
        return f64::MIN;
    }
    // for a NaN, a NaN
    if x.is_nan() {
        return x;
    }
    // the least number of the format that compares greater than x
    let b = x.to_bits();
    if x < 0.0 {
        f64::from_bits(b - 1)
    } else {
        f64::from_bits(b + 1)
    }
}

// nextDown(x) is -nextUp(-x)
#[tactic(auto, using(crate::specs::Order::passed), unfolding(crate::specs::Next::next_down))]
pub fn next_down(x: f64) -> f64
    ensures { result ≡ next_down binary64 x }
{
    -next_up(-x)
}

// The f64 of a bit pattern, a NaN's included.
pub fn of_bits(b: u64) -> f64
    ensures { result ≡ from_bits binary64 b }
{
    std::num::f64_from_bits_with_nan(b)
}

// The bit pattern of an f64; every NaN's is 7FF8000000000000.
pub fn bits_of(x: f64) -> u64
    ensures { result ≡ to_bits binary64 x }
{
    std::num::f64_to_bits_with_nan(x)
}

// The nearest whole number, ties away from zero: the whole part of 2x, one further from zero, halved. (The library's `round` took a
// third longer, measured.)
#[tactic(auto, using(crate::proofs::Whole::halved))]
pub fn nearest(x: f64) -> i64
    requires { T (Near.below (2 ^ 52) x) }
    ensures { result ≡ Near.nearest x }
{
    let t = std::num::truncating_f64_to_i64(x * 2.0);
    if t < 0 { (t - 1) / 2 } else { (t + 1) / 2 }
}

// A sound range: finite ends of magnitude at most 2^1022, and lo <= hi. `&` has no branch, so the test is the definition's.
#[tactic(auto, unfolding(crate::specs::Computing::computing))]
pub fn is_sound(lo: f64, hi: f64) -> bool
    ensures { result ≡ sound binary64 lo hi }
{
    let big: f64 = 4.49423283715579e307;
    (lo >= -big) & (lo <= big) & ((hi >= -big) & (hi <= big)) & (lo <= hi)
}
