// The stand-ins for library mathematics of document 01: exp, ln, sine, cosine, arctangent, and complex exp and ln. Each operation is
// rounded once, in the order that the document shows.
#![tactic(auto, using(std::proofs::lemmas::Float::not_nan_f64_bits))]

ghost use Rattle.std.specs.Prelude.{◌≡◌, ◌+◌, ◌<◌, ◌≤◌, ◌^◌, T, IfSome};
ghost use Rattle.std.specs.Int.Signed.{mag};
ghost use Rattle.std.specs.Float.{binary64};
ghost use Rattle.std.specs.Float.Ieee.{of_bits};
ghost use Rattle.std.specs.Float.Ieee.Positive.{positive};
ghost use Rattle.number.specs.Notation.{◌⊗◌, whole};
ghost use Rattle.number.specs.Near.{below};
ghost use Rattle.maths.specs.Series.{series};
ghost use Rattle.maths.specs.Exp.{two^, exp_sum, scaled, exp_of};
ghost use Rattle.maths.specs.Ln.{ln_sum, ln_at, mantissa, exponent, ln_of};
ghost use Rattle.maths.specs.Trig.{turns, rest, quarter, sin_step, cos_step, sin_at, cos_at, turn_of, sin_by, sin_of, cos_of, atan_sum, atan_at, atan_of};
ghost use Rattle.maths.specs.Cplx.{complex_exp, log_size, signed, angle, complex_ln};

// 2^a
#[tactic(auto, using(std::proofs::lemmas::Float::not_nan_f64_bits, crate::proofs::Powers::value_is))]
fn two_to(a: i64) -> f64
    requires { mag a < 1022 }
    ensures { result ≡ two^ a }
{
    f64::from_bits(((a + 1023) as u64) << 52)
}

fn exp_sum(r: f64) -> f64
    ensures { result ≡ exp_sum r }
{
    (1..15u32)
        .rev()
        .fold(1.0, |s, d| 1.0 + (r * s) / (d as f64))
}

// (s×2^a)×2^(k-a), a = k/2 rounded down
#[tactic(auto, unfolding(crate::specs::Exp::scaled))]
fn scale(s: f64, k: i64) -> f64
    requires { mag k < 2000 }
    ensures { result ≡ scaled s k }
{
    let a = k >> 1;
    (s * two_to(a)) * two_to(k - a)
}

#[tactic(auto, using(std::proofs::lemmas::Float::not_nan_f64_bits, number::specs::Order::only_nan, crate::proofs::Range::product_near, crate::proofs::Range::power_small), unfolding(crate::specs::Exp::exp_of, crate::specs::Exp::exp_at, number::specs::Computing::computing))]
pub fn exp(x: f64) -> f64
    ensures { result ≡ exp_of x }
{
    if x.is_nan() {
        return x;
    }
    if x >= 710.0 {
        return f64::INFINITY;
    }
    if x <= -746.0 {
        return 0.0;
    }
    let k = number::nearest(x * f64::from_bits(0x3FF71547652B82FE));
    let n = k as f64;
    let r = (x - n * f64::from_bits(0x3FE62E42FEE00000)) - n * f64::from_bits(0x3DEA39EF35793C76);
    scale(exp_sum(r), k)
}

// x = m×2^e, 1 <= m < 2
#[derive(Clone, Copy)]
struct Parts {
    m: f64,
    e: i64,
}

// The value of 53 binary digits, the first of them set, with the point after the first.
fn of_digits(q: u64) -> f64
    requires { (2 ^ 52 ≤ q) × (q < 2 ^ 53) }
    ensures { result ≡ of_bits binary64 (q + 0x3fe0_0000_0000_0000) }
{
    f64::from_bits(q + 0x3fe0_0000_0000_0000)
}

#[tactic(auto, using(crate::proofs::Bits::found))]
fn split(x: f64) -> Parts
    requires { T (positive x) }
    ensures { (result.m ≡ mantissa x) × (result.e ≡ exponent x) × (mag result.e < 5000) }
{
    let b = f64::to_bits(x);
    let field = b >> 52;
    let fraction = b & 0xf_ffff_ffff_ffff;
    if field == 0 {
        // a subnormal: moved up by its leading zeros, past the 11 places of sign and exponent
        let z = u64::leading_zeros(fraction) - 11;
        Parts {
            m: of_digits(fraction << z),
            e: -1022 - (z as i64),
        }
    } else {
        Parts {
            m: of_digits(fraction + 0x10_0000_0000_0000),
            e: (field as i64) - 1023,
        }
    }
}

fn ln_sum(w: f64) -> f64
    ensures { result ≡ ln_sum w }
{
    (1..12u32)
        .rev()
        .fold(1.0 / 23.0, |s, i| 1.0 / ((2 * i - 1) as f64) + w * s)
}

#[tactic(auto, using(std::proofs::lemmas::Float::not_nan_f64_bits), unfolding(crate::specs::Ln::ln_at, number::specs::Computing::computing))]
fn ln_at(m: f64, e: i64) -> f64
    requires { mag e < 2 ^ 53 }
    ensures { result ≡ ln_at m e }
{
    let n = e as f64;
    let f = (m - 1.0) / (m + 1.0);
    let s = ln_sum(f * f);
    n * f64::from_bits(0x3FE62E42FEE00000)
        + ((2.0 * f) * s + n * f64::from_bits(0x3DEA39EF35793C76))
}

#[tactic(auto, using(std::proofs::lemmas::Float::not_nan_f64_bits, number::specs::Order::only_nan, crate::proofs::Above::is_inf, crate::proofs::Above::above), unfolding(crate::specs::Ln::ln_of, crate::specs::Ln::ln_from, number::specs::Computing::computing))]
pub fn ln(x: f64) -> f64
    ensures { result ≡ ln_of x }
{
    if x.is_nan() {
        return x;
    }
    if x < 0.0 {
        return f64::NAN;
    }
    if x == 0.0 {
        return f64::NEG_INFINITY;
    }
    if x == f64::INFINITY {
        return x;
    }
    let Parts { m, e } = split(x);
    if m > f64::from_bits(0x3FF6A09E667F3BCD) {
        ln_at(m / 2.0, e + 1)
    } else {
        ln_at(m, e)
    }
}

// exp and ln where 1, the value of One, comes often, and 0, its ln.
#[tactic(auto, using(std::proofs::lemmas::Float::not_nan_f64_bits, number::specs::Order::passed, crate::specs::Zeros::exp_zero, crate::specs::Zeros::exp_one), unfolding(number::specs::Computing::computing))]
pub fn quick_exp(x: f64) -> f64
    ensures { result ≡ exp_of x }
{
    if x == 0.0 {
        return 1.0;
    }
    if x == 1.0 {
        return f64::from_bits(0x4005BF0A8B14576A);
    }
    exp(x)
}

#[tactic(auto, using(std::proofs::lemmas::Float::not_nan_f64_bits, number::specs::Order::passed, crate::specs::Zeros::ln_one), unfolding(number::specs::Computing::computing))]
pub fn quick_ln(x: f64) -> f64
    ensures { result ≡ ln_of x }
{
    if x == 1.0 {
        return 0.0;
    }
    ln(x)
}

fn sin_sum(w: f64) -> f64
    ensures { result ≡ series (sin_step w) 8 (whole 1) }
{
    (1..9u32).rev().fold(1.0, |s, i| {
        let d = 2 * i;
        1.0 - (w * s) / ((d * (d + 1)) as f64)
    })
}

fn cos_sum(w: f64) -> f64
    ensures { result ≡ series (cos_step w) 9 (whole 1) }
{
    (1..10u32).rev().fold(1.0, |c, i| {
        let d = 2 * i;
        1.0 - (w * c) / (((d - 1) * d) as f64)
    })
}

#[tactic(auto, unfolding(crate::specs::Trig::sin_at))]
fn sin_at(r: f64) -> f64
    ensures { result ≡ sin_at r }
{
    r * sin_sum(r * r)
}

#[tactic(auto, unfolding(crate::specs::Trig::cos_at))]
fn cos_at(r: f64) -> f64
    ensures { result ≡ cos_at r }
{
    cos_sum(r * r)
}

// How many quarter turns b is, to the nearest.
#[tactic(auto, using(std::proofs::lemmas::Float::not_nan_f64_bits, crate::proofs::Range::times_quarter, number::specs::Below::wider, number::specs::Below::nearest_small), unfolding(crate::specs::Trig::turns))]
fn turns_of(b: f64) -> i64
    requires { T (below (2 ^ 20 + 1) b) }
    ensures { (result ≡ turns b) × (mag result < 2 ^ 21) }
{
    number::nearest(b * f64::from_bits(0x3FE45F306DC9C883))
}

// What they leave of b.
#[tactic(auto, using(std::proofs::lemmas::Float::not_nan_f64_bits), unfolding(crate::specs::Trig::rest))]
fn rest_of(b: f64, n: i64) -> f64
    requires { mag n < 2 ^ 21 }
    ensures { result ≡ rest b n }
{
    let k = n as f64;
    (b - k * f64::from_bits(0x3FF921FB54400000)) - k * f64::from_bits(0x3DD0B4611A626331)
}

// n mod 4, never negative.
fn quarter_of(n: i64) -> u64
    ensures value { result ≡ quarter n }
    ensures small { result < 4 }
{
    n.rem_euclid(4) as u64
}

// What sin and cos need of an angle: its quarter turn and the rest. The quarter is a number, since cos adds 1 to it.
#[derive(Clone, Copy)]
pub struct Turn {
    quarter: u64,
    rest: f64,
}

// None where b is too far.
#[tactic(auto, using(crate::proofs::Range::turnable), unfolding(crate::specs::Trig::turn_of, number::specs::Computing::computing))]
fn turn_of(b: f64) -> Option<Turn>
    ensures value { result ≡ turn_of b }
    ensures small { IfSome result (λ t. t.quarter < 4) }
{
    if b.is_nan() || number::abs(b) > 1048576.0 {
        return None;
    }
    let n = turns_of(b);
    Some(Turn {
        quarter: quarter_of(n),
        rest: rest_of(b, n),
    })
}

#[tactic(auto, unfolding(crate::specs::Trig::sin_by, number::specs::Computing::computing))]
fn sin_by(quarter: u64, r: f64) -> f64
    ensures { result ≡ sin_by quarter r }
{
    match quarter {
        0 => sin_at(r),
        1 => cos_at(r),
        2 => -sin_at(r),
        _ => -cos_at(r),
    }
}

#[tactic(auto, unfolding(crate::specs::Trig::sin_of, number::specs::Computing::computing))]
pub fn sin(b: f64) -> f64
    ensures { result ≡ sin_of b }
{
    match turn_of(b) {
        Some(t) => sin_by(t.quarter, t.rest),
        None => f64::NAN,
    }
}

// cos is sin one quarter turn further.
#[tactic(auto, using(crate::proofs::Quarters::further), unfolding(crate::specs::Trig::cos_of, number::specs::Computing::computing))]
pub fn cos(b: f64) -> f64
    ensures { result ≡ cos_of b }
{
    match turn_of(b) {
        Some(t) => sin_by((t.quarter + 1) % 4, t.rest),
        None => f64::NAN,
    }
}

fn atan_sum(w: f64) -> f64
    ensures { result ≡ atan_sum w }
{
    (1..22u32)
        .rev()
        .fold(1.0 / 43.0, |s, i| 1.0 / ((2 * i - 1) as f64) - w * s)
}

#[tactic(auto, unfolding(crate::specs::Trig::atan_at))]
fn atan_at(base: f64, u: f64) -> f64
    ensures { result ≡ atan_at base u }
{
    base + u * atan_sum(u * u)
}

#[tactic(auto, using(std::proofs::lemmas::Float::not_nan_f64_bits), unfolding(crate::specs::Trig::atan_of, number::specs::Computing::computing))]
pub fn atan(t: f64) -> f64
    ensures { result ≡ atan_of t }
{
    if t > 0.4142 {
        atan_at(f64::from_bits(0x3FE921FB54442D18), (t - 1.0) / (t + 1.0))
    } else {
        atan_at(0.0, t)
    }
}

#[derive(Clone, Copy)]
pub struct Complex {
    pub re: f64,
    pub im: f64,
}

// A length e at an angle. cos of a zero is 1, and sin is the zero.
#[tactic(auto, using(std::proofs::lemmas::Float::not_nan_f64_bits, number::specs::Order::passed, crate::specs::Zeros::cos_zero, crate::specs::Zeros::sin_zero), unfolding(number::specs::Computing::computing))]
fn at_angle(e: f64, angle: f64) -> Complex
    ensures { result ≡ record { re = e ⊗ cos_of angle; im = e ⊗ sin_of angle } }
{
    if angle == 0.0 {
        return Complex {
            re: e * 1.0,
            im: e * angle,
        };
    }
    Complex {
        re: e * cos(angle),
        im: e * sin(angle),
    }
}

#[tactic(auto, unfolding(crate::specs::Cplx::complex_exp))]
pub fn complex_exp(z: Complex) -> Complex
    ensures { result ≡ complex_exp z }
{
    at_angle(quick_exp(z.re), z.im)
}

#[tactic(auto, unfolding(crate::specs::Cplx::log_size, number::specs::Computing::computing))]
fn log_size(m: f64, q: f64) -> f64
    ensures { result ≡ log_size m q }
{
    ln(m) + 0.5 * ln(1.0 + q * q)
}

// An angle that is not negative, with y's sign.
#[tactic(auto, unfolding(number::specs::Computing::computing))]
fn signed(y: f64, angle: f64) -> f64
    ensures { result ≡ signed y angle }
{
    if number::sign_bit(y) { -angle } else { angle }
}

#[tactic(auto, using(std::proofs::lemmas::Float::not_nan_f64_bits), unfolding(crate::specs::Cplx::angle, number::specs::Computing::computing))]
fn angle_of(z: Complex, t: f64) -> f64
    ensures { result ≡ angle z t }
{
    if z.re < 0.0 {
        signed(z.im, f64::from_bits(0x400921FB54442D18) - t)
    } else {
        signed(z.im, t)
    }
}

#[tactic(auto, using(std::proofs::lemmas::Float::not_nan_f64_bits), unfolding(crate::specs::Cplx::complex_ln, crate::specs::Cplx::real_ln, crate::specs::Cplx::other_ln, number::specs::Computing::computing))]
pub fn complex_ln(z: Complex) -> Complex
    ensures { result ≡ complex_ln z }
{
    let Complex { re, im } = z;
    if im == 0.0 {
        let size = quick_ln(number::abs(re));
        if number::sign_bit(re) {
            return Complex {
                re: size,
                im: signed(im, f64::from_bits(0x400921FB54442D18)),
            };
        }
        return Complex { re: size, im };
    }
    let a = number::abs(re);
    let b = number::abs(im);
    if b <= a {
        let q = b / a;
        Complex {
            re: log_size(a, q),
            im: angle_of(z, atan(q)),
        }
    } else {
        let q = a / b;
        Complex {
            re: log_size(b, q),
            im: angle_of(z, f64::from_bits(0x3FF921FB54442D18) - atan(q)),
        }
    }
}
