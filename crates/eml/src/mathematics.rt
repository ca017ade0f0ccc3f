// The f64 operations and the mathematics.
ghost use Rattle.std.specs.Prelude.{◌≡◌};
ghost use Rattle.std.specs.Float.{binary64};
ghost use Rattle.std.specs.Float.Ieee.{of_bits, to_bits};
ghost use Rattle.number.specs.Sign.{abs_of, sign_bit};
ghost use Rattle.number.specs.MaxMin.{max_of, min_of};
ghost use Rattle.number.specs.Next.{next_up, next_down};
ghost use Rattle.maths.specs.Exp.{exp_of};
ghost use Rattle.maths.specs.Ln.{ln_of};
ghost use Rattle.maths.specs.Trig.{sin_of, cos_of, atan_of};
ghost use Rattle.maths.specs.Cplx.{complex_exp, complex_ln};
ghost use Rattle.record.specs.Views.{final};

pub fn eml_exp(x: f64) -> f64
    ensures { result ≡ exp_of x }
{
    maths::exp(x)
}

pub fn eml_ln(x: f64) -> f64
    ensures { result ≡ ln_of x }
{
    maths::ln(x)
}

pub fn eml_sin(x: f64) -> f64
    ensures { result ≡ sin_of x }
{
    maths::sin(x)
}

pub fn eml_cos(x: f64) -> f64
    ensures { result ≡ cos_of x }
{
    maths::cos(x)
}

pub fn eml_atan(x: f64) -> f64
    ensures { result ≡ atan_of x }
{
    maths::atan(x)
}

// Writes the result to real and imag.
pub fn eml_complex_exp(re: f64, im: f64, real: &mut f64, imag: &mut f64)
    ensures { record { re = final real; im = final imag } ≡ complex_exp (record { re = re; im = im }) }
{
    let z = maths::complex_exp(maths::Complex { re, im });
    *real = z.re;
    *imag = z.im;
}

pub fn eml_complex_ln(re: f64, im: f64, real: &mut f64, imag: &mut f64)
    ensures { record { re = final real; im = final imag } ≡ complex_ln (record { re = re; im = im }) }
{
    let z = maths::complex_ln(maths::Complex { re, im });
    *real = z.re;
    *imag = z.im;
}

pub fn eml_max(a: f64, b: f64) -> f64
    ensures { result ≡ max_of a b }
{
    number::max(a, b)
}

pub fn eml_min(a: f64, b: f64) -> f64
    ensures { result ≡ min_of a b }
{
    number::min(a, b)
}

pub fn eml_abs(x: f64) -> f64
    ensures { result ≡ abs_of x }
{
    number::abs(x)
}

pub fn eml_sign_bit(x: f64) -> bool
    ensures { result ≡ sign_bit x }
{
    number::sign_bit(x)
}

pub fn eml_next_up(x: f64) -> f64
    ensures { result ≡ next_up binary64 x }
{
    number::next_up(x)
}

pub fn eml_next_down(x: f64) -> f64
    ensures { result ≡ next_down binary64 x }
{
    number::next_down(x)
}

pub fn eml_of_bits(b: u64) -> f64
    ensures { result ≡ of_bits binary64 b }
{
    number::of_bits(b)
}

pub fn eml_bits_of(x: f64) -> u64
    ensures { result ≡ to_bits binary64 x }
{
    number::bits_of(x)
}
