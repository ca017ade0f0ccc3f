// The exports of `eml::mathematics`.
ghost use Rattle.std.specs.Prelude.{◌≡◌};
ghost use Rattle.std.specs.Float.{binary64};
ghost use Rattle.std.specs.Float.Ieee.{of_bits, to_bits};
ghost use Rattle.number.specs.Sign.{abs_of, sign_bit};
ghost use Rattle.number.specs.MaxMin.{max_of, min_of};
ghost use Rattle.number.specs.Next.{next_up, next_down};
ghost use Rattle.maths.specs.Exp.{exp_of};
ghost use Rattle.maths.specs.Ln.{ln_of};
ghost use Rattle.maths.specs.Trig.{sin_of, cos_of, atan_of};
ghost use Rattle.maths.specs.Cplx.{complex_exp, complex_ln};
ghost use Rattle.record.specs.Views.{final};

#[unsafe(no_mangle)]
pub extern "C" fn eml_exp(x: f64) -> f64
    ensures { result ≡ exp_of x }
{
    eml::mathematics::eml_exp(x)
}

#[unsafe(no_mangle)]
pub extern "C" fn eml_ln(x: f64) -> f64
    ensures { result ≡ ln_of x }
{
    eml::mathematics::eml_ln(x)
}

#[unsafe(no_mangle)]
pub extern "C" fn eml_sin(x: f64) -> f64
    ensures { result ≡ sin_of x }
{
    eml::mathematics::eml_sin(x)
}

#[unsafe(no_mangle)]
pub extern "C" fn eml_cos(x: f64) -> f64
    ensures { result ≡ cos_of x }
{
    eml::mathematics::eml_cos(x)
}

#[unsafe(no_mangle)]
pub extern "C" fn eml_atan(x: f64) -> f64
    ensures { result ≡ atan_of x }
{
    eml::mathematics::eml_atan(x)
}

#[unsafe(no_mangle)]
pub extern "C" fn eml_complex_exp(re: f64, im: f64, real: &mut f64, imag: &mut f64)
    ensures { record { re = final real; im = final imag } ≡ complex_exp (record { re = re; im = im }) }
{
    eml::mathematics::eml_complex_exp(re, im, real, imag)
}

#[unsafe(no_mangle)]
pub extern "C" fn eml_complex_ln(re: f64, im: f64, real: &mut f64, imag: &mut f64)
    ensures { record { re = final real; im = final imag } ≡ complex_ln (record { re = re; im = im }) }
{
    eml::mathematics::eml_complex_ln(re, im, real, imag)
}

#[unsafe(no_mangle)]
pub extern "C" fn eml_max(a: f64, b: f64) -> f64
    ensures { result ≡ max_of a b }
{
    eml::mathematics::eml_max(a, b)
}

#[unsafe(no_mangle)]
pub extern "C" fn eml_min(a: f64, b: f64) -> f64
    ensures { result ≡ min_of a b }
{
    eml::mathematics::eml_min(a, b)
}

#[unsafe(no_mangle)]
pub extern "C" fn eml_abs(x: f64) -> f64
    ensures { result ≡ abs_of x }
{
    eml::mathematics::eml_abs(x)
}

#[unsafe(no_mangle)]
pub extern "C" fn eml_sign_bit(x: f64) -> bool
    ensures { result ≡ sign_bit x }
{
    eml::mathematics::eml_sign_bit(x)
}

#[unsafe(no_mangle)]
pub extern "C" fn eml_next_up(x: f64) -> f64
    ensures { result ≡ next_up binary64 x }
{
    eml::mathematics::eml_next_up(x)
}

#[unsafe(no_mangle)]
pub extern "C" fn eml_next_down(x: f64) -> f64
    ensures { result ≡ next_down binary64 x }
{
    eml::mathematics::eml_next_down(x)
}

#[unsafe(no_mangle)]
pub extern "C" fn eml_of_bits(b: u64) -> f64
    ensures { result ≡ of_bits binary64 b }
{
    eml::mathematics::eml_of_bits(b)
}

#[unsafe(no_mangle)]
pub extern "C" fn eml_bits_of(x: f64) -> u64
    ensures { result ≡ to_bits binary64 x }
{
    eml::mathematics::eml_bits_of(x)
}
