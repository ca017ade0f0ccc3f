// The exports of `eml::intervals`.
ghost use Rattle.std.specs.Prelude.{◌≡◌};
ghost use Rattle.interval.specs.Interval.{◌‥◌, is_empty, width, midpoint, contains, split, intersect, hull, exp, ln};
ghost use Rattle.record.specs.Views.{final};

#[unsafe(no_mangle)]
pub extern "C" fn eml_interval_is_empty(lo: f64, hi: f64) -> bool
    ensures { result ≡ is_empty (lo ‥ hi) }
{
    eml::intervals::eml_interval_is_empty(lo, hi)
}

#[unsafe(no_mangle)]
pub extern "C" fn eml_interval_width(lo: f64, hi: f64) -> f64
    ensures { result ≡ width (lo ‥ hi) }
{
    eml::intervals::eml_interval_width(lo, hi)
}

#[unsafe(no_mangle)]
pub extern "C" fn eml_interval_midpoint(lo: f64, hi: f64) -> f64
    ensures { result ≡ midpoint (lo ‥ hi) }
{
    eml::intervals::eml_interval_midpoint(lo, hi)
}

#[unsafe(no_mangle)]
pub extern "C" fn eml_interval_contains(lo: f64, hi: f64, x: f64) -> bool
    ensures { result ≡ contains (lo ‥ hi) x }
{
    eml::intervals::eml_interval_contains(lo, hi, x)
}

#[unsafe(no_mangle)]
pub extern "C" fn eml_interval_split(
    lo: f64,
    hi: f64,
    low: &mut f64,
    middle: &mut f64,
    high: &mut f64,
)
    ensures { record { lower = final low ‥ final middle; upper = final middle ‥ final high } ≡ split (lo ‥ hi) }
{
    eml::intervals::eml_interval_split(lo, hi, low, middle, high)
}

#[unsafe(no_mangle)]
pub extern "C" fn eml_interval_intersect(
    lo: f64,
    hi: f64,
    other: f64,
    another: f64,
    low: &mut f64,
    high: &mut f64,
)
    ensures { (final low ‥ final high) ≡ intersect (lo ‥ hi) (other ‥ another) }
{
    eml::intervals::eml_interval_intersect(lo, hi, other, another, low, high)
}

#[unsafe(no_mangle)]
pub extern "C" fn eml_interval_hull(
    lo: f64,
    hi: f64,
    other: f64,
    another: f64,
    low: &mut f64,
    high: &mut f64,
)
    ensures { (final low ‥ final high) ≡ hull (lo ‥ hi) (other ‥ another) }
{
    eml::intervals::eml_interval_hull(lo, hi, other, another, low, high)
}

#[unsafe(no_mangle)]
pub extern "C" fn eml_interval_exp(lo: f64, hi: f64, low: &mut f64, high: &mut f64)
    ensures { (final low ‥ final high) ≡ exp (lo ‥ hi) }
{
    eml::intervals::eml_interval_exp(lo, hi, low, high)
}

#[unsafe(no_mangle)]
pub extern "C" fn eml_interval_ln(lo: f64, hi: f64, low: &mut f64, high: &mut f64)
    ensures { (final low ‥ final high) ≡ ln (lo ‥ hi) }
{
    eml::intervals::eml_interval_ln(lo, hi, low, high)
}

#[unsafe(no_mangle)]
pub extern "C" fn eml_interval_exp_inv(lo: f64, hi: f64, low: &mut f64, high: &mut f64)
    ensures { (final low ‥ final high) ≡ ln (lo ‥ hi) }
{
    eml::intervals::eml_interval_exp_inv(lo, hi, low, high)
}

#[unsafe(no_mangle)]
pub extern "C" fn eml_interval_ln_inv(lo: f64, hi: f64, low: &mut f64, high: &mut f64)
    ensures { (final low ‥ final high) ≡ exp (lo ‥ hi) }
{
    eml::intervals::eml_interval_ln_inv(lo, hi, low, high)
}

#[unsafe(no_mangle)]
pub extern "C" fn eml_interval_new(lo: f64, hi: f64, low: &mut f64, high: &mut f64)
    ensures { (final low ‥ final high) ≡ (lo ‥ hi) }
{
    eml::intervals::eml_interval_new(lo, hi, low, high)
}

#[unsafe(no_mangle)]
pub extern "C" fn eml_interval_point(v: f64, low: &mut f64, high: &mut f64)
    ensures { (final low ‥ final high) ≡ (v ‥ v) }
{
    eml::intervals::eml_interval_point(v, low, high)
}
