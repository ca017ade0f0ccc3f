// Interval's methods, on the ends of intervals. A result that is an interval is written to `low` and `high`.
ghost use Rattle.std.specs.Prelude.{◌≡◌};
ghost use Rattle.interval.specs.Interval.{◌‥◌, is_empty, width, midpoint, contains, split, intersect, hull, exp, ln};
ghost use Rattle.record.specs.Views.{final};

use interval::Interval;

pub fn eml_interval_is_empty(lo: f64, hi: f64) -> bool
    ensures { result ≡ is_empty (lo ‥ hi) }
{
    Interval { lo, hi }.is_empty()
}

pub fn eml_interval_width(lo: f64, hi: f64) -> f64
    ensures { result ≡ width (lo ‥ hi) }
{
    Interval { lo, hi }.width()
}

pub fn eml_interval_midpoint(lo: f64, hi: f64) -> f64
    ensures { result ≡ midpoint (lo ‥ hi) }
{
    Interval { lo, hi }.midpoint()
}

pub fn eml_interval_contains(lo: f64, hi: f64, x: f64) -> bool
    ensures { result ≡ contains (lo ‥ hi) x }
{
    Interval { lo, hi }.contains(x)
}

// The lower half to [low, middle] and the upper to [middle, high].
#[tactic(auto, unfolding(interval::specs::Interval::split))]
pub fn eml_interval_split(lo: f64, hi: f64, low: &mut f64, middle: &mut f64, high: &mut f64)
    ensures { record { lower = final low ‥ final middle; upper = final middle ‥ final high } ≡ split (lo ‥ hi) }
{
    let halves = Interval { lo, hi }.split();
    let lower = halves.lower;
    let upper = halves.upper;
    *low = lower.lo;
    *middle = lower.hi;
    *high = upper.hi;
}

pub fn eml_interval_intersect(
    lo: f64,
    hi: f64,
    other: f64,
    another: f64,
    low: &mut f64,
    high: &mut f64,
)
    ensures { (final low ‥ final high) ≡ intersect (lo ‥ hi) (other ‥ another) }
{
    let r = Interval { lo, hi }.intersect(Interval {
        lo: other,
        hi: another,
    });
    *low = r.lo;
    *high = r.hi;
}

pub fn eml_interval_hull(lo: f64, hi: f64, other: f64, another: f64, low: &mut f64, high: &mut f64)
    ensures { (final low ‥ final high) ≡ hull (lo ‥ hi) (other ‥ another) }
{
    let r = Interval { lo, hi }.hull(Interval {
        lo: other,
        hi: another,
    });
    *low = r.lo;
    *high = r.hi;
}

pub fn eml_interval_exp(lo: f64, hi: f64, low: &mut f64, high: &mut f64)
    ensures { (final low ‥ final high) ≡ exp (lo ‥ hi) }
{
    let r = Interval { lo, hi }.exp();
    *low = r.lo;
    *high = r.hi;
}

pub fn eml_interval_ln(lo: f64, hi: f64, low: &mut f64, high: &mut f64)
    ensures { (final low ‥ final high) ≡ ln (lo ‥ hi) }
{
    let r = Interval { lo, hi }.ln();
    *low = r.lo;
    *high = r.hi;
}

pub fn eml_interval_exp_inv(lo: f64, hi: f64, low: &mut f64, high: &mut f64)
    ensures { (final low ‥ final high) ≡ ln (lo ‥ hi) }
{
    let r = Interval { lo, hi }.exp_inv();
    *low = r.lo;
    *high = r.hi;
}

pub fn eml_interval_ln_inv(lo: f64, hi: f64, low: &mut f64, high: &mut f64)
    ensures { (final low ‥ final high) ≡ exp (lo ‥ hi) }
{
    let r = Interval { lo, hi }.ln_inv();
    *low = r.lo;
    *high = r.hi;
}

pub fn eml_interval_new(lo: f64, hi: f64, low: &mut f64, high: &mut f64)
    ensures { (final low ‥ final high) ≡ (lo ‥ hi) }
{
    let r = Interval::new(lo, hi);
    *low = r.lo;
    *high = r.hi;
}

pub fn eml_interval_point(v: f64, low: &mut f64, high: &mut f64)
    ensures { (final low ‥ final high) ≡ (v ‥ v) }
{
    let r = Interval::point(v);
    *low = r.lo;
    *high = r.hi;
}
