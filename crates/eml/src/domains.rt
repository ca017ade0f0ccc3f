// IntervalDomain, on two lists of ends. A refusal leaves the lent places as they were.
ghost use Rattle.std.specs.Prelude.{◌≡◌};
ghost use Rattle.interval.specs.Domain.{domain_new, domain_is_empty};
ghost use Rattle.record.specs.Leaving.{◌leaving◌};
ghost use Rattle.record.specs.Views.{old, final};
ghost use Rattle.eml.specs.Answers.{placed};

use crate::answers::{put, refusal_number};

// The bounds of `num_vars` variables, [-10, 10] for a missing one, to the first places of `out_lo` and `out_hi`.
pub fn eml_domain_new(
    lo: &[f64],
    hi: &[f64],
    num_vars: usize,
    out_lo: &mut [f64],
    out_hi: &mut [f64],
) -> u8
    ensures { (result leaving (final out_lo, final out_hi)) ≡ domain_new lo.now hi.now num_vars (old out_lo) (old out_hi) }
{
    refusal_number(interval::domain_new(lo, hi, num_vars, out_lo, out_hi))
}

// Whether any interval is empty, to `out`. The ends may be any f64.
pub fn eml_domain_is_empty(lo: &[f64], hi: &[f64], out: &mut bool) -> u8
    ensures { (result leaving final out) ≡ placed (domain_is_empty lo.now hi.now) (old out) }
{
    put(interval::domain_is_empty(lo, hi), out)
}
