// The exports of `eml::domains`.
ghost use Rattle.std.specs.Prelude.{◌≡◌};
ghost use Rattle.interval.specs.Domain.{domain_new, domain_is_empty};
ghost use Rattle.record.specs.Leaving.{◌leaving◌};
ghost use Rattle.record.specs.Views.{old, final};
ghost use Rattle.eml.specs.Answers.{placed};

#[unsafe(no_mangle)]
pub extern "C" fn eml_domain_new(
    lo: &[f64],
    hi: &[f64],
    num_vars: usize,
    out_lo: &mut [f64],
    out_hi: &mut [f64],
) -> u8
    ensures { (result leaving (final out_lo, final out_hi)) ≡ domain_new lo.now hi.now num_vars (old out_lo) (old out_hi) }
{
    eml::domains::eml_domain_new(lo, hi, num_vars, out_lo, out_hi)
}

#[unsafe(no_mangle)]
pub extern "C" fn eml_domain_is_empty(lo: &[f64], hi: &[f64], out: &mut bool) -> u8
    ensures { (result leaving final out) ≡ placed (domain_is_empty lo.now hi.now) (old out) }
{
    eml::domains::eml_domain_is_empty(lo, hi, out)
}
