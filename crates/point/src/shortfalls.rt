// The residual's parts: an f64 is how far a point is from meeting a constraint.
#![tactic(auto, unfolding(crate::specs::Residual::shortfall, crate::specs::Residual::residual_of_not, number::specs::Computing::computing))]

ghost use Rattle.std.specs.Prelude.{◌≡◌};
ghost use Rattle.point.specs.Residual.{shortfall, error_value, residual_of_not, residual};
ghost use Rattle.point.specs.Measure.{residual_of_atom, residual_of_none, residual_with_one, residual_with_sample, never_settled};
ghost use Rattle.point.specs.MeasureLaws.{residual_measures};

use super::eval::EvalError;
use super::helpers::{Each, Measure};
use constraint::Relation;
use settings::Settings;

// What an evaluation error counts as.
fn error_value(relation: Relation) -> f64
    ensures { result ≡ error_value relation }
{
    match relation {
        Relation::EqZero => 1.0 / 0.0,
        Relation::GtZero => -1.0 / 0.0,
        Relation::GeZero => -1.0 / 0.0,
        Relation::LtZero => 1.0 / 0.0,
        Relation::LeZero => 1.0 / 0.0,
        Relation::NeZero => 0.0,
    }
}

fn shortfall(relation: Relation, v: f64) -> f64
    ensures { result ≡ shortfall relation v }
{
    match relation {
        Relation::EqZero => number::abs(v),
        Relation::GtZero => if v > 0.0 { 0.0 } else { -v },
        Relation::GeZero => if v >= 0.0 { 0.0 } else { -v },
        Relation::LtZero => if v < 0.0 { 0.0 } else { number::abs(v) },
        Relation::LeZero => if v <= 0.0 { 0.0 } else { number::abs(v) },
        Relation::NeZero => number::abs(v),
    }
}

impl Measure for f64 {
    ghost measure = { residual };

    ghost atom = { residual_of_atom };

    ghost denied = { residual_of_not };

    ghost none = { residual_of_none };

    ghost one_more = { residual_with_one };

    ghost sample_more = { residual_with_sample };

    ghost is_settled = { never_settled };

    ghost laws = { residual_measures };

    fn atom(_settings: Settings, relation: Relation, value: Result<f64, EvalError>) -> f64 {
        shortfall(relation, value.unwrap_or(error_value(relation)))
    }

    fn denied(self) -> f64 {
        if self < 1e-12 {
            return 1.0;
        }
        0.0
    }

    fn none(each: Each) -> f64 {
        match each {
            Each::All => 0.0,
            Each::Any => 1.0 / 0.0,
        }
    }

    // And adds up, Or takes the least.
    fn one_more(self, each: Each, next: f64) -> f64 {
        let size = number::abs(next);
        match each {
            Each::All => self + size,
            Each::Any => number::min(self, size),
        }
    }

    // ForAll takes the greatest, Exists the least.
    fn sample_more(self, each: Each, next: f64) -> f64 {
        let size = number::abs(next);
        match each {
            Each::All => number::max(self, size),
            Each::Any => number::min(self, size),
        }
    }

    // Each of them counts.
    fn is_settled(self, _each: Each) -> bool {
        false
    }
}
