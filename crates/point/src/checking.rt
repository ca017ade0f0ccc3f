// The check's parts: a bool is what a constraint's check answers at a point.
#![tactic(auto, unfolding(crate::specs::Check::holds, number::specs::Computing::computing))]

ghost use Rattle.std.specs.Prelude.{◌≡◌, not};
ghost use Rattle.point.specs.Check.{holds, passes, check};
ghost use Rattle.point.specs.Measure.{passes_none, passes_more, is_decided};
ghost use Rattle.point.specs.MeasureLaws.{check_measures};

use super::eval::EvalError;
use super::helpers::{Each, Measure};
use constraint::Relation;
use settings::Settings;

fn holds(settings: Settings, relation: Relation, v: f64) -> bool
    ensures { result ≡ holds settings relation v }
{
    match relation {
        Relation::EqZero => number::abs(v) < settings.equality,
        Relation::GtZero => v > 0.0,
        Relation::GeZero => v >= -settings.slack,
        Relation::LtZero => v < 0.0,
        Relation::LeZero => v <= settings.slack,
        Relation::NeZero => number::abs(v) > settings.slack,
    }
}

impl Measure for bool {
    ghost measure = { check };

    ghost atom = { passes };

    ghost denied = { not };

    ghost none = { passes_none };

    ghost one_more = { passes_more };

    ghost sample_more = { passes_more };

    ghost is_settled = { is_decided };

    ghost laws = { check_measures };

    fn atom(settings: Settings, relation: Relation, value: Result<f64, EvalError>) -> bool {
        value.is_ok_and(|v| holds(settings, relation, v))
    }

    fn denied(self) -> bool {
        !self
    }

    fn none(each: Each) -> bool {
        match each {
            Each::All => true,
            Each::Any => false,
        }
    }

    fn one_more(self, each: Each, next: bool) -> bool {
        match each {
            Each::All => self & next,
            Each::Any => self | next,
        }
    }

    fn sample_more(self, each: Each, next: bool) -> bool {
        self.one_more(each, next)
    }

    fn is_settled(self, each: Each) -> bool {
        match each {
            Each::All => !self,
            Each::Any => self,
        }
    }
}
