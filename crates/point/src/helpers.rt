// A point against a constraint (helpers.rs): the check and the residual, by one recursion over the constraint.
#![tactic(auto, unfolding(constraint::specs::Records::gather, number::specs::Computing::computing))]

ghost use Rattle.std.specs.Prelude.{◌≡◌, Bool, List, Float, Result};
ghost use Rattle.settings.specs.declared.Settings.{Settings};
ghost use Rattle.constraint.specs.declared.Relation.{Relation};
ghost use Rattle.constraint.specs.Constraint.{Constraint};
ghost use Rattle.interval.specs.Views.{values_of};
ghost use Rattle.constraint.specs.Records.{gather};
ghost use Rattle.constraint.specs.Views.{meaning, meanings};
ghost use Rattle.point.specs.declared.eval.EvalError.{EvalError};
ghost use Rattle.point.specs.declared.helpers.Each.{Each};
ghost use Rattle.point.specs.Check.{check};
ghost use Rattle.point.specs.Residual.{residual};
ghost use Rattle.point.specs.Measure.{Measures, joined, quantified};

use super::eval::{self, EvalError};
use super::stack::Stack;
use constraint::{EmlConstraint, Operands, Relation, Shape};
use interval::Point;
use settings::Settings;

// And and ForAll ask of all, Or and Exists of any.
#[derive(Clone, Copy)]
pub enum Each {
    All,
    Any,
}

// What is made of a constraint at a point: a bool by the check, an f64 by the residual.
pub trait Measure: Copy {
    ghost measure: { Settings → List Float → Constraint → Self };

    ghost atom: { Settings → Relation → Result Float EvalError → Self };

    ghost denied: { Self → Self };

    ghost none: { Each → Self };

    ghost one_more: { Each → Self → Self → Self };

    ghost sample_more: { Each → Self → Self → Self };

    ghost is_settled: { Each → Self → Bool };

    // Of an atom, by its tree's value.
    fn atom(settings: Settings, relation: Relation, value: Result<f64, EvalError>) -> Self
        ensures { result ≡ atom settings relation value };

    // Of Not, by that of what it denies.
    fn denied(self) -> Self
        ensures { result ≡ denied self };

    // Of no constraint: what the others are added to, or compared with.
    fn none(each: Each) -> Self
        ensures { result ≡ none each };

    // With one constraint more.
    fn one_more(self, each: Each, next: Self) -> Self
        ensures { result ≡ one_more each self next };

    // With one sample more.
    fn sample_more(self, each: Each, next: Self) -> Self
        ensures { result ≡ sample_more each self next };

    // Whether no more constraints and no more samples alter it.
    fn is_settled(self, each: Each) -> bool
        ensures { result ≡ is_settled each self };

    ghost laws: { Measures measure atom denied none one_more sample_more is_settled };
}

#[cycle(measured)]
pub(crate) fn measured<M: Measure>(
    c: EmlConstraint,
    settings: Settings,
    point: &Point,
    stack: &mut Stack,
) -> M
    ensures { result ≡ M.measure settings (values_of point.now) (meaning c.entry) }
{
    match c.shape() {
        Shape::Atom(relation, tree) => {
            let value = eval::eval_real(tree, settings, point.as_slice(), stack);
            M::atom(settings, relation, value)
        }
        Shape::Not(denied) => {
            let inner: M = measured(denied, settings, point, stack);
            inner.denied()
        }
        Shape::And(cs) => measured_each(cs, settings, Each::All, point, stack),
        Shape::Or(cs) => measured_each(cs, settings, Each::Any, point, stack),
        Shape::ForAll(v, lo, hi, body) => {
            measured_samples(body, settings, Each::All, v, lo, hi, point, stack)
        }
        Shape::Exists(v, lo, hi, body) => {
            measured_samples(body, settings, Each::Any, v, lo, hi, point, stack)
        }
    }
}

// Of several, oldest first. Those after the one that settles it are not looked at.
#[cycle(measured)]
fn measured_each<M: Measure>(
    cs: Operands,
    settings: Settings,
    each: Each,
    point: &Point,
    stack: &mut Stack,
) -> M
    ensures { result ≡ M.measure settings (values_of point.now) (joined each (gather (meanings cs.entry))) }
{
    let Some((last, others)) = cs.split_last() else {
        return M::none(each);
    };
    let before: M = measured_each(others, settings, each, point, stack);
    if before.is_settled(each) {
        return before;
    }
    before.one_more(each, measured(last, settings, point, stack))
}

// Of a constraint with variable v at each of a quantifier's samples, likewise. v, lo and hi as the Rust's ForAll and Exists hold them.
#[cycle(measured)]
fn measured_samples<M: Measure>(
    c: EmlConstraint,
    settings: Settings,
    each: Each,
    v: usize,
    lo: f64,
    hi: f64,
    point: &Point,
    stack: &mut Stack,
) -> M
    ensures { result ≡ M.measure settings (values_of point.now) (quantified each v lo hi (meaning c.entry)) }
{
    let mut total = M::none(each);
    for x in [lo, (lo + hi) / 2.0, hi] {
        let inner = point.with(v, x);
        total = total.sample_more(each, measured(c, settings, &inner, stack));
        if total.is_settled(each) {
            return total;
        }
    }
    total
}

// Whether the point passes the constraint's check. The stack is lent for the evaluations.
pub fn check_constraint(
    c: EmlConstraint,
    settings: Settings,
    point: &Point,
    stack: &mut Stack,
) -> bool
    ensures { result ≡ check settings (values_of point.now) (meaning c.entry) }
{
    measured(c, settings, point, stack)
}

// How far the point is from meeting it.
pub fn evaluate_constraint_residual(
    c: EmlConstraint,
    settings: Settings,
    point: &Point,
    stack: &mut Stack,
) -> f64
    ensures { result ≡ residual settings (values_of point.now) (meaning c.entry) }
{
    measured(c, settings, point, stack)
}
