// What a decision asks: of the constraint that the records leave, about variable `var` of `count` in its range.
#![tactic(auto, unfolding(crate::specs::Deciding::point_at, crate::specs::Deciding::boxes_at, crate::specs::Deciding::forall_samples, crate::specs::Deciding::exists_samples, number::specs::Computing::computing))]

ghost use Rattle.std.specs.Prelude.{◌≡◌};

use super::Verdict;
use constraint::Records;
use interval::{Count, Domain, Interval, Point};
use narrow::{Mode, PropResult, Propagator};
use point::helpers::check_constraint;
use point::stack::Stack;
use settings::Settings;

#[derive(Clone, Copy)]
pub struct Question<'a> {
    pub records: Records<'a>,
    pub settings: Settings,
    pub var: usize,
    pub range: Interval,
    pub count: Count,
}

impl<'a> Question<'a> {
    ghost use Rattle.interval.specs.Views.{intervals_of, values_of};
    ghost use Rattle.constraint.specs.Views.{the_constraint};
    ghost use Rattle.decide.specs.Deciding.{forall_samples, exists_samples, refutes};
    ghost use Rattle.decide.specs.Views.{sample_of, box_of, passes_at, for_all, exists, result_of};

    // The variable at x, every other one at 0.
    fn point_at(&self, x: f64) -> Point
        ensures { values_of result ≡ sample_of self.now x }
    {
        Point::zeros(self.count).with(self.var, x)
    }

    // The variable in its range, every other one in [-1e10, 1e10].
    fn boxes(&self) -> Domain
        ensures { intervals_of result ≡ box_of self.now }
    {
        Domain::filled(Interval::new(-1e10, 1e10), self.count).with(self.var, self.range)
    }

    fn forall_samples(&self) -> [f64; 5]
        ensures { result ≡ forall_samples self.now.range.lo self.now.range.hi }
    {
        let Interval { lo, hi } = self.range;
        let tenth = 0.1 * (hi - lo);
        [lo, hi, (lo + hi) / 2.0, lo + tenth, hi - tenth]
    }

    fn exists_samples(&self) -> [f64; 5]
        ensures { result ≡ exists_samples self.now.range.lo self.now.range.hi }
    {
        let Interval { lo, hi } = self.range;
        let width = hi - lo;
        [
            (lo + hi) / 2.0,
            lo,
            hi,
            lo + 0.25 * width,
            lo + 0.75 * width,
        ]
    }

    // Whether the check passes at x. A stack for each sample: with one that the closure alters the proof did not close, since the law of `find`
    // speaks of a closure that leaves what it captures as it was.
    fn passes(&self, x: f64) -> bool
        ensures { result ≡ passes_at self.now x }
    {
        let c = self.records.constraint();
        check_constraint(c, self.settings, &self.point_at(x), &mut Stack::new())
    }

    // Whether propagating the negation of the constraint meets a conflict.
    #[tactic(auto, using(crate::proofs::Ways::is_met), unfolding(crate::specs::Deciding::refutes))]
    fn is_refuted(&self) -> bool
        ensures { result ≡ refutes self.now.settings (the_constraint self.now.records) (box_of self.now) }
    {
        let propagator = Propagator {
            settings: self.settings,
            mode: Mode::Negated,
        };
        let mut boxes = self.boxes();
        let result = propagator.narrow(self.records.constraint(), &mut boxes);
        result == PropResult::Conflict
    }

    // Whether it holds for every value.
    pub fn forall(&self) -> Verdict
        ensures { result_of result ≡ for_all self.now }
    {
        if self.is_refuted() {
            return Verdict::True;
        }
        match self.forall_samples().into_iter().find(|x| !self.passes(*x)) {
            None => Verdict::Unknown,
            Some(x) => Verdict::FalseWithCounterexample(self.point_at(x)),
        }
    }

    // Whether it holds for some value.
    pub fn exists(&self) -> Verdict
        ensures { result_of result ≡ exists self.now }
    {
        match self.exists_samples().into_iter().find(|x| self.passes(*x)) {
            None => Verdict::Unknown,
            Some(x) => Verdict::TrueWithWitness(self.point_at(x)),
        }
    }
}
