// One halving (document 01; nra.rs): the last widest box goes to one of its halves.
ghost use Rattle.std.specs.Prelude.{◌≡◌, ◌≤◌, IfOk};
ghost use Rattle.record.specs.Refused.{refusal_of};

use constraint::Records;
use interval::{Domain, Point};
use point::helpers::{check_constraint, evaluate_constraint_residual};
use point::stack::Stack;
use record::Refusal;
use settings::Settings;

// What stays the same in a run: the records, whose constraint is to be met, the settings, the limit, the tolerance. The stack that the checks are
// lent is no part of it: a task is only read.
#[derive(Clone, Copy)]
pub struct Task<'a> {
    pub records: Records<'a>,
    pub settings: Settings,
    pub limit: usize,
    pub tolerance: f64,
    pub ghost few: { limit ≤ 1_000_000 },
}

impl<'a> Task<'a> {
    ghost use Rattle.interval.specs.Views.{intervals_of, values_of};
    ghost use Rattle.constraint.specs.Views.{the_constraint};
    ghost use Rattle.point.specs.Check.{check};
    ghost use Rattle.nra.specs.Answers.{Asks};
    ghost use Rattle.nra.specs.Calls.{task_refusal};
    ghost use Rattle.nra.specs.Solver.{distance_at, halved};

    // 14 for the settings, then 8 for a limit above 1,000,000 or a NaN tolerance.
    #[tactic(auto, unfolding(crate::specs::Calls::task_refusal, crate::specs::Calls::limit_refusal))]
    pub fn new(
        records: Records<'a>,
        limit: usize,
        tolerance: f64,
        settings: Settings,
    ) -> Result<Task<'a>, Refusal>
        ensures refusal { refusal_of result ≡ task_refusal settings limit tolerance }
        ensures task { IfOk result (Asks settings (the_constraint records.entry) limit tolerance) }
    {
        settings.test()?;
        if (limit <= 1_000_000) & !tolerance.is_nan() {
            return Ok(Task {
                records,
                settings,
                limit,
                tolerance,
            });
        }
        Err(Refusal::Limit)
    }

    // Whether the point passes the check.
    pub fn passes(&self, point: &Point, stack: &mut Stack) -> bool
        ensures { result ≡ check self.now.settings (values_of point.now) (the_constraint self.now.records) }
    {
        check_constraint(self.records.constraint(), self.settings, point, stack)
    }

    // How far the point is from meeting the constraint: the residual's magnitude.
    pub fn distance(&self, point: &Point, stack: &mut Stack) -> f64
        ensures { result ≡ distance_at self.now.settings (the_constraint self.now.records) (values_of point.now) }
    {
        let c = self.records.constraint();
        number::abs(evaluate_constraint_residual(c, self.settings, point, stack))
    }

    // The last widest box is halved: its lower half stays only if the residual there is strictly smaller.
    #[tactic(auto, using(crate::proofs::Steps::one_changed), unfolding(crate::specs::Solver::halved, crate::specs::Solver::distance, number::specs::Computing::computing))]
    pub fn halved(&self, boxes: Domain, stack: &mut Stack) -> Domain
        ensures { (result.count.n ≡ boxes.count.n) × (intervals_of result ≡ halved self.now.settings (the_constraint self.now.records) (intervals_of boxes)) }
    {
        let w = boxes.widest();
        let halves = interval::box_at(boxes.as_slice(), w).split();
        let point = boxes.midpoints().with(w, halves.lower.midpoint());
        let low = self.distance(&point, stack);
        let point = point.with(w, halves.upper.midpoint());
        let high = self.distance(&point, stack);
        let kept = if low < high {
            halves.lower
        } else {
            halves.upper
        };
        boxes.with(w, kept)
    }
}
