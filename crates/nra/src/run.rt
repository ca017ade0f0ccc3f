// A run (document 01; nra.rs): all before the first halving, a halving with all that follows it, and many of them.
#![tactic(auto, using(crate::proofs::Steps::tried_failed), unfolding(crate::specs::Solver::begin_in, crate::specs::Solver::begin_narrowed, crate::specs::Solver::begin_checked, crate::specs::Solver::settle_in, crate::specs::Solver::settle_narrowed, crate::specs::Solver::settle_checked, crate::specs::Solver::halve, crate::specs::Solver::distance, crate::specs::Solver::run, crate::specs::Solver::finish, crate::specs::Answers::tried, number::specs::Computing::computing))]

ghost use Rattle.std.specs.Prelude.{◌≡◌, ◌-◌, ◌<◌};
ghost use Rattle.record.specs.Views.{old, final};

use super::answer::{Solved, Stop};
use super::halving::Task;
use interval::{Domain, Point};
use narrow::{Mode, PropResult, Propagator};
use point::stack::Stack;
use std::ops::ControlFlow;
use std::ops::ControlFlow::{Break, Continue};

// Between two halvings: the boxes, whose midpoint did not pass the check, and the halvings so far.
#[derive(Clone, Copy)]
pub struct State {
    pub boxes: Domain,
    pub halvings: usize,
}

// A run goes on, or breaks off with its answer.
impl<'a> Task<'a> {
    ghost use Rattle.std.specs.ControlFlow.{MatchControlFlow};
    ghost use Rattle.interval.specs.Views.{intervals_of};
    ghost use Rattle.nra.specs.Answers.{asked, answer_of, state_of, progress_of, Narrows, Conflicts, tried, tried_in};
    ghost use Rattle.nra.specs.Solver.{Going, begin_in, settle_in, halve, steps, finish};

    // Narrows the boxes, and answers their midpoint, unless narrowing meets a conflict.
    fn narrow(&self, boxes: &mut Domain, halvings: usize) -> ControlFlow<Solved, Point>
        ensures { MatchControlFlow result (Narrows self.now (old boxes) (final boxes)) (Conflicts self.now (old boxes) halvings) }
    {
        let propagator = Propagator {
            settings: self.settings,
            mode: Mode::Written,
        };
        let result = propagator.narrow(self.records.constraint(), boxes);
        if result == PropResult::Conflict {
            return Break(Solved::Failed {
                stop: Stop::Conflict,
                residual: f64::INFINITY,
                halvings,
            });
        }
        Continue(boxes.midpoints())
    }

    // All before the first halving.
    pub fn begin(&self, start: Domain, stack: &mut Stack) -> ControlFlow<Solved, State>
        ensures { progress_of result ≡ begin_in self.now.settings (asked self.now) (intervals_of start) }
    {
        let mut boxes = start;
        let point = self.narrow(&mut boxes, 0)?;
        if self.passes(&point, stack) {
            return Break(Solved::Assignment {
                point,
                exact: boxes.all_below(self.tolerance),
                halvings: 0,
            });
        }
        Continue(State { boxes, halvings: 0 })
    }

    // What follows a halving, up to the next.
    fn settle(&self, half: Domain, halvings: usize, stack: &mut Stack) -> ControlFlow<Solved, State>
        ensures { progress_of result ≡ settle_in self.now.settings (asked self.now) halvings (intervals_of half) }
    {
        let mut boxes = half;
        let point = self.narrow(&mut boxes, halvings)?;
        if self.passes(&point, stack) {
            return Break(Solved::Assignment {
                point,
                exact: false,
                halvings,
            });
        }
        if boxes.all_below(self.tolerance) {
            return Break(Solved::Failed {
                stop: Stop::Tolerance,
                residual: self.distance(&point, stack),
                halvings,
            });
        }
        Continue(State { boxes, halvings })
    }

    // A halving, and all that follows it up to the next.
    pub fn halve(&self, state: State, stack: &mut Stack) -> ControlFlow<Solved, State>
        requires { state.halvings < 1_000_000 }
        ensures { progress_of result ≡ halve self.now.settings (asked self.now) (state_of state) }
    {
        let half = self.halved(state.boxes, stack);
        self.settle(half, state.halvings + 1, stack)
    }

    // Halves until the run breaks off or has made as many halvings as its limit.
    #[tactic(auto, using(crate::proofs::Steps::run_steps))]
    pub fn run_to(&self, state: State, stack: &mut Stack) -> ControlFlow<Solved, State>
        ensures { progress_of result ≡ steps self.now.settings (asked self.now) (self.now.limit - state.halvings) (Going (state_of state)) }
    {
        let mut state = state;
        for _ in state.halvings..self.limit {
            state = self.halve(state, stack)?;
        }
        Continue(state)
    }

    // From the starting boxes.
    #[tactic(auto, using(crate::proofs::Steps::run_steps))]
    pub fn steps(&self, start: Domain, stack: &mut Stack) -> ControlFlow<Solved, State>
        ensures { progress_of result ≡ steps self.now.settings (asked self.now) self.now.limit (begin_in self.now.settings (asked self.now) (intervals_of start)) }
    {
        let state = self.begin(start, stack)?;
        self.run_to(state, stack)
    }

    // What goes on has reached the limit. Under limit 0 no point is exact.
    pub fn answer(&self, progress: ControlFlow<Solved, State>, stack: &mut Stack) -> Solved
        ensures { answer_of result ≡ tried self.now.limit (finish self.now.settings (asked self.now) (progress_of progress)) }
    {
        match progress {
            Break(solved) => {
                if self.limit == 0 {
                    return solved.untried();
                }
                solved
            }
            Continue(state) => Solved::Failed {
                stop: Stop::Limit,
                residual: self.distance(&state.boxes.midpoints(), stack),
                halvings: state.halvings,
            },
        }
    }

    // The whole.
    pub fn run(&self, start: Domain, stack: &mut Stack) -> Solved
        ensures { answer_of result ≡ tried_in self.now.settings (asked self.now) self.now.limit (intervals_of start) }
    {
        let progress = self.steps(start, stack);
        self.answer(progress, stack)
    }
}
