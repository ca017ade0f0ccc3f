// Halving (document 01; nra.rs): boxes are narrowed and halved until a point passes the check.
#![tactic(auto)]

pub mod answer; // what a solve answers
pub mod halving; // one halving
pub mod run; // many of them

ghost use Rattle.std.specs.Prelude.{◌≡◌, []};
ghost use Rattle.interval.specs.Views.{intervals_of};
ghost use Rattle.constraint.specs.Constraint.{num_vars};
ghost use Rattle.constraint.specs.Views.{the_constraint};
ghost use Rattle.point.specs.Check.{check};
ghost use Rattle.nra.specs.Answers.{asked, answer_of, answered};
ghost use Rattle.nra.specs.Calls.{answered_in, solve_file, solve_given};
ghost use Rattle.nra.specs.Fits.{Fits};
ghost use Rattle.nra.specs.Solver.{begin_empty, solve as solve_of};

pub use answer::{Solved, Stop};
use file::Problem;
use halving::Task;
use interval::{Count, Domain, Point};
use point::stack::Stack;
use record::Refusal;
use settings::Settings;

// ---- an accepted problem

// Where there is no variable: whether the empty point passes.
#[tactic(auto, unfolding(crate::specs::Solver::begin_empty, number::specs::Computing::computing))]
fn solve_empty(task: &Task, stack: &mut Stack) -> Solved
    ensures { answer_of result ≡ begin_empty (check task.now.settings [] (the_constraint task.now.records)) }
{
    let point = Point::zeros(Count { n: 0 });
    if task.passes(&point, stack) {
        return Solved::Assignment {
            point,
            exact: true,
            halvings: 0,
        };
    }
    Solved::Failed {
        stop: Stop::Unsatisfied,
        residual: f64::INFINITY,
        halvings: 0,
    }
}

// In these bounds. `count` is the number of variables.
#[tactic(auto, using(crate::proofs::Answering::solving))]
fn solve_in(task: &Task, bounds: &Domain, count: Count, stack: &mut Stack) -> Solved
    requires { count.n ≡ num_vars (the_constraint task.now.records) }
    ensures { answer_of result ≡ solve_of task.now.settings (asked task.now) (intervals_of bounds.now) task.now.limit }
{
    if count.n == 0 {
        return solve_empty(task, stack);
    }
    task.run(bounds.starting(count), stack)
}

// Where there are places for a point: else 10.
#[tactic(auto, using(crate::proofs::Answering::few_vars), unfolding(crate::specs::Calls::room_refusal))]
fn solve_task(task: &Task, bounds: &Domain, room: usize) -> Result<Solved, Refusal>
    ensures answer { answered result ≡ answered_in task.now.settings (asked task.now) (intervals_of bounds.now) task.now.limit room }
    ensures fits { Fits room (answered result) }
{
    let n = task.records.constraint().num_vars();
    if room < n {
        return Err(Refusal::Room);
    }
    Ok(solve_in(task, bounds, Count { n }, &mut Stack::new()))
}

// ---- what the exported calls call

// Solves a house file. `room` is how many places the caller has for the point.
#[tactic(auto, using(file::specs::FileLaws::file_refused, record::specs::RefusalLaws::never_none, record::specs::RefusalLaws::refuses, record::specs::RefusalLaws::refuses_first), unfolding(crate::specs::Calls::solve_file))]
pub fn solve_file(
    file: &[u8],
    limit: usize,
    tolerance: f64,
    settings: Settings,
    room: usize,
) -> Result<Solved, Refusal>
    ensures answer { answered result ≡ solve_file settings file.now limit tolerance room }
    ensures fits { Fits room (answered result) }
{
    let Problem { records, bounds } = file::read(file)?;
    let task = Task::new(records, limit, tolerance, settings)?;
    solve_task(&task, &bounds, room)
}

// Solves records with bounds.
#[tactic(auto, using(file::specs::FileLaws::given_refused, record::specs::RefusalLaws::never_none, record::specs::RefusalLaws::refuses, record::specs::RefusalLaws::refuses_first), unfolding(crate::specs::Calls::solve_given, crate::specs::Calls::boxes_refusal))]
pub fn solve(
    nodes: &[u8],
    constraints: &[u8],
    lo: &[f64],
    hi: &[f64],
    limit: usize,
    tolerance: f64,
    settings: Settings,
    room: usize,
) -> Result<Solved, Refusal>
    ensures answer { answered result ≡ solve_given settings nodes.now constraints.now lo.now hi.now limit tolerance room }
    ensures fits { Fits room (answered result) }
{
    let records = file::read_given(nodes, constraints)?;
    let task = Task::new(records, limit, tolerance, settings)?;
    let bounds = Domain::of_sound_ends(lo, hi)?;
    solve_task(&task, &bounds, room)
}
