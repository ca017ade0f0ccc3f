// Decisions about a variable in a range, on records. A refusal leaves the lent places as they were.
ghost use Rattle.std.specs.Prelude.{length};
ghost use Rattle.decide.specs.Deciding.{decide_forall_given, decide_exists_given};
ghost use Rattle.decide.specs.Decisions.{Fits};
ghost use Rattle.decide.specs.Views.{answered};
ghost use Rattle.record.specs.Views.{old};
ghost use Rattle.eml.specs.Places.{Decides};

use crate::answers::put_point;
use decide::Verdict;
use record::Refusal;
use settings::Settings;

fn put_decided(
    answer: Result<Verdict, Refusal>,
    verdict: &mut u8,
    count: &mut usize,
    point: &mut [f64],
) -> u8
    requires { Fits (length point.old) (answered answer) }
    ensures { Decides verdict count point result (answered answer) }
{
    let v = match answer {
        Ok(v) => v,
        Err(refusal) => return refusal.into(),
    };
    *verdict = v.into();
    match v {
        Verdict::TrueWithWitness(values) | Verdict::FalseWithCounterexample(values) => {
            *count = put_point(&values, point);
        }
        Verdict::True | Verdict::Unknown => *count = 0,
    }
    0
}

// Whether the constraint holds for every value of variable `var` in [lo, hi]. `verdict` is 0 for True, 1 TrueWithWitness, 2 FalseWithCounterexample, 3
// Unknown; the first `count` places of `point` are the counterexample, and those past it stay. 10 where `point` has fewer places than variables.
#[tactic(auto, using(decide::specs::Decisions::forall_given_values))]
pub fn eml_decide_forall(
    nodes: &[u8],
    constraints: &[u8],
    var: usize,
    lo: f64,
    hi: f64,
    num_vars: usize,
    settings: Settings,
    verdict: &mut u8,
    count: &mut usize,
    point: &mut [f64],
) -> u8
    ensures { Decides verdict count point result (decide_forall_given settings nodes.now constraints.now var lo hi num_vars (length (old point))) }
{
    let room = point.len();
    let answer = decide::decide_forall(nodes, constraints, var, lo, hi, num_vars, settings, room);
    put_decided(answer, verdict, count, point)
}

// Whether it holds for some value; the point is the witness.
#[tactic(auto, using(decide::specs::Decisions::exists_given_values))]
pub fn eml_decide_exists(
    nodes: &[u8],
    constraints: &[u8],
    var: usize,
    lo: f64,
    hi: f64,
    num_vars: usize,
    settings: Settings,
    verdict: &mut u8,
    count: &mut usize,
    point: &mut [f64],
) -> u8
    ensures { Decides verdict count point result (decide_exists_given settings nodes.now constraints.now var lo hi num_vars (length (old point))) }
{
    let room = point.len();
    let answer = decide::decide_exists(nodes, constraints, var, lo, hi, num_vars, settings, room);
    put_decided(answer, verdict, count, point)
}
