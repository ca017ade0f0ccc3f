// Solving, of a file and of records with bounds.
ghost use Rattle.std.specs.Prelude.{length};
ghost use Rattle.nra.specs.Answers.{answered};
ghost use Rattle.nra.specs.Calls.{solve_file, solve_given};
ghost use Rattle.nra.specs.Fits.{Fits};
ghost use Rattle.record.specs.Views.{old};
ghost use Rattle.eml.specs.Places.{Solves};

use crate::answers::put_point;
use nra::Solved;
use record::Refusal;
use settings::Settings;

#[tactic(auto, using(number::specs::Literals::zero_is))]
fn put_solved(
    answer: Result<Solved, Refusal>,
    stop: &mut u8,
    exact: &mut bool,
    residual: &mut f64,
    halvings: &mut usize,
    count: &mut usize,
    point: &mut [f64],
) -> u8
    requires { Fits (length point.old) (answered answer) }
    ensures { Solves stop exact residual halvings count point result (answered answer) }
{
    let solved = match answer {
        Ok(solved) => solved,
        Err(refusal) => return refusal.into(),
    };
    *stop = solved.stop_number();
    match solved {
        Solved::Assignment {
            point: values,
            exact: is_exact,
            halvings: made,
        } => {
            *exact = is_exact;
            *residual = 0.0;
            *halvings = made;
            *count = put_point(&values, point);
        }
        Solved::Failed {
            residual: left,
            halvings: made,
            ..
        } => {
            *exact = false;
            *residual = left;
            *halvings = made;
            *count = 0;
        }
    }
    0
}

// Solves a house file. `stop` is 0 for assignment, 1 conflict, 2 tolerance, 3 limit, 4 unsatisfied. An assignment has its values in the first
// `count` places of `point`; any other answer has its residual. 10 where there are fewer places than variables. A refusal leaves every place as it was.
#[tactic(auto, using(nra::specs::Fits::file_fits))]
pub fn eml_solve_file(
    file: &[u8],
    limit: usize,
    tolerance: f64,
    settings: Settings,
    stop: &mut u8,
    exact: &mut bool,
    residual: &mut f64,
    halvings: &mut usize,
    count: &mut usize,
    point: &mut [f64],
) -> u8
    ensures { Solves stop exact residual halvings count point result (solve_file settings file.now limit tolerance (length (old point))) }
{
    let answer = nra::solve_file(file, limit, tolerance, settings, point.len());
    put_solved(answer, stop, exact, residual, halvings, count, point)
}

// Solves records with bounds, and answers as `eml_solve_file` does.
#[tactic(auto, using(nra::specs::Fits::given_fits))]
pub fn eml_solve(
    nodes: &[u8],
    constraints: &[u8],
    lo: &[f64],
    hi: &[f64],
    limit: usize,
    tolerance: f64,
    settings: Settings,
    stop: &mut u8,
    exact: &mut bool,
    residual: &mut f64,
    halvings: &mut usize,
    count: &mut usize,
    point: &mut [f64],
) -> u8
    ensures { Solves stop exact residual halvings count point result (solve_given settings nodes.now constraints.now lo.now hi.now limit tolerance (length (old point))) }
{
    let room = point.len();
    let answer = nra::solve(nodes, constraints, lo, hi, limit, tolerance, settings, room);
    put_solved(answer, stop, exact, residual, halvings, count, point)
}
