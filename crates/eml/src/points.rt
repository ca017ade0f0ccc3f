// Testing a point, on records. An answer is written to the lent places, unless it is a refusal: then they stay as they were.
ghost use Rattle.std.specs.Prelude.{◌≡◌};
ghost use Rattle.record.specs.Leaving.{◌leaving◌};
ghost use Rattle.point.specs.Answer.{eval_answer, check_answer, residual_answer};
ghost use Rattle.record.specs.Views.{old, final};
ghost use Rattle.eml.specs.Answers.{placed, failed, evaluated, evaluation_before, evaluation_after};

use crate::answers::put;
use point::eval::EvalError;
use settings::Settings;

// Whether the point passes the check, to `passes`.
pub fn eml_check(
    nodes: &[u8],
    constraints: &[u8],
    point: &[f64],
    settings: Settings,
    passes: &mut bool,
) -> u8
    ensures { (result leaving final passes) ≡ placed (check_answer settings nodes.now constraints.now point.now) (old passes) }
{
    let answer = point::check_constraint(nodes, constraints, point, settings);
    put(answer, passes)
}

// The point's residual, to `out`.
pub fn eml_residual(
    nodes: &[u8],
    constraints: &[u8],
    point: &[f64],
    settings: Settings,
    out: &mut f64,
) -> u8
    ensures { (result leaving final out) ≡ placed (residual_answer settings nodes.now constraints.now point.now) (old out) }
{
    let answer = point::residual(nodes, constraints, point, settings);
    put(answer, out)
}

fn write_error(
    error: EvalError,
    kind: &mut u8,
    value: &mut f64,
    index: &mut usize,
    count: &mut usize,
)
    ensures { evaluation_after kind value index count ≡ failed error (evaluation_before kind value index count) }
{
    match error {
        EvalError::VarOutOfBounds(i, n) => {
            *kind = 1;
            *index = i;
            *count = n;
        }
        EvalError::NanEncountered => {
            *kind = 2;
        }
        EvalError::ComplexResult(im) => {
            *kind = 3;
            *value = im;
        }
        EvalError::ExpOverflow(re) => {
            *kind = 4;
            *value = re;
        }
    }
}

// A node's value at the point. `kind` is 0 for a value, 1 VarOutOfBounds, 2 NanEncountered, 3 ComplexResult, 4 ExpOverflow; `value` is the value, or the
// number that 3 and 4 carry; `index` and `count` are what 1 carries. A place that the answer has nothing for stays.
pub fn eml_eval_real(
    nodes: &[u8],
    node: usize,
    point: &[f64],
    settings: Settings,
    kind: &mut u8,
    value: &mut f64,
    index: &mut usize,
    count: &mut usize,
) -> u8
    ensures { (result leaving evaluation_after kind value index count) ≡ evaluated (eval_answer settings nodes.now node point.now) (evaluation_before kind value index count) }
{
    match point::eval_real(nodes, node, point, settings) {
        Ok(Ok(x)) => {
            *kind = 0;
            *value = x;
            0
        }
        Ok(Err(error)) => {
            write_error(error, kind, value, index, count);
            0
        }
        Err(refusal) => refusal.into(),
    }
}
