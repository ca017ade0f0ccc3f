// The exports of `eml::points`.
ghost use Rattle.std.specs.Prelude.{◌≡◌};
ghost use Rattle.record.specs.Leaving.{◌leaving◌};
ghost use Rattle.point.specs.Answer.{eval_answer, check_answer, residual_answer};
ghost use Rattle.record.specs.Views.{old, final};
ghost use Rattle.eml.specs.Answers.{placed, evaluated, evaluation_before, evaluation_after};

use settings::Settings;

#[unsafe(no_mangle)]
pub extern "C" fn eml_check(
    nodes: &[u8],
    constraints: &[u8],
    point: &[f64],
    settings: Settings,
    passes: &mut bool,
) -> u8
    ensures { (result leaving final passes) ≡ placed (check_answer settings nodes.now constraints.now point.now) (old passes) }
{
    eml::points::eml_check(nodes, constraints, point, settings, passes)
}

#[unsafe(no_mangle)]
pub extern "C" fn eml_residual(
    nodes: &[u8],
    constraints: &[u8],
    point: &[f64],
    settings: Settings,
    out: &mut f64,
) -> u8
    ensures { (result leaving final out) ≡ placed (residual_answer settings nodes.now constraints.now point.now) (old out) }
{
    eml::points::eml_residual(nodes, constraints, point, settings, out)
}

#[unsafe(no_mangle)]
pub extern "C" fn eml_eval_real(
    nodes: &[u8],
    node: usize,
    point: &[f64],
    settings: Settings,
    kind: &mut u8,
    value: &mut f64,
    index: &mut usize,
    count: &mut usize,
) -> u8
    ensures { (result leaving evaluation_after kind value index count) ≡ evaluated (eval_answer settings nodes.now node point.now) (evaluation_before kind value index count) }
{
    eml::points::eml_eval_real(nodes, node, point, settings, kind, value, index, count)
}
