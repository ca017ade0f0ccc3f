// The exports of `eml::narrowing`.
ghost use Rattle.std.specs.Prelude.{◌≡◌};
ghost use Rattle.record.specs.Leaving.{◌leaving◌};
ghost use Rattle.narrow.specs.Given.{propagate_given};
ghost use Rattle.lent.specs.Lent.{propagate_lent};
ghost use Rattle.record.specs.Views.{old, final};
ghost use Rattle.eml.specs.Answers.{writing, propagated};

use interval::Interval;
use settings::Settings;

#[unsafe(no_mangle)]
pub extern "C" fn eml_propagate(
    nodes: &[u8],
    constraints: &[u8],
    settings: Settings,
    lo: &mut [f64],
    hi: &mut [f64],
    answer: &mut u8,
) -> u8
    ensures { (result leaving (final answer, (final lo, final hi))) ≡ writing propagated (propagate_given settings nodes.now constraints.now (old lo) (old hi)) (old answer) }
{
    eml::narrowing::eml_propagate(nodes, constraints, settings, lo, hi, answer)
}

#[unsafe(no_mangle)]
pub extern "C" fn eml_propagate_intervals(
    nodes: &[u8],
    constraints: &[u8],
    settings: Settings,
    boxes: &mut [Interval],
    answer: &mut u8,
) -> u8
    ensures { (result leaving (final answer, final boxes)) ≡ writing propagated (propagate_lent settings nodes.now constraints.now (old boxes)) (old answer) }
{
    eml::narrowing::eml_propagate_intervals(nodes, constraints, settings, boxes, answer)
}
