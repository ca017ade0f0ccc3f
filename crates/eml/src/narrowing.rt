// Narrowing, on records and boxes as two lists of ends, or as a list of intervals.
ghost use Rattle.std.specs.Prelude.{◌≡◌};
ghost use Rattle.record.specs.Leaving.{◌leaving◌};
ghost use Rattle.record.specs.Refused.{numbered};
ghost use Rattle.narrow.specs.Given.{propagate_given};
ghost use Rattle.lent.specs.Lent.{propagate_lent};
ghost use Rattle.record.specs.Views.{old, final};
ghost use Rattle.eml.specs.Answers.{writing, propagated};

use interval::Interval;
use narrow::PropResult;
use record::Refusal;
use settings::Settings;

fn put_result(answer: Result<PropResult, Refusal>, place: &mut u8) -> u8
    ensures { (result leaving final place) ≡ propagated (numbered answer) (old place) }
{
    match answer {
        Ok(result) => {
            *place = result.into();
            0
        }
        Err(refusal) => refusal.into(),
    }
}

// Narrows the boxes. `answer` is 0 for Changed, 1 Stable, 2 Conflict; a refusal leaves it and the boxes as they were.
pub fn eml_propagate(
    nodes: &[u8],
    constraints: &[u8],
    settings: Settings,
    lo: &mut [f64],
    hi: &mut [f64],
    answer: &mut u8,
) -> u8
    ensures { (result leaving (final answer, (final lo, final hi))) ≡ writing propagated (propagate_given settings nodes.now constraints.now (old lo) (old hi)) (old answer) }
{
    put_result(
        narrow::propagate_given(nodes, constraints, settings, lo, hi),
        answer,
    )
}

// The same on the caller's own list of intervals.
pub fn eml_propagate_intervals(
    nodes: &[u8],
    constraints: &[u8],
    settings: Settings,
    boxes: &mut [Interval],
    answer: &mut u8,
) -> u8
    ensures { (result leaving (final answer, final boxes)) ≡ writing propagated (propagate_lent settings nodes.now constraints.now (old boxes)) (old answer) }
{
    put_result(lent::propagate(nodes, constraints, settings, boxes), answer)
}
