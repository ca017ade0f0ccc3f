// `propagate` on the caller's own list of intervals (document 01, "Forms of the Rust to recast"): the tests, and then the narrowing, of the list itself.
#![tactic(auto, using(narrow::specs::GivenLaws::refusals), unfolding(crate::specs::Lent::propagate_lent))]

ghost use Rattle.std.specs.Prelude.{◌≡◌};
ghost use Rattle.record.specs.Leaving.{◌leaving◌};
ghost use Rattle.record.specs.Refused.{numbered};
ghost use Rattle.record.specs.Views.{old, final};
ghost use Rattle.lent.specs.Lent.{propagate_lent};

use interval::Interval;
use narrow::{Mode, PropResult, Propagator};
use record::Refusal;
use settings::Settings;

// The tests in the documents' order, then `propagate` by the one constraint that the records leave. A refusal alters nothing.
pub fn propagate(
    nodes: &[u8],
    constraints: &[u8],
    settings: Settings,
    boxes: &mut [Interval],
) -> Result<PropResult, Refusal>
    ensures { (numbered result leaving final boxes) ≡ propagate_lent settings nodes.now constraints.now (old boxes) }
{
    let records = file::read_given(nodes, constraints)?;
    settings.test()?;
    if !interval::is_domain(boxes) {
        return Err(Refusal::Boxes);
    }
    let propagator = Propagator {
        settings,
        mode: Mode::Written,
    };
    Ok(propagator.propagate(records.constraint(), boxes))
}
