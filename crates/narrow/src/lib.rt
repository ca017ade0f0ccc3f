// Narrowing (document 01; interval.rs): a constraint tightens the boxes of its variables, or finds that nothing in them meets it. The
// boxes are a lent list of at most 16.
#![tactic(auto)]

mod atom; // one atom
mod backward; // from a node down to the variables
mod forward; // the interval of a tree's values
mod round; // a constraint, once

ghost use Rattle.std.specs.Prelude.{◌≡◌, ◌≤◌, length};
ghost use Rattle.interval.specs.Views.{intervals_of};
ghost use Rattle.record.specs.Leaving.{◌leaving◌};
ghost use Rattle.record.specs.Views.{old, final};
ghost use Rattle.constraint.specs.Views.{meaning};
ghost use Rattle.narrow.specs.Narrowing.{propagate as propagate_of};
ghost use Rattle.narrow.specs.Modes.{in_mode};
ghost use Rattle.narrow.specs.Given.{propagate_given};
ghost use Rattle.record.specs.Refused.{numbered};

pub use backward::backward_propagate;
use constraint::EmlConstraint;
pub use forward::eval_interval;
use interval::{Domain, Interval};
use record::Refusal;
pub use round::{Mode, Propagator};
use settings::Settings;

// What a step of narrowing did, the worst last.
#[derive(Clone, Copy, PartialEq, Eq, PartialOrd, Ord)]
pub enum PropResult {
    Stable,
    Changed,
    Conflict,
}

// The numbers of the answers.
impl From<PropResult> for u8 {
    ghost use Rattle.narrow.specs.Given.{result_number};

    ghost from_gives = { λ res n. n ≡ result_number res };

    fn from(res: PropResult) -> u8 {
        match res {
            PropResult::Changed => 0,
            PropResult::Stable => 1,
            PropResult::Conflict => 2,
        }
    }
}

impl Propagator {
    // In rounds until nothing changes or a Conflict, at most as many as the settings say.
    #[tactic(auto, using(crate::proofs::Rounds::ends))]
    pub fn propagate(self, c: EmlConstraint, boxes: &mut [Interval]) -> PropResult
        requires { length boxes.old ≤ 16 }
        ensures { (result leaving final boxes) ≡ propagate_of self.settings (in_mode self.mode (meaning c.entry)) (old boxes) }
    {
        let mut done = PropResult::Stable;
        for _ in 0..self.settings.rounds {
            let result = self.propagate_once(c, boxes);
            done = done.max(result);
            if result != PropResult::Changed {
                return done;
            }
        }
        done
    }

    // The same of boxes that are held by value.
    pub fn narrow(self, c: EmlConstraint, domain: &mut Domain) -> PropResult
        ensures count { domain.new.count.n ≡ domain.old.count.n }
        ensures boxes { (result leaving intervals_of (final domain)) ≡ propagate_of self.settings (in_mode self.mode (meaning c.entry)) (intervals_of (old domain)) }
    {
        let n = domain.count.n;
        self.propagate(c, &mut domain.boxes[..n])
    }
}

// The tests in the documents' order, then `propagate` by the one constraint that the records leave. A refusal alters nothing.
#[tactic(auto, using(crate::proofs::Given::given), unfolding(crate::specs::Given::propagate_given))]
pub fn propagate_given(
    nodes: &[u8],
    constraints: &[u8],
    settings: Settings,
    lo: &mut [f64],
    hi: &mut [f64],
) -> Result<PropResult, Refusal>
    ensures { (numbered result leaving (final lo, final hi)) ≡ propagate_given settings nodes.now constraints.now (old lo) (old hi) }
{
    let records = file::read_given(nodes, constraints)?;
    settings.test()?;
    let mut domain = Domain::of_sound_ends(lo, hi)?;
    let propagator = Propagator {
        settings,
        mode: Mode::Written,
    };
    let result = propagator.narrow(records.constraint(), &mut domain);
    interval::write_ends(domain.as_slice(), lo, hi);
    Ok(result)
}
